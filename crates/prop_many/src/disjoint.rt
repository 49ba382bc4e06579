//! When a task may start that others may not overlap.
ghost use Rattle.std.specs.Prelude.{◌≡◌};
ghost use Rattle.prop_many.specs.Disjoint.{apart_of, disjoint_of, earliest_of, is_behind};
ghost use Rattle.prop_many.specs.Disjoint.{latest_of, start_before};

use crate::loads::end_of;
use prop_lattice::Info;
use prop_wide::ends::{high_of, known, low_of};

/// Whether a task is sure to come behind another: both last, and it can't end before the other
/// starts.
fn is_behind(start: Info, length: Info, other: Info, long: Info) -> bool
    ensures { result ≡ is_behind start length other long }
{
    0 < low_of(length) && 0 < low_of(long) && high_of(other) < end_of(start, length)
}

/// The earliest start of a task, behind the earliest end of each other that it is sure to come
/// behind.
fn earliest(start: Info, length: Info, others: &[Info]) -> i64
    ensures { result ≡ earliest_of start length others.now }
{
    match others {
        [other, long, others @ ..] => {
            let earliest = earliest(start, length, others);
            if is_behind(start, length, *other, *long) {
                earliest.max(end_of(*other, *long))
            } else {
                earliest
            }
        }
        _ => low_of(start),
    }
}

/// The latest start of a task that ends before another starts.
fn start_before(other: Info, length: Info) -> i64
    ensures { result ≡ start_before other length }
{
    high_of(other) - low_of(length)
}

/// The latest start of a task, which ends before the latest start of each other that is sure to
/// come behind it.
fn latest(start: Info, length: Info, others: &[Info]) -> i64
    ensures { result ≡ latest_of start length others.now }
{
    match others {
        [other, long, others @ ..] => {
            let latest = latest(start, length, others);
            if is_behind(*other, *long, start, length) {
                latest.min(start_before(*other, length))
            } else {
                latest
            }
        }
        _ => high_of(start),
    }
}

/// The starts of a task from the earliest to the latest.
fn starts(start: Info, length: Info, others: &[Info]) -> Info
    ensures { result ≡ apart_of start length others.now }
{
    let earliest = earliest(start, length, others);
    let latest = latest(start, length, others);
    known(i128::from(earliest), i128::from(latest))
}

/// What is known of the start of a task that others may not overlap: the arguments are its start
/// and its length, and those of each other.
pub fn start_apart(args: &[Info]) -> Info
    ensures { result ≡ disjoint_of args.now }
{
    match args {
        [start, length, others @ ..] => starts(*start, *length, others),
        _ => Info::Nothing,
    }
}
