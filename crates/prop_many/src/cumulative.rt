//! When a task may start that shares a resource with others.
ghost use Rattle.std.specs.Prelude.{◌≡◌, ◌≤ℤ◌, neg_ℤ};
ghost use Rattle.prop_lattice.specs.declared.span.TheConstants.{B};
ghost use Rattle.prop_many.specs.Cumulative.{cumulative_of, first_of, fits, is_later, is_sooner};
ghost use Rattle.prop_many.specs.Cumulative.{last_of, starts_of};

use crate::loads::{demand_of, end_of, keeps_room, load};
use prop_lattice::Info;
use prop_lattice::span::B;
use prop_wide::ends::{high_of, known, low_of};

/// What a task wants of a resource: that the others take no more than `room` while it runs, which
/// it does for `length` at least.
#[derive(Clone, Copy)]
struct Wish {
    room: i128,
    length: i64,
    ghost least: { neg_ℤ B ≤ℤ length },
    ghost most: { length ≤ℤ B },
}

/// Whether the task may start at this time.
fn fits(tasks: &[Info], wish: Wish, start: i64) -> bool
    ensures { result ≡ fits tasks.now wish.room wish.length start }
{
    let end = i128::from(start) + i128::from(wish.length);
    wish.length <= 0
        || load(tasks, start) <= wish.room && keeps_room(tasks, tasks, wish.room, start, end)
}

/// Whether a time is a start from `low` on, before another, at which the task fits.
fn is_sooner(tasks: &[Info], wish: Wish, low: i64, time: i64, first: i64) -> bool
    ensures { result ≡ is_sooner tasks.now wish.room wish.length low time first }
{
    low <= time && time < first && fits(tasks, wish, time)
}

/// The first start from `low` on at which the task fits, among `low` and the ends of some tasks;
/// past the range where there is none.
fn first(tasks: &[Info], ending: &[Info], wish: Wish, low: i64) -> i64
    ensures { result ≡ first_of tasks.now ending.now wish.room wish.length low }
{
    match ending {
        [start, length, _, ending @ ..] => {
            let end = end_of(*start, *length);
            let first = first(tasks, ending, wish, low);
            if is_sooner(tasks, wish, low, end, first) {
                end
            } else {
                first
            }
        }
        _ => { if fits(tasks, wish, low) { low } else { B + 1 } }
    }
}

/// Whether a time is a start up to `high`, behind another, at which the task fits.
fn is_later(tasks: &[Info], wish: Wish, high: i64, time: i64, last: i64) -> bool
    ensures { result ≡ is_later tasks.now wish.room wish.length high time last }
{
    time <= high && last < time && fits(tasks, wish, time)
}

/// The last start up to `high` at which the task fits, among `high` and those that end it where
/// some task starts; before the range where there is none.
fn last(tasks: &[Info], starting: &[Info], wish: Wish, high: i64) -> i64
    ensures { result ≡ last_of tasks.now starting.now wish.room wish.length high }
{
    match starting {
        [start, _, _, starting @ ..] => {
            let before = high_of(*start) - wish.length;
            let last = last(tasks, starting, wish, high);
            if is_later(tasks, wish, high, before, last) {
                before
            } else {
                last
            }
        }
        _ => {
            if fits(tasks, wish, high) {
                high
            } else {
                -B - 1
            }
        }
    }
}

/// The starts of a task from the first to the last at which it fits.
fn starts(tasks: &[Info], wish: Wish, start: Info) -> Info
    ensures { result ≡ starts_of tasks.now wish.room wish.length start }
{
    let first = first(tasks, tasks, wish, low_of(start));
    let last = last(tasks, tasks, wish, high_of(start));
    known(i128::from(first), i128::from(last))
}

/// What is known of the start of a task that shares a resource with others: the arguments are the
/// capacity, the task's own start, length and demand, and those of each other task.
pub fn start_beside(args: &[Info]) -> Info
    ensures { result ≡ cumulative_of args.now }
{
    match args {
        [capacity, start, length, demand, tasks @ ..] => {
            let room = i128::from(high_of(*capacity)) - i128::from(demand_of(*demand));
            let wish = Wish {
                room,
                length: low_of(*length),
            };
            starts(tasks, wish, *start)
        }
        _ => Info::Nothing,
    }
}
