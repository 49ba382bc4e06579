//! The entry of a number in a row, counted from 1, and back to the number and to an entry.
ghost use Rattle.std.specs.Prelude.{◌≡◌, ◌≤◌, ◌+ℤ◌, ◌≤ℤ◌, pos, length};
ghost use Rattle.prop_rows.specs.Entries.{may_be, meets, picked, element_of, found, index_of};
ghost use Rattle.prop_rows.specs.Entries.{is_known_as, entry_of};

use prop_intervals::clipped;
use prop_lattice::{Info, Partial};
use prop_wide::ends::{high_of, low_of};
use prop_wide::hull;

/// Whether a number may be this one.
fn may_be(number: Info, this: i64) -> bool
    ensures { result ≡ may_be number this }
{
    low_of(number) <= this && this <= high_of(number)
}

/// Whether two informations may be of one value.
fn meets(a: Info, b: Info) -> bool
    ensures { result ≡ meets a b }
{
    !a.merge(b).is_contradiction()
}

/// What is known of the entry of the number, of these entries of which the first has this one.
fn picked(number: Info, first: i64, entries: &[Info]) -> Info
    requires above { pos 0 ≤ℤ first }
    requires few { (first +ℤ pos (length entries.now)) ≤ℤ pos 1_000 }
    ensures { result ≡ picked number first entries.now }
{
    match entries {
        [] => Info::Contradiction,
        [entry, rest @ ..] => {
            let here = if may_be(number, first) {
                *entry
            } else {
                Info::Contradiction
            };
            hull(here, picked(number, first + 1, rest))
        }
    }
}

/// What is known of the entry of a number in a row.
pub fn element(number: Info, entries: &[Info]) -> Info
    requires { length entries.now ≤ 128 }
    ensures { result ≡ element_of number entries.now }
{
    picked(number, 1, entries)
}

/// What is known of the number of an entry that has this value, of these entries of which the first
/// has this number.
fn found(value: Info, number: Info, first: i64, entries: &[Info]) -> Info
    requires above { pos 0 ≤ℤ first }
    requires few { (first +ℤ pos (length entries.now)) ≤ℤ pos 1_000 }
    ensures { result ≡ found value number first entries.now }
{
    match entries {
        [] => Info::Contradiction,
        [entry, rest @ ..] => {
            let here = if may_be(number, first) && meets(*entry, value) {
                clipped(i128::from(first), i128::from(first))
            } else {
                Info::Contradiction
            };
            hull(here, found(value, number, first + 1, rest))
        }
    }
}

/// What is known of the number of an entry that has this value in a row.
pub fn index(value: Info, number: Info, entries: &[Info]) -> Info
    requires { length entries.now ≤ 128 }
    ensures { result ≡ index_of value number entries.now }
{
    found(value, number, 1, entries)
}

/// Whether both are known, and the same number.
fn is_known_as(number: Info, this: Info) -> bool
    ensures { result ≡ is_known_as number this }
{
    low_of(number) == high_of(number)
        && low_of(this) == high_of(this)
        && low_of(number) == low_of(this)
}

/// What is known of the entry of this number where the entry of a number has a value.
pub fn entry(number: Info, this: Info, value: Info) -> Info
    ensures { result ≡ entry_of number this value }
{
    if is_known_as(number, this) {
        value
    } else {
        Info::Nothing
    }
}
