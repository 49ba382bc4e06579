//! What tasks take of a resource for sure, and where they leave room.
//!
//! A task is three informations in turn: its start, its length and its demand. From its latest
//! start up to its earliest end it surely runs.
ghost use Rattle.std.specs.Prelude.{◌≡◌, ◌≤ℤ◌, ◌*◌, pos, neg_ℤ, length};
ghost use Rattle.prop_lattice.specs.declared.span.TheConstants.{B};
ghost use Rattle.prop_many.specs.Loads.{demand_of, end_of, is_free, keeps_room, load_of, taken_of};

use prop_lattice::Info;
use prop_wide::ends::{high_of, low_of};

/// The earliest end of a task.
pub(crate) fn end_of(start: Info, length: Info) -> i64
    ensures { result ≡ end_of start length }
{
    low_of(start) + low_of(length)
}

/// The least that a task demands, which is never below zero.
pub(crate) fn demand_of(demand: Info) -> i64
    ensures value { result ≡ demand_of demand }
    ensures least { pos 0 ≤ℤ result }
    ensures most { result ≤ℤ B }
{
    low_of(demand).max(0)
}

/// What a task takes at a time for sure.
fn taken(start: Info, length: Info, demand: Info, time: i64) -> i128
    ensures value { result ≡ taken_of start length demand time }
    ensures least { pos 0 ≤ℤ result }
    ensures most { result ≤ℤ B }
{
    if high_of(start) <= time && time < end_of(start, length) {
        i128::from(demand_of(demand))
    } else {
        0
    }
}

/// What the tasks take at a time for sure.
pub(crate) fn load(tasks: &[Info], time: i64) -> i128
    ensures value { result ≡ load_of tasks.now time }
    ensures least { pos 0 ≤ℤ result }
    ensures most { result ≤ℤ pos (1_000_000_000_000_000_000 * length tasks.now) }
{
    match tasks {
        [start, length, demand, tasks @ ..] => {
            taken(*start, *length, *demand, time) + load(tasks, time)
        }
        _ => 0,
    }
}

/// Whether a time is no time between two others, or the tasks leave room for so much at it.
fn is_free(tasks: &[Info], room: i128, from: i64, to: i128, time: i64) -> bool
    ensures { result ≡ is_free tasks.now room from to time }
{
    time <= from || to <= i128::from(time) || load(tasks, time) <= room
}

/// Whether the tasks take no more than `room` wherever one of `starting` starts between two times.
pub(crate) fn keeps_room(tasks: &[Info], starting: &[Info], room: i128, from: i64, to: i128) -> bool
    ensures { result ≡ keeps_room tasks.now starting.now room from to }
{
    match starting {
        [start, _, _, starting @ ..] => {
            let leaves_room = is_free(tasks, room, from, to, high_of(*start));
            leaves_room && keeps_room(tasks, starting, room, from, to)
        }
        _ => true,
    }
}
