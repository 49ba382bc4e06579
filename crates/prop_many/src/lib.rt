//! Rules of many cells: what tasks leave to one more that shares a resource with them, and numbers
//! to one more that differs from all of them, nodes that are one circuit, and tasks that pause.
//!
//! Each of the rules is its plain function, which is its formula; it is monotone, keeps kinds and
//! holds every related point (`Many`), and of single numbers those alone (`Many::exact`). Lengths,
//! demands and capacities are inputs as all others are, so they may be open too.
//!
//! The procedures are those that the specification lists, up to 384 inputs each, in a form that its
//! rule has (`procedures_are_stated`).
#![tactic(auto)]

pub mod circuit;
pub mod cumulative;
pub mod differ;
pub mod disjoint;
mod guards;
pub mod loads;
pub mod many;
pub mod pausing;
pub mod prelude;
pub mod procedures;

pub use circuit::successor_around;
pub use cumulative::start_beside;
pub use differ::{ends_are_free, number_beside};
pub use disjoint::start_apart;
pub use many::Many;
pub use pausing::{end_with_pauses, start_with_pauses};
pub use prelude::{PRELUDE, prelude_is_stated};
pub use procedures::{
    CIRCUITS, PROCEDURES, TASKS, circuits_are_stated, procedures_are_stated, tasks_are_stated,
};
