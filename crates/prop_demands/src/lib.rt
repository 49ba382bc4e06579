//! What a constraint becomes in a session, and that this demands what it says.
//!
//! `understood` makes of an expression that may hold or not what a session may post (prop_meaning):
//! fresh cells, instances and constants, and that the result's cell is told to be `yes`.
//! `what_is_posted_is_demanded` is the law: points of the cells that were there satisfy what is
//! there then, with some points of the fresh ones, just where they satisfied what was there and the
//! expression holds: under a premise, where that is believed. `foreseen` tells what is known of an
//! expression's value before anything is posted (`IsKnownIn`).
//!
//! The procedures are to begin with the kit's and the wider ones (`specs/inner/Palettes.antt`).
#![tactic(auto)]

mod fitting;
mod forms;
mod known;
pub mod laws;
mod posting;
mod reading;
pub mod understanding;

pub use understanding::{foreseen, understood};
