//! What cells hold: informations with the premises that they rest on.
//!
//! `Entries` has the entries of each cell. An added entry stands at its cell, without those that it
//! subsumes, and where memory is refused nothing changes; a purge leaves just the entries that
//! don't rest on the premise. `next_shifted` finds the first cell of which two worldviews believe
//! different things, and passes over many at once on whose premises they agree.
//!
//! What is believed of a cell is worked out where it isn't known, and known from then on where
//! there is room (`Known`, `known_belief`, `gather`). A support is that of believed entries that
//! say together what is believed, none of which can be left out (`strongest_of`, `supports`).
#![tactic(auto)]

mod bearing;
pub mod contents;
mod dropping;
pub mod entries;
pub mod known;

pub use entries::Entries;
pub use known::Known;
