//! Premises by name, sets of them, and which of them are believed.
//!
//! A set of premises is a finite set under `union`, `unite` (in place), `without` and `copy`, and
//! `iter` gives it whole, in order of number (`PremiseSet`). A worldview believes exactly its
//! premises: `of` those of a set, `worldview` the believed ones of the user's and, of each choice,
//! the side that a list takes (`Worldview`).
//!
//! A name is numbered when it first appears and keeps its number. A choice's sides, two to eight,
//! have the next numbers in a row, and are no premises of the user's. `kick` and `bring` change one
//! belief of the user's and nothing else. Want of memory changes nothing (`Premises`).
#![tactic(auto)]

pub mod choice;
mod named;
pub mod premise_set;
pub mod premises;
pub mod shift;
mod table;
pub mod worldview;

pub use choice::Choice;
pub use premise_set::{Premise, PremiseSet};
pub use premises::Premises;
pub use prop_numbers::{Numbers, Signature};
pub use shift::Shift;
pub use worldview::Worldview;
