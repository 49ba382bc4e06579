//! Values with the premises that they rest on.
//!
//! For every order of information and in every worldview at once: an added value is merged with the
//! belief where its support is believed, and changes no other belief. No entry subsumes another,
//! and no two rest on the same premises. `Same` is answered exactly for no information and for what
//! an entry subsumes. After refused memory nothing has changed (`Tms::add`).
//!
//! The believed value is the least above those of the believed entries. The strongest one comes
//! with premises that are believed, enough by themselves, of entries none of which can be left out,
//! and no more of them than an entry has that says as much alone (`believed_value`, `strongest`,
//! `sole_support`).
//!
//! A trim leaves what the worldview believes, and what rests on nothing or on one told premise
//! alone; a purge just the entries that don't hold the premise (`trim`, `purge`).
#![tactic(auto)]

mod few;
mod gain;
mod gains;
mod purging;
mod shifting;
mod strongest;
pub mod supported;
pub mod tms;
mod trimming;
mod values;

pub use supported::Supported;
pub use tms::{Change, Tms};
