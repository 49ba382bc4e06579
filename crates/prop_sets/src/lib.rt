//! Domains, relations between them, and the functions of truth.
//!
//! A domain is a list of 1 to 64 names without repeats; an element's number and its name tell each
//! other (`Domain`, `has_repeat`).
//!
//! A relation is a set of pairs, and equal sets are equal relations; image and coimage are the
//! narrowest sets that hold each partner, and monotone (`Rows`, and `Relation`, which is held once
//! however many own it).
//!
//! `and`, `or` and `not` on truths of which little or nothing is known, and what is left without an
//! element, are monotone and hold each truth and element that fits (`and3`, `and_back`, `or3`,
//! `or_back`, `not2`, `without`). None but `new` and `has_repeat` takes memory.
#![tactic(auto)]

pub mod domain;
pub mod relation;
pub mod removal;
pub mod rows;
pub mod side;
pub mod truth;
mod words;

pub use domain::Domain;
pub use relation::Relation;
pub use removal::without;
pub use rows::Rows;
pub use side::Side;
pub use truth::{and_back, and3, not2, or_back, or3};
