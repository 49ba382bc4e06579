//! Nogoods: sets of premises that can't all be believed.
//!
//! After `add` the set has a listed part, each set that had one keeps one, nothing else is listed,
//! and no listed set is part of another. They stand in order of size, those of one size in that of
//! adding. Where the set had a listed part, `add` takes no memory and changes nothing.
//!
//! `blocks` answers the smallest listed set of which every premise is believed, and none only where
//! there is none; `blocks_from` one that ends early; `iter` gives them all; `purge` drops just
//! those that hold a premise (`Store`, `Nogoods`).
#![tactic(auto)]

mod counted;
mod ending;
mod listed;
pub mod nogoods;
pub mod store;

pub use nogoods::Nogoods;
pub use store::Store;
