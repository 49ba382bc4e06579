//! What a search may know of a rule without calling it.
//!
//! A rule that is guarded tells at a glance that a call says nothing (`says_nothing`) or just what
//! one of its arguments says (`repeats`), and which number an argument rules out of the output,
//! though it may lie between the ends that the answer leaves (`rules_out`). Each is proved of the
//! rule's value. Which changes are worth a call (`heeds`) and which calls are dear (`is_dear`) are
//! hints (`Guarded`).
//!
//! The rules of the kit, those beside it and those of excluding are guarded, and so is a rule made
//! of two such. Of stored procedures the same is told (`procedures`).
#![tactic(auto)]

mod both;
mod excluder;
pub mod guarded;
mod kit;
mod known;
pub mod procedures;
mod wide;

pub use guarded::Guarded;
