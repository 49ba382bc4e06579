//! Which of the believed premises can't all hold, and what has to be given up of them.
//!
//! A conflict is a least set of believed premises that no points satisfy; a repair is a least set
//! to give up so that points satisfy the rest. An `Explorer` looks for both: it tries what is left
//! without a set that hits all conflicts that it knows (prop_hitting). Where that fits, the set is
//! a repair. Where it is refuted, the refuted premises are made fewer until without any one of them
//! the others fit. Each trial is a search of prop_solve, over the session's premises with fewer of
//! them believed. It goes on for so many steps at a time, and says when there are no others.
#![tactic(auto)]

mod again;
pub mod explorer;
mod shrinking;
mod trial;

pub use explorer::{Explorer, Wanted};
