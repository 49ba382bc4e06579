//! What values that all differ tell about one more, by Hall's condition.
//!
//! `exclude` is its formula: what all selections of the others say of a value together, where a
//! selection with as many members as its hull has points keeps those points to itself, and one with
//! more is a contradiction. By Hall's theorem it is the narrowest information that holds what
//! different elements of sets, or different numbers of spans, leave (`exclude_is_narrowest`).
//! Others of which nothing is known make no difference (`unknown_says_nothing`). Where all others
//! are spans it looks at their ends alone: no selection says more than all spans from the start of
//! one to the end of another.
//!
//! The rules `Excluder` answer it for one to seven others, in any kind, and for eight among the
//! elements of a domain. They are monotone, keep kinds, and hold each point that differs from
//! different points. Nothing here takes memory.
#![tactic(auto)]

pub mod excluder;
pub mod excluding;
mod hulls;
mod spans;

pub use excluder::{EXCLUDERS, Excluder};
pub use excluding::exclude;
