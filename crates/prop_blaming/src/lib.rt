//! A layer above a seeker that answers what can't all hold: `conflicts` and `repairs`.
//!
//! A `Blamer` carries out each line as its seeker does, but for these questions. `conflicts N` asks
//! for up to N minimal sets of believed premises that no points satisfy, `repairs N` for up to N
//! minimal sets to give up so that points satisfy the rest, and `repairs N by P 5 Q 2` for the
//! cheapest of them, by what premises cost. All are found by one search
//! (prop_conflicts), which takes as many steps as a line may; the next such question goes on where
//! it was, as long as no line changed anything between. What is replied is so (`specs/Blame.antt`).
//!
//! `run` is a program's session with a blamer around it.
#![tactic(auto)]

mod asking;
mod blamer;
mod interpreting;
mod posting;
mod reading;
mod running;
mod texts;
mod weighing;

pub use blamer::Blamer;
pub use running::run;
