//! Checks plans: a value for each cell of a network, which some search proposes.
//!
//! Each value has to leave a single point of its cell's kind, and to imply what is stated of the
//! cell by what is believed or by nothing; each instance is called once on its inputs' values, and
//! what it answers has to be implied by its output's value. Where all of this is so, and nowhere
//! else, a check says yes. Then the points satisfy all that is stated, and each procedure holds the
//! points of its cells: no bug of the search can show a wrong plan (`Check::go_on`,
//! `laws::plans_satisfy`).
//!
//! A check takes no memory and only reads the network. It stops where its steps are used up, and
//! goes on at the next call.
#![tactic(auto)]

pub mod check;
pub mod laws;
mod looking;

pub use check::{Check, Progress, Verdict};
