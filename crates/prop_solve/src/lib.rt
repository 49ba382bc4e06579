//! A search for points that satisfy a network: what it finds is checked, what it refutes derived.
//!
//! A question (`Question`) asks for some points, for the least or the greatest that a number can
//! be, or for points that differ at named cells. A search (`Solver`) goes on for so many steps at a
//! time and answers a plan, that nothing else fits with the premises on which that rests, or that
//! it is unsettled by then. What it supposes is spread step by step (prop_spread). However it
//! chooses, a plan was looked at by a check of its own (prop_plans), and what it refutes was derived
//! by steps each of which was tested (prop_deriving). What it learned it leaves to later searches
//! (`Earlier`), which take up what still holds.
#![tactic(auto)]

pub mod bound;
pub mod earlier;
pub mod news;
mod pace;
pub mod question;
pub mod solver;

pub use bound::Bound;
pub use earlier::Earlier;
pub use news::{News, Told};
pub use question::{Goal, Question};
pub use solver::{Answer, Plan, Solver, Tally};
