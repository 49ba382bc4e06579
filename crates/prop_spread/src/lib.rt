//! What follows from what a search supposes, one step at a time.
//!
//! A spread (`Spread`) holds what is believed of each place of a network, with what waits to be
//! looked at. Something is supposed of a place that is open, the one of which least is left for
//! what it weighs; then each step calls an instance that heeds a change, or looks at a nogood that
//! is kept, and says what follows. Where that can't be there is a clash, from which a nogood is
//! learned: the spread keeps it and goes back to where it says something. Where nothing is open
//! any longer, what is believed is a plan (`Proposal`), of which a check of its own (prop_plans)
//! tells whether it satisfies everything.
//!
//! Whatever a step says, nothing is kept but nogoods that were learned, and what is believed at the
//! root stays: what is refuted rests on these alone.
#![tactic(auto)]

mod beginning;
pub mod choosing;
mod gate;
mod heeding;
mod present;
pub mod proposal;
mod recalling;
pub mod spread;
mod wiring;

pub use choosing::First;
pub use proposal::Proposal;
pub use spread::{Lesson, Quiet, Spread};
