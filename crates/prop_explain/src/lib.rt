//! Explanations of which no premise can be left out.
//!
//! Over a network at rest in a worldview: the value is what is believed of the cell; its premises
//! are believed, entail it by themselves, and each reaches the cell. `Least`: none of them can be
//! left out. `NotReduced`: the whole budget is used, which is below the most steps for each
//! believed premise. Each step is a call in the worldview of a set that is tried, and no set is
//! tried twice. Afterwards every instance waits and nothing but what cells hold has changed, also
//! where memory was refused (`reduce`).
#![tactic(auto)]

pub mod reducing;

pub use reducing::{Core, reduce};
