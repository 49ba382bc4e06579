//! Lessons: what a search learned of a network, kept for searches of what the network becomes.
//!
//! A nogood that nothing meets says something of a network, of what is stated there and of the
//! choices. Lessons are such nogoods, together with the network and the choices as they were
//! (`Past`). Once the network has changed, the lessons are asked which of them still hold
//! (`Lessons::recall`). That is told by a comparison of what was with what is there, whatever
//! happened in between: cells, instances and choices may have come behind those that were, and
//! statements may have come or gone. A nogood is left out where a premise of it lost a statement or
//! is not believed any more, or where a place that it speaks of may be another one. None is
//! recalled where a cell, an instance or a choice is not as it was, or where a statement is gone
//! that was under no premise or under a side of a choice.
//!
//! What satisfies all that is there then satisfies all that was there under the nogood's premises.
//! So where nothing met the nogood, nothing meets it now.
#![tactic(auto)]

mod instance;
pub mod lessons;
mod params;
pub mod past;
mod same;
mod standing;

pub use lessons::Lessons;
pub use past::Past;
