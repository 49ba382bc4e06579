//! What makes up a value.
//!
//! Where premises entail so much of a cell, it is made up of parts: statements under these premises
//! or under none, and calls of instances. The part that completes the value stands first. Each part
//! says what its statement says, or what its instance's rule answers on what the parts behind it
//! say of the inputs; it says more of its cell than they do, and rests on what they rest on. So
//! nothing supports itself: the last part is a statement, or a call that needs no input to be
//! known. All parts together say as much of the cell as was asked for, and each is at that cell or
//! at one that a part before it reads. They are found wherever the budget of calls is no less than
//! the most steps of a run (`origins`).
//!
//! The network is only read.
#![tactic(auto)]

mod line;
mod log;
pub mod making;
pub mod part;
mod pruning;

pub use making::{Composition, origins};
pub use part::{Origin, Part};
