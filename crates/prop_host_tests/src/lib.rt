//! A host's own rule beside the kit's, made into procedures, called, and used in a session.
//!
//! What a session over the kit's twenty rules and a host's own answers is a run of the machine over
//! their procedures (`replies`), whose answers hold the points that belong together
//! (`answers_hold_points`).
//!
//! It has the tests in Rattle too: of these, and of sessions over a host's devices.
#![tactic(auto)]

pub mod calling;
pub mod host;
pub mod session;

pub use calling::larger;
pub use host::Host;
pub use session::{answers_hold_points, replies};

#[cfg(test)]
mod devices;
#[cfg(test)]
mod tests;
