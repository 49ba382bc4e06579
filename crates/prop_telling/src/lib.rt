//! A layer above a session that tells what happens, how a value came about, and what is there:
//! `step`, `how` and `list`.
//!
//! A `Teller` answers each line as its session does, byte for byte, but for its own. `step` takes
//! one step of a run and tells it: what was called and what its output is then, or which choice
//! moved and why, or that none is left, with the sides that were believed before it. The state
//! stays as it was, and what is told is what was done. `how` tells what makes up the value of a
//! cell, and `list` what is there, by the names that lines declared: a teller notes domains,
//! definitions and uses (`Teller`).
//!
//! `how X` takes no step. It tells the value of a cell as it stands, as `why` would, and of which
//! statements and calls it is made up under these premises alone, each founded on those told behind
//! it. Where so many calls as are made at most don't find them it says `cut`.
#![tactic(auto)]

mod asking;
mod how;
mod listing;
mod posting;
mod telling;

pub use asking::is_apart;
pub use posting::is_without_trace;
pub use telling::Teller;
