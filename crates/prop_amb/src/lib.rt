//! The search for the first consistent list of choices.
//!
//! What a search has learned holds: its nogoods are nogoods, and for each side that a choice left
//! it keeps a refuted, grounded and covered reason, so each list before the one on which the
//! choices stand is refuted. Cells, statements, instances, names and choices that are added take
//! nothing from it; a kick of what was believed, and each `forget`, put every choice on its first
//! side and forget the reasons; what was taken up last is taken back exactly (`Search`).
//!
//! A believed nogood gives a reason against one choice's side, or premises that are ruled out
//! (`resolve`); the choice then moves on (`advance`). Of the choices those below a level are
//! believed; one more is where nothing waits (`deepen`).
//!
//! `settle` keeps all of that, also where memory is refused. `Settled`: the list is the first
//! consistent one, with the least solution, and nothing waits. `Contradiction`: its premises are
//! ruled out, and culprits of a noted nogood that is believed. `Unsettled`: the whole budget is
//! used, budget + 1 is below lists * (most steps + 1), and one more step could be taken. Each step
//! is a call where no noted nogood is believed and no cell holds a contradiction, or a choice goes
//! on for a noted nogood that is believed, or would be with its side (a skip: its next side is
//! believed unless that may be passed over too). `step_once` takes one of these and tells which.
#![tactic(auto)]

pub mod believing;
mod joining;
pub mod laws;
mod levels;
mod lists;
pub mod naming;
pub mod outcome;
pub mod reasons;
pub mod resolving;
pub mod search;
pub mod settling;
pub mod stepping;
pub mod unlearning;

pub use laws::additions_keep_searches;
pub use outcome::Outcome;
pub use resolving::Resolved;
pub use search::Search;
pub use settling::settle;
pub use stepping::{Move, Step, step_once};
