//! Refutations: nogoods, and the steps by which one follows from another.
//!
//! A nogood is a list of facts about places with a set of premises. It is met by points, with a
//! side of each choice, that satisfy what the premises say and have all of its facts. Each step
//! tests what it rests on when it is made: where it answers true, whatever meets the nogood that it
//! leaves met the one before (or one of the two that it was made of), and where it answers false or
//! is refused memory, the nogood is as it was. So what is excused of those that meet the first is
//! of those that meet the last, however the steps are chosen, and where nothing is excused the
//! nogood without facts says that nothing satisfies what its premises say.
//!
//! A fact goes for what a call needs (`calls`), for premises (`beliefs`), for the rest of another
//! nogood (`resolving`), for ends and numbers that aren't so (`ends`), for a side of a choice or
//! where every value has it (`choices`). Where a nogood begins stands in `beginnings`.
#![tactic(auto)]

pub mod beginnings;
mod beliefs;
pub mod calls;
pub mod choices;
mod ends;
pub mod nogood;
mod pairs;
pub mod places;
mod resolving;

pub use beginnings::{clashing, excused};
pub use calls::{Called, Claim, says, weaken};
pub use choices::Barred;
pub use nogood::Nogood;
pub use places::kind_at_place;
