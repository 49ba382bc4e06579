//! Which sets of premises have something of each of some sets, and all of none of others.
//!
//! Where each conflict is hit by what is given up, the rest may hold together; where all of a
//! repair is given up, it does. A `Frontier` goes through the sets that hit all conflicts, and
//! gives one of which each premise is needed, or says that each of them has all of a repair.
//! Conflicts and repairs may be added between its steps.
#![tactic(auto)]

pub mod conflict;
pub mod frontier;
pub mod listing;
mod node;
pub mod price;

pub use conflict::{Conflict, missed};
pub use frontier::{Frontier, Step};
pub use listing::{Listed, cheapest};
pub use price::cost;
