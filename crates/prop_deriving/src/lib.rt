//! Derivations: what a contradiction of a search rests on.
//!
//! A derivation (`Learning`) begins with facts that can't all be so: two facts about a place where
//! something was said that can't be (`Clash`), a nogood all of which is so, what is believed of a
//! cell at the root, or an end of a number where nothing is supposed. Step by step the fact that
//! came to be so last goes for what it rests on, by who said it on the trail: a call, a nogood that
//! is kept, a side of a choice (`Sides`); and what was so at the root goes for premises. It ends
//! where one fact alone is of the last level, or where no fact is left: then nothing satisfies what
//! the premises say.
//!
//! Whatever is read from the trail, the nogood of a derivation stays known: it rests on premises of
//! the root alone, and whatever meets it is excused, where that holds of the nogoods that are kept.
#![tactic(auto)]

mod bits;
pub mod clash;
pub mod course;
mod derivation;
pub mod ground;
pub mod learning;
mod reading;
mod reason;
pub mod sides;

pub use clash::Clash;
pub use course::Course;
pub use ground::Ground;
pub use learning::{Learning, State};
pub use sides::{Sided, Sides};
