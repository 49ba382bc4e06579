//! Facts: what may be said of the value of one place, so that it can be denied.
//!
//! A place is a cell, or a choice, whose value is the side that is taken. A fact is an end of a
//! number, the number itself, one that it isn't, some elements, or a symbol (`Fact`). Whether an
//! information says it or bars it is told exactly (`follows_from`, `is_barred_by`), `negation` is
//! what is left where it isn't so, `narrow` what is left of an information where it is, and `parts`
//! are the facts that say together what an information says. `Changes` tells in which way one
//! information grew into another.
#![tactic(auto)]

pub mod changes;
pub mod fact;

pub use changes::Changes;
pub use fact::{Fact, Literal, Parts, widest};
