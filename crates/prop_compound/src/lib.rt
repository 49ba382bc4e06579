//! What a name that is put between cells stands for: definitions, and the procedures that they come
//! down to. With them it hands on the language that they are written in.
//!
//! A definition is resolved when it is made, and refused by the first condition
//! (`Definitions::define`). What a use of a name stands for is its expansion, recursively on the
//! definitions before it, its fresh cells in the order of the walk; it is refused by the first
//! condition, for its size before anything is made (`expand`). A use equals its flat list put in
//! place (`uses_are_put_in_place`). A word says the kind of its domain (`kind_named`).
#![tactic(auto)]

mod counting;
pub mod defining;
pub mod definition;
pub mod definitions;
mod expanding;
mod fitting;
mod kinds;
mod resolving;
mod scope;
mod shortening;
pub mod uses;
mod walk;

pub use definitions::Definitions;
pub use kinds::kind_named;
pub use prop_language::{
    By, Command, KindWord, Passed, Step, Value, lines_have_one_reading, number_in, read_line,
};
pub use prop_procedures::{Flat, Placed};
