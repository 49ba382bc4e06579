//! The vocabulary of a session: its domains, relations and symbols by name, what a value says at a
//! cell, and the text of one.
//!
//! Each kind of name has a numbered space of its own. A declared relation has just the pairs that
//! the line names; a symbol keeps the number of its first appearance, and can be taken back; the
//! text of a value names just its elements, in the order of the domain.
//!
//! A declaration makes one thing, or is refused by the first condition and changes nothing. Want of
//! memory is said only where no condition holds, and never of a known symbol (`Vocabulary`,
//! `Names`, `CellNames`).
//!
//! A value on a line says a number or those between two, a set of elements of the cell's domain, or
//! a symbol's name; else it is refused by the first condition (`read_value`). It takes no memory.
#![tactic(auto)]

pub mod cells;
mod crowd;
pub mod domains;
mod growth;
pub mod names;
mod numbered;
mod pairs;
pub mod relations;
mod sorted;
pub mod symbols;
pub mod texts;
pub mod values;
pub mod vocabulary;

pub use cells::CellNames;
pub use names::Names;
pub use values::{Meant, read_value};
pub use vocabulary::Vocabulary;
