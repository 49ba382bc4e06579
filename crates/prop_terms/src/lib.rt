//! Expressions: what they are, how they are written, and what they mean.
//!
//! A text is read as a term just where its tokens write that term and each operator stands between
//! what it takes, and is refused else (`read`). Each text has one reading, and each term a writing
//! (`texts_have_one_reading`, `terms_can_be_written`). A text that is printed writes its term
//! (`print`). What a term is worth is one definition, `worth` of specs/Meaning.antt, of which laws
//! are proved (`quotients_are_rounded_down`, `truths_have_values`).
#![tactic(auto)]

mod forming;
mod frames;
pub mod meaning;
pub mod operators;
mod pieces;
pub mod printing;
pub mod reading;
pub mod term;
mod tokens;

pub use forming::Sort;
pub use meaning::{quotients_are_rounded_down, truths_have_values};
pub use operators::{Infix, Prefix};
pub use printing::print;
pub use reading::{Fault, MOST_BYTES, read, terms_can_be_written, texts_have_one_reading};
pub use term::Term;
