//! A layer above a blamer that takes constraints and definitions as one writes them: `require` and
//! `let`.
//!
//! A `Requirer` carries out each line as its blamer does, but for `require EXPR`,
//! `require EXPR under P` and `let X = EXPR`. The first two make cells and instances so that points
//! of the cells that were there satisfy what is there then, for some points of the new ones, just
//! where they satisfied it before and what EXPR says: under P where P is believed
//! (`specs/Requiring.antt`, prop_demands). The last declares a cell X, of the kind of EXPR, and has
//! `X == EXPR` hold.
//!
//! `run` is a program's session with a requirer around it, whose procedures have the rules that
//! expressions are made of (`IsPalette` of prop_demands).
#![tactic(auto)]

mod asking;
mod defining;
mod domains;
mod interpreting;
mod requirer;
mod running;

pub use requirer::Requirer;
pub use running::run;
