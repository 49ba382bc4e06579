//! What a term becomes in a network: fresh cells, constants, and instances of rules.
//!
//! `post` is proved to say the same as the term (`SaysSame`): whatever fitting points the given
//! cells have, there are points of the fresh ones that solve it, and wherever it is solved the cell
//! of the result is `yes` just where the term holds. `compute` is the same of a value of any kind.
//! `flat` makes the instances those of a program's procedures. `foresee` tells what is known of a
//! term's value before anything is posted (`IsForeseen`).
//!
//! Each fresh cell is made of cells before it, and what is made of the same is one cell. Refused
//! are a part whose value may lie beyond 10^18, a division by what may be zero (`Why::MayBeZero`),
//! and what a table may have no row for (`Why::MayBeMissing`).
#![tactic(auto)]

pub mod acts;
mod braces;
mod combining;
mod constants;
mod dividing;
mod draft;
mod expanding;
pub mod fault;
pub mod foreseeing;
mod gathering;
pub mod kinds;
pub mod known;
mod making;
pub mod palette;
pub mod posting;
mod powers;
mod relating;
mod spans;
mod steps;
mod tables;
mod translating;
pub mod words;

pub use acts::{Act, Inputs, Rule};
pub use fault::{Fault, Why};
pub use foreseeing::{Foreseen, foresee};
pub use kinds::kind_of_term;
pub use known::Known;
pub use palette::{Palette, flat};
pub use posting::{Posted, compute, post};
pub use words::Words;
