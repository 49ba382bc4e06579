//! Arithmetic on spans of whole numbers.
//!
//! Each function is its formula, cut off at 10^18. Sums, differences, products and squares that
//! need no cutting off, roots, and spans without a number are the narrowest that hold each number
//! that belongs there. Scales lie from 1 to 10^9. None takes memory (`add`, `sub`, `mul`, `div`,
//! `square`, `root`, `less`, `below`, `above`, `without`, `clipped`).
#![tactic(auto)]

pub mod clipping;
pub mod comparisons;
pub mod products;
pub mod quotients;
pub mod removal;
pub mod roots;
pub mod sums;
mod wide;
mod zero;

pub use clipping::clipped;
pub use comparisons::{above, below, less};
pub use products::{mul, square};
pub use quotients::div;
pub use removal::without;
pub use roots::root;
pub use sums::{add, sub};
