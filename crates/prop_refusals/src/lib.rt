//! Why lines are refused, and of what there can be only so many.
//!
//! Each refusal has its number, text and reply, and no two have one number (`Refusal`).
#![tactic(auto)]

pub mod refusal;

pub use refusal::{Limit, MOST_SCALE, Refusal};
