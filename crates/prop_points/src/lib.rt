//! What a plan in points proves: where each cell of a solution leaves a single point, these points
//! lie in all that is stated, and belong together at each instance whose rule tells (`laws`).
#![tactic(auto)]

pub mod laws;
