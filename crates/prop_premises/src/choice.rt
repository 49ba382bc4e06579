//! A choice, by the numbers of its sides.

use crate::premise_set::Premise;

/// A choice: the number of its first side, which those of the others follow, and how many sides it
/// has, two to eight.
#[derive(Clone, Copy, Debug, PartialEq, Eq)]
pub struct Choice {
    pub first: Premise,
    pub sides: u8,
}
