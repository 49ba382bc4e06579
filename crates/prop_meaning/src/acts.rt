//! Instances of rules between cells.

use prop_arith::Kit;
use prop_wide::Wide;

/// A rule of which a program has procedures.
#[derive(Clone, Copy)]
pub enum Rule {
    /// One of the kit.
    OfKit(Kit),
    /// A wider one.
    OfWide(Wide),
}

/// The places of an instance's inputs.
#[derive(Clone, Copy)]
pub enum Inputs {
    One(usize),
    Two(usize, usize),
    Three(usize, usize, usize),
}

/// An instance of a rule, by the places of its cells. One that takes a scale has the scale 1.
#[derive(Clone, Copy)]
pub struct Act {
    pub rule: Rule,
    pub inputs: Inputs,
    pub output: usize,
}
