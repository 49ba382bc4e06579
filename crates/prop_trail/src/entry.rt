//! What is said of a place, and what came of it.

use prop_facts::Changes;
use prop_lattice::Info;

/// Who said something of a place.
#[derive(Clone, Copy, Debug, PartialEq, Eq)]
pub enum Source {
    /// It was decided.
    Decision,
    /// The instance with this number, as it was called.
    Call(usize),
    /// The nogood with this number.
    Nogood(usize),
    /// A side of a choice that was taken, by the number of its statement.
    Side(usize),
}

/// What was said of a place, and changed what is believed of it.
#[derive(Clone, Copy, Debug)]
pub struct Entry {
    /// The place.
    pub place: usize,
    /// The place's entry before this one.
    pub before: Option<usize>,
    /// What was believed of it before.
    pub was: Info,
    /// What is believed of it since.
    pub is: Info,
    /// What was said of it; nothing where a number was ruled out.
    pub said: Info,
    /// The number that was ruled out.
    pub out: Option<i64>,
    /// Who said so.
    pub by: Source,
    /// The level at which it was said.
    pub level: usize,
}

/// What came of something that was said.
#[derive(Clone, Copy, Debug, PartialEq, Eq)]
pub enum Outcome {
    /// Nothing: it was believed before, or can't be kept.
    Same,
    /// More is believed of the place, in these ways.
    Changed(Changes),
    /// No value would be left. Nothing has changed.
    Clash,
}
