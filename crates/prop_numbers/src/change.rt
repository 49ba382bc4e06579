//! What changes from one set of numbers to another.
ghost use Rattle.std.specs.Prelude.{◌<◌};

/// Which numbers may be in just one of two sets: those whose bits two words in a row have, and
/// where `rest` says so all others.
#[derive(Clone, Copy)]
pub struct Change {
    /// The number of the first of the two words.
    pub place: usize,
    pub first: u64,
    pub second: u64,
    pub rest: bool,
    pub ghost bound: { place < 1_024 },
}

impl Change {
    ghost use Rattle.std.specs.Prelude.{◌≡◌, false};

    /// No number is in just one of them.
    pub fn none() -> Change
        ensures rest { result.rest ≡ false }
    {
        Change {
            place: 0,
            first: 0,
            second: 0,
            rest: false,
        }
    }
}
