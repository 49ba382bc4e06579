//! After how many contradictions a search begins again.

/// How many contradictions the shortest run takes.
const RUN: u64 = 64;

/// Runs whose lengths are `RUN` times the numbers 1, 1, 2, 1, 1, 2, 4, 1, .. (Luby, Sinclair and
/// Zuckerman 1993), by Knuth's reluctant doubling.
#[derive(Clone, Copy, Debug)]
pub(crate) struct Pace {
    turns: u64,
    length: u64,
    left: u64,
}

impl Pace {
    pub(crate) fn new() -> Pace {
        Pace {
            turns: 1,
            length: 1,
            left: RUN,
        }
    }

    /// One more contradiction.
    pub(crate) fn fail(&mut self) {
        self.left = self.left.saturating_sub(1);
    }

    /// Whether the run is over.
    pub(crate) fn is_over(&self) -> bool {
        self.left == 0
    }

    /// The next run begins.
    pub(crate) fn begin(&mut self) {
        if self.turns & self.turns.wrapping_neg() == self.length {
            self.turns = self.turns.wrapping_add(1);
            self.length = 1;
        } else {
            self.length = self.length.saturating_mul(2);
        }
        self.left = RUN.saturating_mul(self.length);
    }
}
