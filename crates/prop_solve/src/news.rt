//! What a search does, to be told.

use crate::solver::Solver;
use prop_deriving::sides::Sided;
use prop_lattice::Info;
use prop_refuting::Nogood;
use prop_trail::Source;

/// How far what a search does was told.
#[derive(Clone, Copy, Debug)]
pub struct Told {
    steps: u64,
    learned: u64,
    entries: usize,
    level: usize,
}

/// Something that a search did.
#[derive(Clone, Copy, Debug)]
pub enum News {
    /// More was said of a place, of which this is believed since, by this, where so much was
    /// supposed.
    Said {
        place: usize,
        info: Info,
        by: Source,
        level: usize,
    },
    /// A nogood was learned, with this number where it said something at once, and all was taken
    /// back that was supposed behind so much.
    Learned {
        number: Option<usize>,
        level: usize,
    },
    /// All was taken back that was supposed, to begin again.
    Began,
}

impl Solver {
    /// All that was done so far.
    pub fn all_done(&self) -> Told {
        let trail = self.spread().trail();
        Told {
            steps: self.tally().steps,
            learned: self.tally().learned,
            entries: trail.len(),
            level: trail.level(),
        }
    }

    /// Whether something was done since, and nothing was told of it.
    pub fn is_ahead(&self, told: &Told) -> bool {
        self.tally().steps != told.steps
    }

    /// What is told next, where a step was taken at the most since all was told; and how far all is
    /// told then.
    pub fn news(&self, told: Told) -> (Option<News>, Told) {
        let now = self.all_done();
        if now.learned > told.learned {
            return self.lesson(now);
        }
        if now.entries > told.entries {
            let next = Told {
                entries: told.entries + 1,
                ..now
            };
            return (self.said(told.entries), next);
        }
        let is_back = now.level < told.level;
        (is_back.then_some(News::Began), now)
    }

    /// That a nogood was learned. What it said at once is still to be told.
    fn lesson(&self, now: Told) -> (Option<News>, Told) {
        let level = now.level;
        let last = now.entries.saturating_sub(1);
        let number = match self.said(last) {
            Some(
                News::Said {
                    by: Source::Nogood(number),
                    ..
                },
            ) => Some(number),
            _ => None,
        };
        let entries = if number.is_some() { last } else { now.entries };
        let next = Told { entries, ..now };
        (Some(News::Learned { number, level }), next)
    }

    /// What was said by this entry.
    fn said(&self, at: usize) -> Option<News> {
        let trail = self.spread().trail();
        if at >= trail.len() {
            return None;
        }
        let entry = trail.entry(at);
        Some(News::Said {
            place: entry.place,
            info: entry.is,
            by: entry.by,
            level: entry.level,
        })
    }

    /// The nogood with this number, where it is kept.
    pub fn nogood(&self, number: usize) -> Option<&Nogood> {
        self.spread().nogood(number)
    }

    /// The statement under a side with this number.
    pub fn sided(&self, number: usize) -> Option<Sided> {
        self.spread().sided(number)
    }
}
