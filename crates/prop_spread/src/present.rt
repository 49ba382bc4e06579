//! What a trail believes now, laid out so that much of it is read quickly.

use prop_deriving::Course;
use prop_lattice::Info;
use prop_trail::Trail;
use std::alloc::{AllocError, Global};

/// How many places a word tells of.
const WORD: usize = 64;

/// What is believed of each place, which places are open, the entries of each place, what was
/// believed of each when last none was open, and what each was decided to be since then, or since
/// the search began again.
#[derive(Drop)]
pub(crate) struct Present {
    infos: Vec<Info>,
    /// A bit for each place, which is set where several values are left.
    open: Vec<u64>,
    course: Course,
    kept: Vec<Info>,
    decided: Vec<Info>,
}

/// Whether several bits are set. (That is quicker than to count them.)
fn has_several(bits: u64) -> bool {
    bits & bits.wrapping_sub(1) != 0
}

/// Whether something is known, and several values are left.
fn is_open(info: Info) -> bool {
    match info {
        Info::Span(span) => span.lo() < span.hi(),
        Info::Set(elements) => has_several(elements.bits()),
        _ => false,
    }
}

/// Whether a single value is left.
pub(crate) fn is_decided(info: Info) -> bool {
    match info {
        Info::Span(span) => span.lo() == span.hi(),
        Info::Set(elements) => !has_several(elements.bits()),
        _ => false,
    }
}

impl Present {
    /// This is believed of each place, this much of it by no premise, and nothing was said yet.
    pub(crate) fn new(
        alloc: Global,
        beliefs: &[Info],
        given: Vec<Info>,
    ) -> Result<Present, AllocError> {
        let mut present = Present {
            infos: Vec::from_slice(alloc, beliefs)?,
            open: vec![in alloc; 0; beliefs.len() / WORD + 1]?,
            course: Course::new(alloc, given)?,
            kept: Vec::from_slice(alloc, beliefs)?,
            decided: Vec::from_slice(alloc, beliefs)?,
        };
        for (place, info) in beliefs.iter().enumerate() {
            present.set(place, *info);
        }
        Ok(present)
    }

    /// The entries of each place.
    pub(crate) fn course(&self) -> &Course {
        &self.course
    }

    /// What is believed of a place; nothing where there is no such place.
    pub(crate) fn info(&self, place: usize) -> Info {
        match self.infos.get(place) {
            Some(info) => *info,
            None => Info::Nothing,
        }
    }

    /// Whether several values are left of a place of which something is known.
    pub(crate) fn is_open(&self, place: usize) -> bool {
        self.open_among(place / WORD) >> (place % WORD) & 1 == 1
    }

    /// The bits of the open ones among 64 places, none behind the last.
    pub(crate) fn open_among(&self, word: usize) -> u64 {
        match self.open.get(word) {
            Some(bits) => *bits,
            None => 0,
        }
    }

    /// What was believed of a place when last no place was open, or at the root where none was yet;
    /// nothing where there is no such place.
    pub(crate) fn kept(&self, place: usize) -> Info {
        match self.kept.get(place) {
            Some(info) => *info,
            None => Info::Nothing,
        }
    }

    /// Keeps what is believed, where no place is open.
    pub(crate) fn keep(&mut self) {
        if !self.open.iter().all(|bits| *bits == 0) {
            return;
        }
        for place in 0..self.kept.len() {
            self.kept[place] = self.info(place);
        }
        self.forget_decided();
    }

    /// These count as what was believed of the first places when last none was open.
    pub(crate) fn expect(&mut self, values: &[Info]) {
        for (place, value) in values.iter().enumerate() {
            if place < self.kept.len() {
                self.kept[place] = *value;
            }
        }
        self.forget_decided();
    }

    /// The element that a place was last decided to be since the search began again; what was kept
    /// of it where there was none, and nothing where there is no such place.
    pub(crate) fn decided(&self, place: usize) -> Info {
        match self.decided.get(place) {
            Some(info) => *info,
            None => Info::Nothing,
        }
    }

    /// What was kept counts as what was decided last.
    pub(crate) fn forget_decided(&mut self) {
        for (decided, kept) in self.decided.iter_mut().zip(&self.kept) {
            *decided = *kept;
        }
    }

    /// What is taken back of a place is what it was decided to be last, where one element was left.
    fn remember(&mut self, place: usize, info: Info) {
        if matches!(info, Info::Set(_)) && is_decided(info) && place < self.decided.len() {
            self.decided[place] = info;
        }
    }

    /// How many times 64 places there are.
    pub(crate) fn words(&self) -> usize {
        self.open.len()
    }

    /// The newest entry changed what is believed of its place.
    pub(crate) fn follow(&mut self, trail: &Trail) -> Result<(), AllocError> {
        if trail.is_empty() {
            return Ok(());
        }
        let at = trail.len() - 1;
        let entry = trail.entry(at);
        self.set(entry.place, entry.is);
        self.course.push(entry.place, at)
    }

    /// All is as it was before the levels above this one.
    pub(crate) fn take_back(&mut self, trail: &Trail, level: usize) {
        if level >= trail.level() {
            return;
        }
        let start = trail.start_of(level + 1);
        for back in start..trail.len() {
            // (the newest first)
            let at = trail.len() - 1 - (back - start);
            let entry = trail.entry(at);
            self.remember(entry.place, entry.is);
            self.set(entry.place, entry.was);
            self.course.pop(entry.place);
        }
    }

    /// This is believed of a place.
    fn set(&mut self, place: usize, info: Info) {
        if place >= self.infos.len() || place / WORD >= self.open.len() {
            return;
        }
        self.infos[place] = info;
        let bit = 1 << (place % WORD);
        if is_open(info) {
            self.open[place / WORD] |= bit;
        } else {
            self.open[place / WORD] &= !bit;
        }
    }
}
