//! The entries of a trail, place by place, so that one is found without a look at all.

use prop_facts::{Fact, Literal};
use prop_lattice::Info;
use prop_trail::Trail;
use std::alloc::{AllocError, Global};

/// More halvings than it takes to find one of any row.
const HALVINGS: usize = 64;

/// So many entries are looked at from the end of a row before it is halved.
const AT_THE_END: usize = 2;

/// For each place its entries, in order, and what its values have by no premise.
#[derive(Drop)]
pub struct Course {
    rows: Vec<Vec<usize>>,
    given: Vec<Info>,
}

/// Where a row of entries is parted in two.
#[derive(Clone, Copy)]
enum Mark<'a> {
    /// Before this entry.
    Entry(usize),
    /// Before the first since which the fact is so on the trail.
    Fact(&'a Trail, Fact),
}

/// Whether the fact followed from what was believed since an entry.
fn says(trail: &Trail, fact: Fact, entry: usize) -> bool {
    entry < trail.len() && fact.follows_from(trail.entry(entry).is)
}

impl Mark<'_> {
    /// Whether an entry stands in the first part.
    fn is_behind(self, entry: usize) -> bool {
        match self {
            Mark::Entry(before) => entry < before,
            Mark::Fact(trail, fact) => !says(trail, fact, entry),
        }
    }
}

/// How many entries of a row stand in the first part.
fn count_first(row: &[usize], mark: Mark<'_>) -> usize {
    let mut high = row.len();
    // (that part mostly ends with one of the last)
    for entry in row.iter().rev().take(AT_THE_END) {
        if mark.is_behind(*entry) {
            return high;
        }
        high = high.saturating_sub(1);
    }
    let mut low = 0;
    for _ in 0..HALVINGS {
        if low >= high {
            break;
        }
        let middle = low + (high - low) / 2;
        match row.get(middle) {
            Some(entry) if mark.is_behind(*entry) => low = middle + 1,
            _ => high = middle,
        }
    }
    low
}

impl Course {
    /// No entry of as many places as this is given of.
    pub fn new(alloc: Global, given: Vec<Info>) -> Result<Course, AllocError> {
        let mut rows = Vec::with_capacity(alloc, given.len())?;
        for _ in 0..given.len() {
            rows.push(Vec::new(alloc))?;
        }
        Ok(Course { rows, given })
    }

    /// What the values of a place have by no premise; nothing where there is no such place.
    pub(crate) fn given(&self, place: usize) -> Info {
        match self.given.get(place) {
            Some(info) => *info,
            None => Info::Nothing,
        }
    }

    /// The next entry is the place's.
    pub fn push(&mut self, place: usize, entry: usize) -> Result<(), AllocError> {
        if place < self.rows.len() {
            self.rows[place].push(entry)?;
        }
        Ok(())
    }

    /// The place's last entry is taken back.
    pub fn pop(&mut self, place: usize) {
        if place < self.rows.len() {
            let _ = self.rows[place].pop();
        }
    }

    /// The place's entries.
    fn row(&self, place: usize) -> &[usize] {
        match self.rows.get(place) {
            Some(row) => row,
            None => &[],
        }
    }

    /// The place's entries before an entry.
    fn row_before(&self, place: usize, before: usize) -> &[usize] {
        let row = self.row(place);
        let count = count_first(row, Mark::Entry(before));
        &row[..count.min(row.len())]
    }

    /// What was believed of a place before an entry was made; nothing where there is no such place.
    pub(crate) fn info_before(&self, trail: &Trail, place: usize, before: usize) -> Info {
        if place >= trail.places() {
            return Info::Nothing;
        }
        match self.row_before(place, before).last() {
            Some(entry) if *entry < trail.len() => trail.entry(*entry).is,
            _ => trail.root(place),
        }
    }

    /// The entry below this one since which a literal is so; none where it was so at the root, or
    /// isn't so.
    pub(crate) fn maker(&self, trail: &Trail, literal: Literal, before: usize) -> Option<usize> {
        let Literal { place, fact } = literal;
        if place >= trail.places() || before > trail.len() {
            return None;
        }
        if let Fact::Other(_) = fact {
            return trail.maker(literal, before);
        }
        if fact.follows_from(trail.root(place)) {
            return None;
        }
        let row = self.row_before(place, before);
        let count = count_first(row, Mark::Fact(trail, fact));
        row.get(count).copied()
    }
}
