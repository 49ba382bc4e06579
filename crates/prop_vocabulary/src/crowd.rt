//! How many names share a part of their hash, so that a table of hashes gets no more of them than
//! it finds quickly. Whoever picks names can make as many as he likes share all of it.
use std::alloc::{AllocError, Global};
use std::hash::{BuildHasher, BuildHasherDefault, FoldHasher};

/// How many last parts a hash can have, by which a table chooses where it begins to look.
const LAST_PARTS: usize = 16_384;
/// How many first parts it can have, by which a table chooses which names it compares.
const FIRST_PARTS: usize = 256;
/// How many names may share a last part. Of 100,000 names that nobody picked to do so, 20 do.
const MOST_AT_LAST: u16 = 32;
/// How many names may share a first part. Of 100,000 names that nobody picked to do so, 450 do.
const MOST_AT_FIRST: u16 = 1_024;

/// How many names have each part: it says how quickly a name is found, and never which.
#[derive(Drop)]
pub(crate) struct Crowd {
    /// First those with each last part, then those with each first part.
    counts: Vec<u16>,
}

/// The places of the two parts of the name's hash among the counts.
fn parts(name: &str) -> [usize; 2] {
    let hasher: BuildHasherDefault<FoldHasher> = BuildHasherDefault::new();
    let hash = hasher.hash_one(name);
    let folded = hash ^ (hash >> 32);
    let last = (folded & 0x3FFF) as usize;
    let first = ((folded >> 24) & 0xFF) as usize;
    [last, LAST_PARTS + first]
}

impl Crowd {
    /// No names. Takes no memory.
    pub(crate) fn new(alloc: Global) -> Crowd {
        Crowd {
            counts: Vec::new(alloc),
        }
    }

    /// Counts the name, if not too many share a part of its hash, and says so.
    pub(crate) fn admits(&mut self, alloc: Global, name: &str) -> Result<bool, AllocError> {
        if self.counts.is_empty() {
            self.counts.resize(LAST_PARTS + FIRST_PARTS, 0)?;
        }
        let [last, first] = parts(name);
        let has_room = self.count(last) < MOST_AT_LAST && self.count(first) < MOST_AT_FIRST;
        if has_room {
            self.add(last);
            self.add(first);
        }
        Ok(has_room)
    }

    /// Counts the name no longer.
    pub(crate) fn leave(&mut self, name: &str) {
        for part in parts(name) {
            if let Some(count) = self.counts.get_mut(part) {
                *count = count.saturating_sub(1);
            }
        }
    }

    fn count(&self, part: usize) -> u16 {
        self.counts.get(part).copied().unwrap_or(0)
    }

    fn add(&mut self, part: usize) {
        if let Some(count) = self.counts.get_mut(part) {
            *count = count.saturating_add(1);
        }
    }
}
