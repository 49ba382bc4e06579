//! What the trail says, wherever it is asked.

use prop_trail::{Source, Trail};

/// How many entries there were once this one was made; none where there is none.
pub(crate) fn since_of(maker: Option<usize>) -> usize {
    match maker {
        Some(entry) => entry.saturating_add(1),
        None => 0,
    }
}

/// The last of so many entries.
pub(crate) fn maker_of(since: usize) -> Option<usize> {
    since.checked_sub(1)
}

/// The level at which there came to be so many entries, or will where there are fewer.
pub(crate) fn level_of(trail: &Trail, since: usize) -> usize {
    match maker_of(since) {
        Some(entry) if entry < trail.len() => trail.entry(entry).level,
        Some(_) => trail.level().saturating_add(1),
        None => 0,
    }
}

/// Whether there were so many entries before anything was supposed.
pub(crate) fn is_of_root(trail: &Trail, since: usize) -> bool {
    if trail.level() == 0 {
        since <= trail.len()
    } else {
        since <= trail.start_of(1)
    }
}

/// Whether the last of so many entries was decided.
pub(crate) fn is_decided(trail: &Trail, since: usize) -> bool {
    match maker_of(since) {
        Some(entry) if entry < trail.len() => trail.entry(entry).by == Source::Decision,
        _ => false,
    }
}
