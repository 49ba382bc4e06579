//! What the words of an expression are in a session.
ghost use Rattle.std.specs.Prelude.{◌≡◌, ◌<◌, ◌≤◌, All, length};

use crate::known::span_in;
use prop_cells::Cells;
use prop_lattice::Span;
use prop_meaning::{Known, Words};
use prop_premises::Worldview;
use prop_sets::Relation;
use prop_vocabulary::{CellNames, Vocabulary};

/// What is there, as words of an expression speak of it.
#[derive(Clone, Copy)]
pub(crate) struct Glossary<'a> {
    pub(crate) names: &'a CellNames,
    pub(crate) words: &'a Vocabulary,
    pub(crate) cells: &'a Cells,
    /// Who believes this sees the cells.
    pub(crate) nobody: &'a Worldview,
    /// All numbers.
    pub(crate) whole: Span,
    /// So many domains are there, at the least.
    pub(crate) domains: usize,
    ghost few: { length cells.now.kinds ≤ 100_000 },
    ghost named: { All (λ cell. cell < length cells.now.kinds) names.now.cells },
    ghost there: { domains ≤ length words.now.domains },
}

impl Words for Glossary<'_> {
    ghost use Rattle.prop_demands.specs.inner.Glossaries.{lexicon_in, seen_of};

    ghost lexicon = { λ g. lexicon_in (seen_of g) };

    fn count(&self) -> usize {
        self.cells.len()
    }

    fn known(&self, place: usize) -> Known {
        Known {
            kinded: self.cells.kind(place),
            span: span_in(self.whole, self.cells.belief(place, self.nobody)),
        }
    }

    fn cell(&self, word: &[u8]) -> Option<usize> {
        match str::from_utf8(word) {
            Ok(name) => self.names.find(name),
            Err(_) => None,
        }
    }

    fn relation(&self, word: &[u8]) -> Option<&Relation> {
        match str::from_utf8(word) {
            Ok(name) => self.words.relation(name),
            Err(_) => None,
        }
    }

    fn element(&self, domain: u16, word: &[u8]) -> Option<u8> {
        if usize::from(domain) < self.domains {
            self.words.domain(domain).index_of(word)
        } else {
            None
        }
    }

    fn symbol(&self, word: &[u8]) -> Option<u32> {
        match str::from_utf8(word) {
            Ok(name) => self.words.symbol(name),
            Err(_) => None,
        }
    }
}
