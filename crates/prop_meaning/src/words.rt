//! What the words of a term are.
ghost use Rattle.std.specs.Prelude.{◌≡◌, ◌<◌, ◌≤◌, IfSome, option_copied};
ghost use Rattle.prop_meaning.specs.Words.{Lexicon};

use crate::known::Known;
use prop_sets::Relation;

/// Who knows the words: of a session, its names.
pub trait Words {
    /// All that is known of words.
    ghost lexicon: { Self → Lexicon };

    /// How many cells are given: their places are the numbers below.
    fn count(&self) -> usize
        ensures value { result ≡ (lexicon self.now).count }
        ensures few { result ≤ 100_000 };

    /// What is surely known of a given cell.
    fn known(&self, place: usize) -> Known
        requires { place < (lexicon self.now).count }
        ensures { result ≡ (lexicon self.now).known place };

    /// The place of the given cell that a word names.
    fn cell(&self, word: &[u8]) -> Option<usize>
        ensures value { result ≡ (lexicon self.now).cell word.now }
        ensures given { IfSome result (λ place. place < (lexicon self.now).count) };

    /// The relation that a word names.
    fn relation(&self, word: &[u8]) -> Option<&Relation>
        ensures { option_copied result ≡ (lexicon self.now).relation word.now };

    /// The number of a word among the elements of a domain.
    fn element(&self, domain: u16, word: &[u8]) -> Option<u8>
        ensures { result ≡ (lexicon self.now).element domain word.now };

    /// The number of a symbol.
    fn symbol(&self, word: &[u8]) -> Option<u32>
        ensures { result ≡ (lexicon self.now).symbol word.now };
}
