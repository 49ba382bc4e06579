//! The numbers of one word.
ghost use Rattle.std.specs.Prelude.{◌≡◌, ◌↔◌, ◌<◌, ◌+◌, ◌*◌, ◌/◌, ◌%◌, ℕ, [], true, false, IsTrue};
ghost use Rattle.std.specs.Prelude.{IfSome};
ghost use Rattle.prop_numbers.specs.Sets.{set_of, without, union, IsSame};
ghost use Rattle.prop_numbers.specs.Words.{is_set};
ghost use Rattle.prop_numbers.specs.inner.NumberSets.{numbers_in};

use crate::bits::{bit_of, place_of};

/// The numbers whose bits one word has: which word it is, and the word.
#[derive(Clone, Copy)]
pub struct OneWord {
    pub place: usize,
    pub word: u64,
}

impl OneWord {
    /// Whether the number is one of them.
    #[inline(always)]
    pub fn has(self, number: u16) -> bool
        ensures { result ≡ set_of (numbers_in self) number }
    {
        place_of(number) == self.place && self.word & bit_of(number) != 0
    }

    /// Whether there are none.
    #[inline]
    pub fn is_empty(self) -> bool
        ensures { IsTrue result ↔ (numbers_in self ≡ []) }
    {
        self.word == 0
    }

    /// The numbers of both, where both have the same word.
    #[inline]
    pub fn union(self, other: OneWord) -> Option<OneWord>
        ensures place { IfSome result (λ o. o.place ≡ self.place) }
        ensures has { IfSome result (λ o.
            IsSame (set_of (numbers_in o))
            (union (set_of (numbers_in self)) (set_of (numbers_in other)))) }
    {
        if self.place != other.place {
            return None;
        }
        Some(OneWord {
            place: self.place,
            word: self.word | other.word,
        })
    }

    /// The bits of the numbers from 64 times the place on.
    #[inline(always)]
    pub fn word_at(self, place: usize) -> u64
        ensures { (i : ℕ) → i < 64 → is_set result i ≡ set_of (numbers_in self) (64 * place + i) }
    {
        if place == self.place { self.word } else { 0 }
    }

    /// Whether this word, of another set, has the bit of each number.
    #[inline(always)]
    pub fn is_within_word(self, word: u64) -> bool
        ensures part { result ≡ true → (p : ℕ) → IsTrue (set_of (numbers_in self) p)
            → (p / 64 ≡ self.place) × IsTrue (is_set word (p % 64)) }
        ensures apart { result ≡ false
            → (i : ℕ) × (i < 64) × IsTrue (set_of (numbers_in self) (64 * self.place + i))
            × (is_set word i ≡ false) }
    {
        self.word & !word == 0
    }

    /// The numbers but for one.
    #[inline]
    pub fn without(self, number: u16) -> OneWord
        ensures place { result.place ≡ self.place }
        ensures has { IsSame (set_of (numbers_in result))
            (without (set_of (numbers_in self)) number) }
    {
        if place_of(number) != self.place {
            return self;
        }
        OneWord {
            place: self.place,
            word: self.word & !bit_of(number),
        }
    }
}
