//! Iteration over a set of numbers.
ghost use Rattle.std.specs.Iterator.{YieldsFirst, item_count};

use crate::bits::BITS;
use crate::one_word::OneWord;
use std::marker::Model;

/// The numbers of a set that are still to come, in order.
#[derive(Drop)]
pub struct Numbers<'a> {
    /// The number of the first bit of `word`.
    base: u16,
    /// What is still to come of the word that was begun.
    word: u64,
    /// The words after it.
    rest: &'a [u64],
}

impl<'a> Model for Numbers<'a> {
    ghost use Rattle.std.specs.Prelude.{List, ℕ, ◌∷◌, ◌+◌, ◌*◌, ◌≤◌, length};
    ghost use Rattle.prop_numbers.specs.Words.{numbers_from};

    ghost Value = { List ℕ };

    ghost view = { λ n. numbers_from n.base (n.word ∷ n.rest.now) };

    ghost invariant = { λ n. n.base + 64 * (1 + length n.rest.now) ≤ 65_536 };
}

impl<'a> Numbers<'a> {
    ghost use Rattle.std.specs.Prelude.{◌≡◌, ◌<◌, ◌≤◌, ◌+◌, ◌*◌, length};
    ghost use Rattle.prop_numbers.specs.Words.{numbers_from};
    ghost use Rattle.prop_numbers.specs.inner.NumberSets.{numbers_in};

    /// The numbers of the bits of the words, of which the first has this number.
    pub fn new(first: usize, words: &'a [u64]) -> Numbers<'a>
        requires { first + length words.now ≤ 1_024 }
        ensures { result ≡ numbers_from (64 * first) words.now }
    {
        match words.split_first() {
            Some((word, rest)) => Numbers {
                base: (BITS * first) as u16,
                word: *word,
                rest,
            },
            None => Numbers {
                base: 0,
                word: 0,
                rest: words,
            },
        }
    }

    /// The numbers of one word.
    #[inline]
    pub fn of_one(one: OneWord) -> Numbers<'a>
        requires { one.place < 1_024 }
        ensures { result ≡ numbers_in one }
    {
        Numbers {
            base: (BITS * one.place) as u16,
            word: one.word,
            rest: &[],
        }
    }
}

impl<'a> Iterator for Numbers<'a> {
    type Item = u16;

    ghost next_gives = { YieldsFirst (λ n. n) };

    ghost remaining = { item_count (λ n. n) };

    fn next(&mut self) -> Option<u16> {
        while self.word == 0 {
            let (first, rest) = self.rest.split_first()?;
            self.base += 64;
            self.word = *first;
            self.rest = rest;
        }
        let bit = self.word.trailing_zeros();
        self.word &= !(1 << bit);
        Some(self.base + bit as u16)
    }
}
