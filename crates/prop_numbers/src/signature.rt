//! What is looked at first of a set, to tell that it is no part of another.
ghost use Rattle.std.specs.Prelude.{◌↔◌, ◌≡◌, ◌<◌, ◌≤◌, ◌+◌, ◌*◌, ◌/◌, ◌%◌, ◌||◌, ◌&&◌, ◌==◌};
ghost use Rattle.std.specs.Prelude.{ℕ, false, length, IsTrue};
ghost use Rattle.prop_numbers.specs.Sets.{set_of, IsPart};
ghost use Rattle.prop_numbers.specs.Signatures.{remainders, AreRemainders};
ghost use Rattle.prop_numbers.specs.Words.{is_set, numbers_from};

/// Which remainders by 128 the numbers of a set leave, a bit for each. Where some remainder of a
/// set is none of another's, the set is no part of the other.
#[derive(Clone, Copy)]
pub struct Signature {
    /// The bits of the remainders below 64.
    even: u64,
    /// The bits of the others.
    odd: u64,
}

impl Signature {
    /// That of the set of no numbers.
    #[inline]
    pub fn none() -> Signature
        ensures { (i : ℕ) → remainders result i ≡ false }
    {
        Signature { even: 0, odd: 0 }
    }

    /// That of the set with the numbers whose bits a word has, from 64 times the place on.
    #[inline]
    pub fn with_word(self, place: usize, word: u64) -> Signature
        ensures { (i : ℕ) → remainders result i
            ≡ (remainders self i || ((i / 64 == place % 2) && is_set word (i % 64))) }
    {
        if place % 2 == 0 {
            Signature {
                even: self.even | word,
                odd: self.odd,
            }
        } else {
            Signature {
                even: self.even,
                odd: self.odd | word,
            }
        }
    }

    /// Whether each remainder is one of the other's.
    #[inline(always)]
    pub fn is_part_of(self, other: Signature) -> bool
        ensures { IsTrue result ↔ IsPart (remainders self) (remainders other) }
    {
        self.even & !other.even == 0 && self.odd & !other.odd == 0
    }
}

/// That of the numbers of the words, of which the first has this number.
pub fn signature_of(first: usize, words: &[u64]) -> Signature
    requires { first + length words.now ≤ 1_024 }
    ensures { AreRemainders (set_of (numbers_from (64 * first) words.now)) (remainders result) }
{
    let mut signature = Signature::none();
    for place in 0..words.len() {
        signature = signature.with_word(first + place, words[place]);
    }
    signature
}
