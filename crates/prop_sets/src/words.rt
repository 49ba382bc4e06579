//! Words of bits, one for each element of a domain.
ghost use Rattle.std.specs.Prelude.{◌≡◌, ◌<◌, IfOk, replicate, slice_index, vec_len};
ghost use Rattle.prop_sets.specs.inner.Words.{with_bit, IsUnionOf};

use std::alloc::{AllocError, Global};

/// So many words without bits.
pub(crate) fn empty_words(alloc: Global, count: u8) -> Result<Vec<u64>, AllocError>
    ensures { IfOk result (λ v. v.items ≡ replicate count 0) }
{
    Vec::from_elem(alloc, 0, usize::from(count))
}

/// Sets one bit of one of the words.
pub(crate) fn set_bit(words: &mut Vec<u64>, word: u8, bit: u8)
    requires word { word < vec_len words.old }
    requires bit { bit < 64 }
    ensures { words.new.items ≡ with_bit words.old.items word bit }
{
    words[usize::from(word)] |= 1 << bit;
}

/// The word with this number, one without bits where there is none.
fn word_at(words: &[u64], number: u32) -> u64
    ensures { result ≡ slice_index words.now number }
{
    words.get(number as usize).copied().unwrap_or(0)
}

/// The bits of all words whose numbers are set in `chosen`.
pub(crate) fn union_of(words: &[u64], chosen: u64) -> u64
    ensures { IsUnionOf words.now chosen result }
{
    let mut union = 0;
    let mut rest = chosen;
    while rest != 0 {
        let first = rest.trailing_zeros();
        union |= word_at(words, first);
        rest &= !(1 << first);
    }
    union
}
