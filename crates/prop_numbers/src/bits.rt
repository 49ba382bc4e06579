//! Bits of words.
ghost use Rattle.std.specs.Prelude.{◌≡◌, ◌<◌, ◌≤◌, ◌+◌, ◌-◌, ◌*◌, ◌/◌, ◌%◌, ◌^◌, ℕ, true, false};
ghost use Rattle.std.specs.Prelude.{not, ◌&&◌, ◌||◌, ◌==◌, length, slice_index, IsTrue};
ghost use Rattle.prop_numbers.specs.Sets.{set_of};
ghost use Rattle.prop_numbers.specs.Words.{has_bit, numbers_from};
ghost use Rattle.prop_numbers.specs.inner.Words.{HasFrom, IsTrimmed};

/// How many bits a word has.
pub const BITS: usize = 64;

/// The place of the word that has the number's bit.
#[inline]
pub fn place_of(number: u16) -> usize
    ensures { result ≡ number / 64 }
{
    usize::from(number) / BITS
}

/// The word with the number's bit alone.
#[inline]
pub fn bit_of(number: u16) -> u64
    ensures { result ≡ 2 ^ (number % 64) }
{
    1 << (number % 64)
}

/// The word at a place, one without bits past the last.
#[inline]
pub fn word_at(words: &[u64], place: usize) -> u64
    ensures { result ≡ slice_index words.now place }
{
    words.get(place).copied().unwrap_or(0)
}

/// How many words there are up to the last that has a bit.
pub fn trimmed_len(words: &[u64]) -> usize
    ensures within { result ≤ length words.now }
    ensures last { (n : ℕ) → result ≡ n + 1 → HasFrom words.now n }
    ensures rest { (k : ℕ) → result ≤ k → slice_index words.now k ≡ 0 }
{
    let mut len = words.len();
    while len > 0 && words[len - 1] == 0 {
        len -= 1;
    }
    len
}

/// How many words without bits stand before the first that has one; all where none has.
pub fn leading(words: &[u64]) -> usize
    ensures within { result ≤ length words.now }
    ensures blank { (k : ℕ) → k < result → slice_index words.now k ≡ 0 }
{
    let mut count = 0;
    while count < words.len() && words[count] == 0 {
        count += 1;
    }
    count
}

/// Sets the number's bit.
pub fn set_bit(words: &mut [u64], number: u16)
    requires { number / 64 < length words.old }
    ensures len { length words.new ≡ length words.old }
    ensures bits { (p : ℕ) → has_bit words.new p ≡ (has_bit words.old p || number == p) }
{
    words[place_of(number)] |= bit_of(number);
}

/// Clears the number's bit.
pub fn clear(words: &mut [u64], number: u16)
    ensures len { length words.new ≡ length words.old }
    ensures bits { (p : ℕ) → has_bit words.new p ≡ (has_bit words.old p && not (number == p)) }
{
    let place = place_of(number);
    if place < words.len() {
        words[place] &= !bit_of(number);
    }
}

/// Sets the bits of further words, from the word at a place on.
pub fn unite(words: &mut [u64], at: usize, more: &[u64])
    requires { at + length more.now ≤ length words.old }
    ensures len { length words.new ≡ length words.old }
    ensures bits { (p : ℕ) → has_bit words.new
        p ≡ (has_bit words.old p || set_of (numbers_from (64 * at) more.now) p) }
{
    for place in 0..more.len() {
        words[at + place] |= more[place];
    }
}

/// The word with a number, where the first of the words has this one.
#[inline]
pub fn word_from(first: usize, words: &[u64], number: usize) -> u64
    ensures before { number < first → result ≡ 0 }
    ensures from { first ≤ number → result ≡ slice_index words.now (number - first) }
{
    if number < first {
        0
    } else {
        word_at(words, number - first)
    }
}

/// Whether each number of the words is one of the others, where their first words have these
/// numbers.
#[inline]
pub fn is_part(first: usize, words: &[u64], others_first: usize, others: &[u64]) -> bool
    requires { first + length words.now ≤ 1_024 }
    ensures part { result ≡ true → (p : ℕ) → IsTrue (set_of (numbers_from (64 * first) words.now) p)
        → IsTrue (set_of (numbers_from (64 * others_first) others.now) p) }
    ensures apart { result ≡ false
        → (p : ℕ) × IsTrue (set_of (numbers_from (64 * first) words.now) p)
        × (set_of (numbers_from (64 * others_first) others.now) p ≡ false) }
{
    for place in 0..words.len() {
        if words[place] & !word_from(others_first, others, first + place) != 0 {
            return false;
        }
    }
    true
}

/// One above the number of the last bit that is set, 0 where none is.
pub fn end_of(words: &[u64]) -> usize
    requires trimmed { IsTrimmed words.now }
    requires in_range { length words.now ≤ 1_024 }
    ensures bound { result ≤ 65_536 }
    ensures above { (p : ℕ) → IsTrue (has_bit words.now p) → p < result }
    ensures last { (p : ℕ) → result ≡ p + 1 → IsTrue (has_bit words.now p) }
{
    match words.last() {
        Some(word) => BITS * words.len() - word.leading_zeros() as usize,
        None => 0,
    }
}
