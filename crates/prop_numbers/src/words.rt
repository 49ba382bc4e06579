//! Sets of numbers as words of bits.
ghost use Rattle.std.specs.Prelude.{◌≡◌, ◌↔◌, ◌<◌, ◌≤◌, ◌+◌, ◌*◌, ◌/◌, ◌&&◌, ◌==◌, not, ℕ, List};
ghost use Rattle.std.specs.Prelude.{[], ◌∷◌, ◌++◌, false, length, max, nat_lt, filter, IsTrue};
ghost use Rattle.std.specs.Prelude.{IsOk, IfOk, IfSome, OnOk, OnErr};
ghost use Rattle.std.specs.List.Sorted.{IsStrictlyIncreasing};
ghost use Rattle.prop_numbers.specs.Sets.{set_of, union, without, is_within, is_below};
ghost use Rattle.prop_numbers.specs.Sets.{is_at_most_one_of, IsSame, IsBelow};
ghost use Rattle.prop_numbers.specs.Signatures.{remainders, AreRemainders};
ghost use Rattle.prop_numbers.specs.Words.{is_set, has_bit, numbers_from};
ghost use Rattle.prop_numbers.specs.inner.NumberSets.{numbers_in};
ghost use Rattle.prop_numbers.specs.inner.Words.{IsTrimmed, IsForm};

use crate::bits::{
    BITS, bit_of, clear, end_of, is_part, leading, place_of, set_bit, trimmed_len, unite, word_at,
    word_from,
};
use crate::numbers::Numbers;
use crate::one_word::OneWord;
use crate::signature::{Signature, signature_of};
use smallvec::SmallVec;
use std::alloc::{AllocError, Global};
use std::marker::Model;

/// A set of numbers below 2^16: number `p` is in it where bit `p % 64` of the word with number `p /
/// 64` is set. Words before the first and after the last that has a bit need not stand here, so
/// that a set costs what lies between its least and its largest number. Two words stand in the
/// value itself, so no call takes memory for sets of numbers below 128.
#[derive(Drop)]
pub struct Words {
    /// The number of the first word that stands here.
    first: usize,
    /// The words from that one on. The last has a bit.
    words: SmallVec<u64, 2>,
}

impl Model for Words {
    ghost use Rattle.std.specs.Prelude.{List, ℕ, ◌*◌};
    ghost use Rattle.prop_numbers.specs.Words.{numbers_from};
    ghost use Rattle.prop_numbers.specs.inner.Words.{IsForm};

    ghost Value = { List ℕ };

    ghost view = { λ w. numbers_from (64 * w.first) w.words.items };

    ghost invariant = { λ w. IsForm w.first w.words.items };
}

/// Words without bits, as many as the numbers below this one have.
pub fn blank(alloc: Global, count: usize) -> Result<SmallVec<u64, 2>, AllocError>
    requires { count ≤ 65_536 }
    ensures room { IfOk result (λ w. count ≤ 64 * length w.items) }
    ensures bound { IfOk result (λ w. length w.items ≤ 1_024) }
    ensures bits { IfOk result (λ w. (p : ℕ) → has_bit w.items p ≡ false) }
{
    if count <= 2 * BITS {
        return Ok(SmallVec::from_buf(alloc, [0, 0]));
    }
    SmallVec::from_elem(alloc, 0, count.div_ceil(BITS))
}

/// Drops the last words as far as they have no bit.
fn trim(words: &mut SmallVec<u64, 2>)
    ensures bits { (p : ℕ) → has_bit words.new.items p ≡ has_bit words.old.items p }
    ensures trimmed { IsTrimmed words.new.items }
    ensures len { length words.new.items ≤ length words.old.items }
{
    let len = trimmed_len(words);
    words.truncate(len);
}

/// Puts words without bits last until there are so many. After want of memory nothing has changed.
fn grow(words: &mut SmallVec<u64, 2>, count: usize) -> Result<(), AllocError>
    ensures len { OnOk result (length words.new.items ≡ max (length words.old.items) count) }
    ensures bits { OnOk result ((p : ℕ) → has_bit words.new.items p ≡ has_bit words.old.items p) }
    ensures err { OnErr result (words.new.items ≡ words.old.items) }
{
    if words.len() < count {
        words.resize(count, 0)
    } else {
        Ok(())
    }
}

/// The words with so many without bits before them.
fn led(alloc: Global, words: &[u64], count: usize) -> Result<SmallVec<u64, 2>, AllocError>
    requires { count + length words.now ≤ 1_024 }
    ensures len { IfOk result (λ w. length w.items ≡ count + length words.now) }
    ensures bits { IfOk result (λ w. (p : ℕ)
        → has_bit w.items p ≡ set_of (numbers_from (64 * count) words.now) p) }
{
    let mut longer = SmallVec::from_elem(alloc, 0, count + words.len())?;
    unite(&mut longer, count, words);
    Ok(longer)
}

/// The number of the first word: where there are no words, the number of one that is to come.
fn start(first: usize, words: &[u64], number: usize) -> usize
    requires { number < 1_024 }
    ensures none { length words.now ≡ 0 → result ≡ number }
    ensures room { first + length words.now ≤ 1_024 → result + length words.now ≤ 1_024 }
    ensures numbers { numbers_from (64 * result) words.now ≡ numbers_from (64 * first) words.now }
{
    if words.is_empty() { number } else { first }
}

/// Words from the first to the one with this number, or to the last where that is later, and the
/// number of the first. After want of memory nothing has changed.
fn reach(first: usize, words: &mut SmallVec<u64, 2>, number: usize) -> Result<usize, AllocError>
    requires room { first + length words.old.items ≤ 1_024 }
    requires number { number < 1_024 }
    ensures first { IfOk result (λ f. f ≤ number) }
    ensures len { IfOk result (λ f.
        f + length words.new.items ≡ max (first + length words.old.items) (number + 1)) }
    ensures numbers { IfOk result
        (λ f. numbers_from (64 * f) words.new.items ≡ numbers_from (64 * first) words.old.items) }
    ensures err { OnErr result (words.new.items ≡ words.old.items) }
{
    if first <= number {
        grow(words, number - first + 1)?;
        return Ok(first);
    }
    *words = led(*words.allocator(), words, first - number)?;
    Ok(number)
}

/// The numbers of both, with the words from the first of either to the last of either.
fn united(
    alloc: Global,
    first: usize,
    words: &[u64],
    others_first: usize,
    others: &[u64],
) -> Result<Words, AllocError>
    requires form { IsForm first words.now }
    requires some { 0 < length words.now }
    requires others_form { IsForm others_first others.now }
    requires others { 0 < length others.now }
    ensures has { IfOk result (λ w.
        IsSame (set_of w) (union (set_of (numbers_from (64 * first) words.now))
        (set_of (numbers_from (64 * others_first) others.now)))) }
    ensures ordered { IfOk result IsStrictlyIncreasing }
{
    let least = first.min(others_first);
    let end = (first + words.len()).max(others_first + others.len());
    let mut both = SmallVec::from_elem(alloc, 0, end - least)?;
    unite(&mut both, first - least, words);
    unite(&mut both, others_first - least, others);
    Ok(Words {
        first: least,
        words: both,
    })
}

/// The numbers of the words, of which none without a bit stands first or last.
fn tight(first: usize, mut words: SmallVec<u64, 2>) -> Result<Words, AllocError>
    requires { first + length words.items ≤ 1_024 }
    ensures same { IfOk result (λ w. w ≡ numbers_from (64 * first) words.items) }
    ensures ordered { IfOk result IsStrictlyIncreasing }
{
    trim(&mut words);
    let blanks = leading(&words);
    if blanks == 0 {
        return Ok(Words { first, words });
    }
    let kept = SmallVec::from_slice(*words.allocator(), &words[blanks..])?;
    Ok(Words {
        first: first + blanks,
        words: kept,
    })
}

/// Only the numbers below the bound stay. It takes no memory.
fn cut(words: &mut SmallVec<u64, 2>, bound: u16)
    ensures bits { (p : ℕ) → has_bit words.new.items
        p ≡ (has_bit words.old.items p && nat_lt p bound) }
    ensures trimmed { IsTrimmed words.old.items → IsTrimmed words.new.items }
    ensures len { length words.new.items ≤ length words.old.items }
{
    let place = place_of(bound);
    if place < words.len() {
        words.truncate(place + 1);
        words[place] &= bit_of(bound) - 1;
        trim(words);
    }
}

/// The number is no longer among those whose bits are set. It takes no memory.
fn unset(words: &mut SmallVec<u64, 2>, number: u16)
    ensures bits { (p : ℕ) → has_bit words.new.items p
        ≡ (has_bit words.old.items p && not (number == p)) }
    ensures trimmed { IsTrimmed words.new.items }
    ensures len { length words.new.items ≤ length words.old.items }
{
    clear(words, number);
    trim(words);
}

impl Words {
    /// The numbers of one word. It takes no memory.
    #[inline]
    pub fn of_one(alloc: Global, one: OneWord) -> Words
        requires { one.place < 1_024 }
        ensures { result ≡ numbers_in one }
    {
        let mut words = SmallVec::from_buf(alloc, [one.word, 0]);
        trim(&mut words);
        Words {
            first: one.place,
            words,
        }
    }

    /// The word, where there is no other.
    pub fn only(&self) -> Option<OneWord>
        ensures place { IfSome result (λ one. one.place < 1_024) }
        ensures same { IfSome result (λ one. numbers_in one ≡ self.now) }
        ensures ordered { IsStrictlyIncreasing self.now }
    {
        if self.words.len() != 1 {
            return None;
        }
        Some(OneWord {
            place: self.first,
            word: self.words[0],
        })
    }

    /// The set of the numbers whose bits are set.
    pub fn of(mut words: SmallVec<u64, 2>) -> Words
        requires { length words.items ≤ 1_024 }
        ensures has { IsSame (set_of result) (has_bit words.items) }
        ensures ordered { IsStrictlyIncreasing result }
    {
        trim(&mut words);
        Words { first: 0, words }
    }

    pub fn alloc(&self) -> Global {
        *self.words.allocator()
    }

    /// Whether the number is in the set. It takes no memory.
    #[inline(always)]
    pub fn has(&self, number: u16) -> bool
        ensures { result ≡ set_of self.now number }
    {
        let place = place_of(number);
        place >= self.first && word_at(&self.words, place - self.first) & bit_of(number) != 0
    }

    /// Whether the set has no number. It takes no memory.
    #[inline]
    pub fn is_empty(&self) -> bool
        ensures { IsTrue result ↔ (self.now ≡ []) }
    {
        self.words.is_empty()
    }

    /// Whether each number of the set is in the other. It takes no memory.
    #[inline]
    pub fn is_part_of(&self, other: &Words) -> bool
        ensures { result ≡ is_within (set_of other.now) self.now }
    {
        is_part(self.first, &self.words, other.first, &other.words)
    }

    /// The bits of the numbers from 64 times the place on. It takes no memory.
    #[inline(always)]
    pub fn word_at(&self, place: usize) -> u64
        ensures { (i : ℕ) → i < 64 → is_set result i ≡ set_of self.now (64 * place + i) }
    {
        word_from(self.first, &self.words, place)
    }

    /// Which remainders the numbers leave. It takes no memory.
    pub fn signature(&self) -> Signature
        ensures { AreRemainders (set_of self.now) (remainders result) }
    {
        signature_of(self.first, &self.words)
    }

    /// The places of the words that may have a bit, from the first of them to the one behind the
    /// last.
    pub fn places(&self) -> (usize, usize)
        ensures all { (p : ℕ) → IsTrue (set_of self.now p)
            → (result.0 ≤ p / 64) × (p / 64 < result.1) }
        ensures bound { result.1 ≤ 1_024 }
    {
        (self.first, self.first + self.words.len())
    }

    /// Whether the same words stand in both. It takes no memory.
    #[inline]
    pub fn stand_alike(&self, other: &Words) -> bool
        ensures { IsTrue result → self.now ≡ other.now }
    {
        self.first == other.first && self.words[..] == other.words[..]
    }

    /// The set has the numbers of the other from now on. Where as many words stand here, it takes
    /// no memory; after want of memory nothing has changed.
    pub fn become_as(&mut self, other: &Words) -> Result<(), AllocError>
        ensures ok { OnOk result (self.new ≡ other.now) }
        ensures err { OnErr result (self.new ≡ self.old) }
    {
        if self.words.len() == other.words.len() {
            self.first = other.first;
            self.words.copy_from_slice(&other.words);
            return Ok(());
        }
        *self = other.copy(self.alloc())?;
        Ok(())
    }

    /// Whether each number of the set is below the bound. It takes no memory.
    pub fn is_below(&self, bound: usize) -> bool
        ensures { result ≡ is_below bound self.now }
    {
        self.words.is_empty() || BITS * self.first + end_of(&self.words) <= bound
    }

    /// One more number is in the set. After want of memory nothing has changed.
    pub fn insert(&mut self, number: u16) -> Result<(), AllocError>
        ensures has { OnOk result (IsSame (set_of self.new)
            (union (set_of self.old) (set_of (number ∷ [])))) }
        ensures last { OnOk result (IsBelow number (set_of self.old)
            → self.new ≡ self.old ++ number ∷ []) }
        ensures err { OnErr result (self.new ≡ self.old) }
    {
        let place = place_of(number);
        let first = start(self.first, &self.words, place);
        self.first = reach(first, &mut self.words, place)?;
        set_bit(&mut self.words, number - (BITS * self.first) as u16);
        Ok(())
    }

    /// Only the numbers below the bound stay. It takes no memory.
    pub fn keep_below(&mut self, bound: u16)
        ensures { self.new ≡ filter (λ p. nat_lt p bound) self.old }
    {
        let start = BITS * self.first;
        if usize::from(bound) <= start {
            self.words.truncate(0);
        } else {
            cut(&mut self.words, bound - start as u16);
        }
    }

    /// The number is no longer in the set. It takes no memory.
    pub fn remove(&mut self, number: u16)
        ensures { IsSame (set_of self.new) (without (set_of self.old) number) }
    {
        let start = BITS * self.first;
        if usize::from(number) >= start {
            unset(&mut self.words, number - start as u16);
        }
    }

    /// The numbers of both sets.
    pub fn union(&self, other: &Words) -> Result<Words, AllocError>
        ensures has { IfOk result (λ w.
            IsSame (set_of w) (union (set_of self.now) (set_of other.now))) }
        ensures ordered { IfOk result IsStrictlyIncreasing }
    {
        if other.words.is_empty() {
            return self.copy(self.alloc());
        }
        if self.words.is_empty() {
            return other.copy(self.alloc());
        }
        united(
            self.alloc(),
            self.first,
            &self.words,
            other.first,
            &other.words,
        )
    }

    /// The set, but for one number.
    pub fn without(&self, number: u16) -> Result<Words, AllocError>
        ensures has { IfOk result (λ w. IsSame (set_of w) (without (set_of self.now) number)) }
        ensures ordered { IfOk result IsStrictlyIncreasing }
    {
        let start = BITS * self.first;
        let mut words = SmallVec::from_slice(self.alloc(), &self.words)?;
        if usize::from(number) >= start {
            clear(&mut words, number - start as u16);
        }
        tight(self.first, words)
    }

    /// The same set again. It takes no memory where the set has no number.
    pub fn copy(&self, alloc: Global) -> Result<Words, AllocError>
        ensures same { IfOk result (λ w. w ≡ self.now) }
        ensures ordered { IfOk result IsStrictlyIncreasing }
        ensures none { self.now ≡ [] → IsOk result }
    {
        let first = self.first;
        let words = SmallVec::from_slice(alloc, &self.words)?;
        Ok(Words { first, words })
    }

    /// The numbers in order.
    pub fn iter(&self) -> Numbers<'_>
        ensures all { result ≡ self.now }
        ensures ordered { IsStrictlyIncreasing self.now }
        ensures few { length self.now ≤ 65_536 }
    {
        Numbers::new(self.first, &self.words)
    }
}
