//! Sets of numbers, of which those of one word stand in the value itself.
ghost use Rattle.std.specs.Prelude.{◌≡◌, ◌↔◌, ◌<◌, ◌≤◌, ◌+◌, ◌*◌, ◌/◌, ℕ, [], ◌∷◌, ◌++◌, length};
ghost use Rattle.std.specs.Prelude.{◌≢◌, false, nat_lt, filter, IsTrue, None};
ghost use Rattle.std.specs.Prelude.{IfSome, IsOk, IfOk, OnOk, OnErr};
ghost use Rattle.std.specs.List.Sorted.{IsStrictlyIncreasing};
ghost use Rattle.prop_numbers.specs.Sets.{set_of, union, without, is_within, is_below};
ghost use Rattle.prop_numbers.specs.Sets.{is_alike, is_at_most_one_of, IsSame, IsBelow};
ghost use Rattle.prop_numbers.specs.Changes.{may_change, CoversChange};
ghost use Rattle.prop_numbers.specs.Signatures.{remainders, AreRemainders};
ghost use Rattle.prop_numbers.specs.Words.{is_set};
ghost use Rattle.prop_numbers.specs.inner.NumberSets.{numbers_in};

use crate::bits::{bit_of, place_of};
use crate::change::Change;
use crate::numbers::Numbers;
use crate::one_word::OneWord;
use crate::signature::Signature;
use crate::words::Words;
use std::alloc::{AllocError, Global};
use std::marker::Model;
use std::mem::replace;

/// Where the numbers of a set stand.
#[derive(Drop)]
enum Form {
    /// All of them have their bits in one word.
    One(OneWord),
    /// They may have them in several.
    Many(Words),
}

/// A set of numbers below 2^16. Most sets are of one word, and quick to make, to compare and to
/// copy.
#[derive(Drop)]
pub struct NumberSet {
    form: Form,
    alloc: Global,
}

impl Model for NumberSet {
    ghost use Rattle.std.specs.Prelude.{List, ℕ};
    ghost use Rattle.prop_numbers.specs.inner.NumberSets.{numbers_of_form, IsInOrder};

    ghost Value = { List ℕ };

    ghost view = { λ s. numbers_of_form s.form };

    ghost invariant = { λ s. IsInOrder s.form };
}

impl NumberSet {
    /// The set of the numbers of one word. It takes no memory.
    #[inline]
    fn of_one(alloc: Global, one: OneWord) -> NumberSet
        requires { one.place < 1_024 }
        ensures same { result ≡ numbers_in one }
        ensures ordered { IsStrictlyIncreasing result }
    {
        NumberSet {
            form: Form::One(one),
            alloc,
        }
    }

    /// The set of the numbers of the words.
    pub fn of_words(words: Words) -> NumberSet
        ensures same { result ≡ words }
        ensures ordered { IsStrictlyIncreasing result }
    {
        let alloc = words.alloc();
        match words.only() {
            Some(one) => {
                drop(words);
                NumberSet::of_one(alloc, one)
            }
            None => NumberSet {
                form: Form::Many(words),
                alloc,
            },
        }
    }

    /// The set of no numbers. It takes no memory.
    #[inline]
    pub fn empty(alloc: Global) -> NumberSet
        ensures { result ≡ [] }
    {
        NumberSet::of_one(alloc, OneWord { place: 0, word: 0 })
    }

    /// The set of one number. It takes no memory.
    #[inline]
    pub fn single(alloc: Global, number: u16) -> NumberSet
        ensures { result ≡ number ∷ [] }
    {
        let one = OneWord {
            place: place_of(number),
            word: bit_of(number),
        };
        NumberSet::of_one(alloc, one)
    }

    /// The words of the set. It takes no memory.
    fn into_words(self) -> Words
        ensures { result ≡ self }
    {
        match self.form {
            Form::One(one) => Words::of_one(self.alloc, one),
            Form::Many(words) => words,
        }
    }

    /// Whether the number is in the set. It takes no memory.
    #[inline(always)]
    pub fn has(&self, number: u16) -> bool
        ensures { result ≡ set_of self.now number }
    {
        match &self.form {
            Form::One(one) => one.has(number),
            Form::Many(words) => words.has(number),
        }
    }

    /// Whether the set has no number. It takes no memory.
    #[inline]
    pub fn is_empty(&self) -> bool
        ensures { IsTrue result ↔ (self.now ≡ []) }
    {
        match &self.form {
            Form::One(one) => one.is_empty(),
            Form::Many(words) => words.is_empty(),
        }
    }

    /// The bits of the numbers from 64 times the place on. It takes no memory.
    #[inline(always)]
    fn word_at(&self, place: usize) -> u64
        ensures { (i : ℕ) → i < 64 → is_set result i ≡ set_of self.now (64 * place + i) }
    {
        match &self.form {
            Form::One(one) => one.word_at(place),
            Form::Many(words) => words.word_at(place),
        }
    }

    /// Whether each number of the set is in the other. It takes no memory.
    #[inline(always)]
    pub fn is_part_of(&self, other: &NumberSet) -> bool
        ensures { result ≡ is_within (set_of other.now) self.now }
    {
        match &self.form {
            Form::One(one) => one.is_within_word(other.word_at(one.place)),
            Form::Many(words) => other.has_words(words),
        }
    }

    /// Whether each number of the words is in the set. It takes no memory.
    fn has_words(&self, words: &Words) -> bool
        ensures { result ≡ is_within (set_of self.now) words.now }
    {
        match &self.form {
            Form::One(one) => words.is_part_of(&Words::of_one(self.alloc, *one)),
            Form::Many(own) => words.is_part_of(own),
        }
    }

    /// Which remainders the numbers leave. It takes no memory.
    #[inline]
    pub fn signature(&self) -> Signature
        ensures { AreRemainders (set_of self.now) (remainders result) }
    {
        match &self.form {
            Form::One(one) => Signature::none().with_word(one.place, one.word),
            Form::Many(words) => words.signature(),
        }
    }

    /// The place behind the last word that may have a bit. It takes no memory.
    #[inline(always)]
    fn end(&self) -> usize
        ensures all { (p : ℕ) → IsTrue (set_of self.now p) → p / 64 < result }
        ensures bound { result ≤ 1_024 }
    {
        match &self.form {
            Form::One(one) => one.place + 1,
            Form::Many(words) => words.places().1,
        }
    }

    /// The place of the first word from this one on that the sets don't have in common. It takes no
    /// memory.
    fn apart_from(&self, other: &NumberSet, from: usize) -> Option<usize>
        ensures place { IfSome result (λ place. place < 1_024) }
        ensures alike { IfSome result (λ place. (p : ℕ) → from ≤ p / 64 → p / 64 < place
            → set_of self.now p ≡ set_of other.now p) }
        ensures none { result ≡ None → (p : ℕ) → from ≤ p / 64
            → set_of self.now p ≡ set_of other.now p }
    {
        for place in from..self.end().max(other.end()) {
            if self.word_at(place) != other.word_at(place) {
                return Some(place);
            }
        }
        None
    }

    /// Which numbers may be in just one of the sets. It takes no memory.
    pub fn change(&self, other: &NumberSet) -> Change
        ensures { CoversChange (set_of self.now) (set_of other.now) (may_change result) }
    {
        let Some(place) = self.apart_from(other, 0) else {
            return Change::none();
        };
        Change {
            place,
            first: self.word_at(place) ^ other.word_at(place),
            second: self.word_at(place + 1) ^ other.word_at(place + 1),
            rest: self.apart_from(other, place + 2).is_some(),
        }
    }

    /// Whether the same numbers are in both sets. It takes no memory.
    pub fn is_same(&self, other: &NumberSet) -> bool
        ensures { result ≡ is_alike self.now other.now }
    {
        match (&self.form, &other.form) {
            (Form::Many(own), Form::Many(words)) if own.stand_alike(words) => true,
            _ => self.is_part_of(other) && other.is_part_of(self),
        }
    }

    /// The set has the numbers of the other from now on. Where both stand in as many words, it
    /// takes no memory; after want of memory nothing has changed.
    pub fn become_as(&mut self, other: &NumberSet) -> Result<(), AllocError>
        ensures ok { OnOk result (self.new ≡ other.now) }
        ensures err { OnErr result (self.new ≡ self.old) }
    {
        if let (Form::Many(own), Form::Many(words)) = (&mut self.form, &other.form) {
            return own.become_as(words);
        }
        *self = other.copy(self.alloc)?;
        Ok(())
    }

    /// Whether some number of the set may be one that changes. It takes no memory.
    #[inline(always)]
    pub fn meets(&self, change: &Change) -> bool
        ensures { result ≡ false → (p : ℕ) → IsTrue (set_of self.now p)
            → may_change change.now p ≡ false }
    {
        let first = self.word_at(change.place) & change.first;
        let second = self.word_at(change.place + 1) & change.second;
        change.rest || first | second != 0
    }

    /// Whether some number of the set is in just one of two others. It takes no memory.
    #[inline]
    pub fn tells_apart(&self, one: &NumberSet, other: &NumberSet) -> bool
        ensures apart { IsTrue result → (p : ℕ) × IsTrue (set_of self.now p)
            × (set_of one.now p ≢ set_of other.now p) }
        ensures alike { result ≡ false → (p : ℕ) → IsTrue (set_of self.now p)
            → set_of one.now p ≡ set_of other.now p }
    {
        match &self.form {
            Form::One(own) => {
                (one.word_at(own.place) ^ other.word_at(own.place)) & own.word != 0
            }
            Form::Many(words) => tell_apart(words, one, other),
        }
    }

    /// Whether the set has no number, or a single one that is in the other set. It takes no memory.
    pub fn is_at_most_one_of(&self, other: &NumberSet) -> bool
        ensures { result ≡ is_at_most_one_of (set_of other.now) self.now }
    {
        let mut numbers = self.iter();
        match numbers.next() {
            Some(first) => other.has(first) && numbers.next().is_none(),
            None => true,
        }
    }

    /// Whether each number of the set is below the bound. It takes no memory.
    pub fn is_below(&self, bound: usize) -> bool
        ensures { result ≡ is_below bound self.now }
    {
        match &self.form {
            Form::One(one) => Words::of_one(self.alloc, *one).is_below(bound),
            Form::Many(words) => words.is_below(bound),
        }
    }

    /// One more number is in the set. After want of memory nothing has changed.
    pub fn insert(&mut self, number: u16) -> Result<(), AllocError>
        ensures has { OnOk result (IsSame (set_of self.new)
            (union (set_of self.old) (set_of (number ∷ [])))) }
        ensures last { OnOk result (IsBelow number (set_of self.old)
            → self.new ≡ self.old ++ number ∷ []) }
        ensures err { OnErr result (self.new ≡ self.old) }
    {
        let empty = NumberSet::empty(self.alloc);
        let mut words = replace(self, empty).into_words();
        let inserted = words.insert(number);
        *self = NumberSet::of_words(words);
        inserted
    }

    /// Only the numbers below the bound stay. It takes no memory.
    pub fn keep_below(&mut self, bound: u16)
        ensures { self.new ≡ filter (λ p. nat_lt p bound) self.old }
    {
        let empty = NumberSet::empty(self.alloc);
        let mut words = replace(self, empty).into_words();
        words.keep_below(bound);
        *self = NumberSet::of_words(words);
    }

    /// The number is no longer in the set. It takes no memory.
    pub fn remove(&mut self, number: u16)
        ensures { IsSame (set_of self.new) (without (set_of self.old) number) }
    {
        let empty = NumberSet::empty(self.alloc);
        let mut words = replace(self, empty).into_words();
        words.remove(number);
        *self = NumberSet::of_words(words);
    }

    /// The numbers of both sets. Where both have the same one word it takes no memory.
    #[inline]
    pub fn union(&self, other: &NumberSet) -> Result<NumberSet, AllocError>
        ensures has { IfOk result (λ s.
            IsSame (set_of s) (union (set_of self.now) (set_of other.now))) }
        ensures ordered { IfOk result IsStrictlyIncreasing }
    {
        match &self.form {
            Form::One(one) => other.union_one(*one),
            Form::Many(words) => other.union_words(words),
        }
    }

    /// The numbers of one word and those of the set.
    #[inline]
    fn union_one(&self, one: OneWord) -> Result<NumberSet, AllocError>
        requires { one.place < 1_024 }
        ensures has { IfOk result (λ s.
            IsSame (set_of s) (union (set_of (numbers_in one)) (set_of self.now))) }
        ensures ordered { IfOk result IsStrictlyIncreasing }
    {
        if let Form::One(own) = &self.form {
            if let Some(both) = one.union(*own) {
                return Ok(NumberSet::of_one(self.alloc, both));
            }
        }
        self.union_words(&Words::of_one(self.alloc, one))
    }

    /// The numbers of the words and those of the set.
    fn union_words(&self, words: &Words) -> Result<NumberSet, AllocError>
        ensures has { IfOk result (λ s.
            IsSame (set_of s) (union (set_of words.now) (set_of self.now))) }
        ensures ordered { IfOk result IsStrictlyIncreasing }
    {
        let both = match &self.form {
            Form::One(one) => words.union(&Words::of_one(self.alloc, *one))?,
            Form::Many(own) => words.union(own)?,
        };
        Ok(NumberSet::of_words(both))
    }

    /// The set, but for one number.
    #[inline]
    pub fn without(&self, number: u16) -> Result<NumberSet, AllocError>
        ensures has { IfOk result (λ s. IsSame (set_of s) (without (set_of self.now) number)) }
        ensures ordered { IfOk result IsStrictlyIncreasing }
    {
        match &self.form {
            Form::One(one) => Ok(NumberSet::of_one(self.alloc, one.without(number))),
            Form::Many(words) => Ok(NumberSet::of_words(words.without(number)?)),
        }
    }

    /// The same set again. It takes no memory where the set has no number.
    #[inline]
    pub fn copy(&self, alloc: Global) -> Result<NumberSet, AllocError>
        ensures same { IfOk result (λ s. s ≡ self.now) }
        ensures ordered { IfOk result IsStrictlyIncreasing }
        ensures none { self.now ≡ [] → IsOk result }
    {
        match &self.form {
            Form::One(one) => Ok(NumberSet::of_one(alloc, *one)),
            Form::Many(words) => Ok(NumberSet::of_words(words.copy(alloc)?)),
        }
    }

    /// The numbers in order.
    pub fn iter(&self) -> Numbers<'_>
        ensures all { result ≡ self.now }
        ensures ordered { IsStrictlyIncreasing self.now }
        ensures few { length self.now ≤ 65_536 }
    {
        match &self.form {
            Form::One(one) => Numbers::of_one(*one),
            Form::Many(words) => words.iter(),
        }
    }

    pub fn alloc(&self) -> Global {
        self.alloc
    }
}

/// Whether some number of the words is in just one of two sets. It takes no memory.
fn tell_apart(words: &Words, one: &NumberSet, other: &NumberSet) -> bool
    ensures apart { IsTrue result → (p : ℕ) × IsTrue (set_of words.now p)
        × (set_of one.now p ≢ set_of other.now p) }
    ensures alike { result ≡ false → (p : ℕ) → IsTrue (set_of words.now p)
        → set_of one.now p ≡ set_of other.now p }
{
    let (first, end) = words.places();
    for place in first..end {
        if (one.word_at(place) ^ other.word_at(place)) & words.word_at(place) != 0 {
            return true;
        }
    }
    false
}
