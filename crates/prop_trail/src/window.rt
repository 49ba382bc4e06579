//! Numbers of a small span that were ruled out.
ghost use Rattle.std.specs.Prelude.{◌≡◌, ◌↔◌, IsTrue, ℤ, pos, ◌+ℤ◌, ◌-ℤ◌, ◌≤ℤ◌, ◌<ℤ◌, neg_ℤ};
ghost use Rattle.std.specs.Prelude.{◌≢◌, ◌⊎◌, ◌<◌, IfSome, None, EachIndex, slice_index};
ghost use Rattle.prop_lattice.specs.declared.span.TheConstants.{B};
ghost use Rattle.prop_lattice.specs.Ends.{numbers_in};
ghost use Rattle.prop_trail.specs.Narrowing.{IsNarrowed, IsTight};
ghost use Rattle.prop_trail.specs.Windows.{Covers, IsOut, CanGo, bit_of, flipped, window_of};
ghost use Rattle.prop_trail.specs.Windows.{left_in};

use prop_lattice::{Info, Span};
use std::marker::Model;

/// How many numbers a window has at the most.
const WIDTH: i64 = 256;
/// How many numbers a word tells apart.
const WORD: usize = 64;

/// The numbers from the first to the last, and which of them were ruled out: a bit each. There are
/// none where the last is below the first.
#[derive(Drop)]
pub(crate) struct Window {
    first: i64,
    last: i64,
    out: [u64; 4],
}

impl Model for Window {
    ghost use Rattle.prop_trail.specs.Windows.{Ruled};
    ghost use Rattle.prop_trail.specs.inner.Words.{cat, IsWindow};

    ghost Value = { Ruled };

    ghost view = { λ w. record { first = w.first; last = w.last; bits = cat w.out } };

    ghost invariant = { λ w. IsWindow w.first w.last w.out };
}

/// Whether each word is zero.
fn are_zero(words: &[u64]) -> bool
    ensures { IsTrue result ↔ EachIndex words.now (λ k. slice_index words.now k ≡ 0) }
{
    words.iter().all(|word| *word == 0)
}

impl Window {
    /// The numbers from the first to the last. None is ruled out.
    fn clean(first: i64, last: i64) -> Window
        requires { (last -ℤ first) <ℤ pos 256 }
        ensures { result ≡ record { first = first; last = last; bits = 0 } }
    {
        Window {
            first,
            last,
            out: [0; 4],
        }
    }

    /// The numbers that an information leaves, where they are few. None is ruled out.
    pub(crate) fn of(info: Info) -> Window
        ensures { result ≡ window_of info }
    {
        match info {
            Info::Span(span) => Window::over(span),
            _ => Window::clean(1, 0),
        }
    }

    /// The numbers of a span, where they are few.
    fn over(span: Span) -> Window
        ensures { result ≡ window_of (Info.Span span) }
    {
        if span.hi() - span.lo() < WIDTH {
            Window::clean(span.lo(), span.hi())
        } else {
            Window::clean(1, 0)
        }
    }

    /// Whether the number is one of the window's.
    pub(crate) fn covers(&self, number: i64) -> bool
        ensures { IsTrue result ↔ Covers self.now number }
    {
        self.first <= number && number <= self.last
    }

    /// Which bit is the number's.
    fn bit_of(&self, number: i64) -> usize
        requires { Covers self.now number }
        ensures bit { result ≡ bit_of self.now number }
        ensures within { result < 256 }
    {
        (number - self.first) as usize
    }

    /// Whether the number was ruled out.
    pub(crate) fn has(&self, number: i64) -> bool
        ensures { IsTrue result ↔ IsOut self.now number }
    {
        if !self.covers(number) {
            return false;
        }
        let at = self.bit_of(number);
        self.out[at / WORD] >> (at % WORD) & 1 == 1
    }

    /// The number is ruled out, or if it was, no longer. One that is not the window's stays as it
    /// is.
    pub(crate) fn flip(&mut self, number: i64)
        ensures { self.new ≡ flipped self.old number }
    {
        if !self.covers(number) {
            return;
        }
        let at = self.bit_of(number);
        self.out[at / WORD] ^= 1 << (at % WORD);
    }

    /// The first number from `lo` up to `hi` that wasn't ruled out; one more than `hi` where all
    /// were.
    fn first_left(&self, lo: i64, hi: i64) -> i64
        requires order { lo ≤ℤ (hi +ℤ pos 1) }
        requires most { hi ≤ℤ B }
        ensures least { lo ≤ℤ result }
        ensures most { result ≤ℤ (hi +ℤ pos 1) }
        ensures passed { (m : ℤ) → lo ≤ℤ m → m <ℤ result → IsOut self.now m }
        ensures left { result ≤ℤ hi → IsOut self.now result → ⊥ }
    {
        let mut number = lo;
        while number <= hi && self.has(number) {
            number += 1;
        }
        number
    }

    /// The last number from `hi` down to `lo` that wasn't ruled out; one less than `lo` where all
    /// were.
    fn last_left(&self, lo: i64, hi: i64) -> i64
        requires order { lo ≤ℤ (hi +ℤ pos 1) }
        requires least { neg_ℤ B ≤ℤ lo }
        ensures most { result ≤ℤ hi }
        ensures least { lo ≤ℤ (result +ℤ pos 1) }
        ensures passed { (m : ℤ) → result <ℤ m → m ≤ℤ hi → IsOut self.now m }
        ensures left { lo ≤ℤ result → IsOut self.now result → ⊥ }
    {
        let mut number = hi;
        while lo <= number && self.has(number) {
            number -= 1;
        }
        number
    }

    /// The same with its ends moved inwards past the numbers that were ruled out.
    pub(crate) fn narrowed(&self, info: Info) -> Info
        ensures { IsNarrowed (IsOut self.now) info result }
    {
        let Info::Span(span) = info else {
            return info;
        };
        let lo = self.first_left(span.lo(), span.hi());
        let hi = self.last_left(lo, span.hi());
        Info::between(lo, hi)
    }

    /// What is left of a span of two numbers or more whose ends weren't ruled out, without a number
    /// of it that wasn't either; `None` where that can't be kept.
    pub(crate) fn without(&self, span: Span, number: i64) -> Option<Info>
        requires two { span.lo <ℤ span.hi }
        requires least { span.lo ≤ℤ number }
        requires most { number ≤ℤ span.hi }
        requires tight { IsTight (IsOut self.now) (Info.Span span) }
        ensures some { IfSome result (λ info. (info ≢ Info.Contradiction)
            × IsNarrowed (λ m. IsOut self.now m ⊎ (m ≡ number)) (Info.Span span) info) }
        ensures none { result ≡ None → CanGo (Info.Span span) self.now number → ⊥ }
    {
        if number == span.lo() {
            Some(self.narrowed(Info::between(number + 1, span.hi())))
        } else if number == span.hi() {
            Some(self.narrowed(Info::between(span.lo(), number - 1)))
        } else if self.covers(number) {
            Some(Info::Span(span))
        } else {
            None
        }
    }

    /// Whether it can be seen that no number was ruled out.
    fn is_clean(&self) -> bool
        ensures { IsTrue result → self.now.bits ≡ 0 }
    {
        are_zero(&self.out)
    }

    /// How many numbers of the span weren't ruled out.
    pub(crate) fn count_left(&self, span: Span) -> u64
        ensures { result ≡ left_in self.now span.lo (numbers_in span) }
    {
        if self.is_clean() {
            return span.count();
        }
        let mut count = 0;
        let mut number = span.lo();
        while number <= span.hi() {
            if !self.has(number) {
                count += 1;
            }
            number += 1;
        }
        count
    }
}
