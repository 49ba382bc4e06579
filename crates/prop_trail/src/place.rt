//! One place: what is believed of it.
ghost use Rattle.std.specs.Prelude.{◌≡◌, ◌↔◌, IsTrue};
ghost use Rattle.prop_lattice.specs.Order.{merge_of};
ghost use Rattle.prop_lattice.specs.Points.{Point, Number};
ghost use Rattle.prop_facts.specs.Facts.{IsSo};
ghost use Rattle.prop_trail.specs.Narrowing.{IsNarrowed, IsTight};
ghost use Rattle.prop_trail.specs.Places.{root_of, made, unmade, IsLeftIn, values_of};
ghost use Rattle.prop_trail.specs.Windows.{IsOut};

use crate::entry::Entry;
use crate::window::Window;
use prop_facts::Fact;
use prop_lattice::{Info, Partial};

/// What is believed of a place, and since when.
#[derive(Drop)]
pub(crate) struct Place {
    /// What is believed.
    pub(crate) info: Info,
    /// The newest entry of the place.
    pub(crate) newest: Option<usize>,
    /// The numbers that were ruled out.
    pub(crate) window: Window,
}

impl Place {
    /// A place of which this is believed at the root.
    pub(crate) fn new(info: Info) -> Place
        ensures { result ≡ root_of info }
    {
        Place {
            info,
            newest: None,
            window: Window::of(info),
        }
    }

    /// What is believed once this is said too.
    pub(crate) fn merged(&self, said: Info) -> Info
        ensures { IsNarrowed (IsOut self.now.window) (merge_of self.now.info said) result }
    {
        self.window.narrowed(self.info.merge(said))
    }

    /// Whether the number is left: what is believed leaves it, and it wasn't ruled out.
    pub(crate) fn leaves(&self, number: i64) -> bool
        ensures { IsTrue result ↔ IsLeftIn self.now (Number number) }
    {
        let believed = match self.info {
            Info::Nothing => true,
            Info::Span(span) => span.lo() <= number && number <= span.hi(),
            _ => false,
        };
        believed && !self.window.has(number)
    }

    /// Whether all values that are left are numbers other than this one.
    fn is_other(&self, number: i64) -> bool
        requires { IsTight (IsOut self.now.window) self.now.info }
        ensures { IsTrue result
            ↔ ((p : Point) → IsLeftIn self.now p → IsSo (Fact.Other number) p) }
    {
        match self.info {
            Info::Span(_) => !self.leaves(number),
            info => Fact::Other(number).follows_from(info),
        }
    }

    /// Whether the fact is so of all values that are left.
    pub(crate) fn says(&self, fact: Fact) -> bool
        requires { IsTight (IsOut self.now.window) self.now.info }
        ensures { IsTrue result ↔ ((p : Point) → IsLeftIn self.now p → IsSo fact p) }
    {
        match fact {
            Fact::Other(number) => self.is_other(number),
            fact => fact.follows_from(self.info),
        }
    }

    /// Whether the fact is so of no value that is left.
    pub(crate) fn bars(&self, fact: Fact) -> bool
        requires { IsTight (IsOut self.now.window) self.now.info }
        ensures { IsTrue result ↔ ((p : Point) → IsLeftIn self.now p → IsSo fact p → ⊥) }
    {
        match fact {
            Fact::Is(number) => !self.leaves(number),
            fact => fact.is_barred_by(self.info),
        }
    }

    /// The entry with this number is made.
    pub(crate) fn make(&mut self, entry: &Entry, at: usize)
        ensures { self.new ≡ made self.old entry.now at }
    {
        self.info = entry.is;
        self.newest = Some(at);
        if let Some(number) = entry.out {
            self.window.flip(number);
        }
    }

    /// The newest entry is taken back.
    pub(crate) fn take_back(&mut self, entry: &Entry)
        ensures { self.new ≡ unmade self.old entry.now }
    {
        self.info = entry.was;
        self.newest = entry.before;
        if let Some(number) = entry.out {
            self.window.flip(number);
        }
    }

    /// How many values are left; where nothing is known, `u64::MAX`.
    pub(crate) fn values(&self) -> u64
        ensures { result ≡ values_of self.now }
    {
        match self.info {
            Info::Nothing => u64::MAX,
            Info::Span(span) => self.window.count_left(span),
            Info::Set(elements) => elements.bits().count_ones() as u64,
            Info::Sym(_) => 1,
            Info::Contradiction => 0,
        }
    }
}
