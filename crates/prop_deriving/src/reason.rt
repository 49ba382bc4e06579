//! Why something is so.
ghost use Rattle.std.specs.Prelude.{◌<◌, length, IfSome};

use crate::bits::{among, mask};
use crate::clash::Pair;
use prop_facts::{Fact, Literal};
use prop_lattice::{Info, Partial};
use prop_trail::{Source, Trail};

/// Why something is so: what was believed of its place, what was said of it then, or which number
/// was ruled out, by whom, and before which entry of the trail all else was so.
#[derive(Clone, Copy)]
pub(crate) struct Reason {
    pub(crate) was: Info,
    pub(crate) said: Info,
    pub(crate) out: Option<i64>,
    pub(crate) by: Source,
    pub(crate) before: usize,
}

impl Reason {
    /// The reason that an entry of the trail gives.
    pub(crate) fn of_entry(trail: &Trail, at: usize) -> Option<Reason> {
        if at >= trail.len() {
            return None;
        }
        let entry = trail.entry(at);
        Some(Reason {
            was: entry.was,
            said: entry.said,
            out: entry.out,
            by: entry.by,
            before: at,
        })
    }

    /// What was said, with what was believed.
    pub(crate) fn told(&self) -> Info {
        self.was.merge(self.said)
    }

    /// What has to be known of the place besides, so that what was said of it says a fact.
    pub(crate) fn rest(&self, fact: Fact, size: u8) -> Option<Fact> {
        match (fact, self.said) {
            (Fact::Among(need), Info::Set(said)) => {
                if said.bits() & !need.bits() == 0 {
                    return None;
                }
                among((need.bits() | !said.bits()) & mask(size))
            }
            _ => None,
        }
    }

    /// Whether what was said is that a fact isn't so, of a place whose domain has so many elements.
    pub(crate) fn denies(&self, fact: Fact, size: u8) -> bool {
        match fact.negation(size) {
            Some(Fact::Other(number)) => self.out == Some(number),
            Some(fact) => self.out.is_none() && self.said == fact.info(),
            None => false,
        }
    }

    /// The fact that was decided, which is another one, and that a fact which it says isn't so.
    pub(crate) fn decided_against(&self, fact: Fact, size: u8) -> Option<Pair> {
        let parts = Fact::parts(self.said);
        let decided = parts.first.or(parts.second)?;
        if decided == fact {
            return None;
        }
        let other = fact.negation(size)?;
        Some(Pair {
            one: decided,
            other,
        })
    }

    /// Which of these literals is one about the place that isn't so by what was said.
    pub(crate) fn denied_in(&self, literals: &[Literal], place: usize, size: u8) -> Option<usize>
        ensures { IfSome result (λ which. which < length literals.now) }
    {
        for which in 0..literals.len() {
            let literal = literals[which];
            if literal.place == place && self.denies(literal.fact, size) {
                return Some(which);
            }
        }
        None
    }

    /// Before which entry all is so on which a fact rests that this reason explains. Of a number,
    /// of what was decided, and of an end that moved past numbers that are out, it is the entry
    /// after this one: what was said itself is explained next.
    pub(crate) fn rests_before(&self, fact: Fact) -> usize {
        let is_again = match (fact, self.out) {
            _ if self.by == Source::Decision => true,
            (Fact::Is(_), _) => true,
            (Fact::Other(_), Some(_)) => false,
            (_, Some(_)) => true,
            (fact, None) => !fact.follows_from(self.told()),
        };
        if is_again {
            self.before.saturating_add(1)
        } else {
            self.before
        }
    }
}

/// A fact that the first information says, and that the second one bars.
pub(crate) fn barred_fact(was: Info, said: Info) -> Option<Fact> {
    match (was, said) {
        (Info::Span(was), Info::Span(said)) => {
            if said.hi() < was.lo() {
                Some(Fact::AtLeast(was.lo()))
            } else {
                Some(Fact::AtMost(was.hi()))
            }
        }
        (Info::Span(was), _) => Some(Fact::AtLeast(was.lo())),
        (Info::Set(was), _) => Some(Fact::Among(was)),
        (Info::Sym(was), _) => Some(Fact::Same(was)),
        _ => None,
    }
}
