//! What values that all differ tell about one more.
ghost use Rattle.std.specs.Prelude.{◌≡◌, ◌+◌, ◌<◌, ◌↔◌, IsTrue, length};
ghost use Rattle.prop_lattice.specs.Order.{Below};
ghost use Rattle.prop_hall.specs.Excluding.{told, excluded_of};
ghost use Rattle.prop_hall.specs.Hulls.{hull_of_two, points_in};
ghost use Rattle.prop_hall.specs.Narrowest.{ExcludedIsNarrowest, ExcludedSpanIsNarrowest};
ghost use Rattle.prop_hall.specs.Unknown.{UnknownSaysNothing};
ghost use Rattle.prop_hall.specs.inner.Extensions.{GainsLittle, extended};

use crate::hulls::{hull, points_in, without};
use crate::spans::{ByEnd, exclude_numbers};
use prop_lattice::{Info, Partial};

/// Some of the others: how many, what all of them say, and how many points that leaves.
#[derive(Clone, Copy)]
struct Selection {
    members: u64,
    hull: Info,
    points: u64,
    ghost counted: { points ≡ points_in hull },
}

impl Selection {
    /// The selection with one more.
    fn with(self, other: Info) -> Selection
        requires { self.members < 8 }
        ensures members { result.members ≡ self.members + 1 }
        ensures hull { result.hull ≡ hull_of_two self.hull other }
    {
        let hull = hull(self.hull, other);
        Selection {
            members: self.members + 1,
            hull,
            points: points_in(hull),
        }
    }

    /// Whether there are points, and at most one more with one more member. So it is with whatever
    /// is added to both, and then nothing is said that isn't said with that member too.
    #[tactic(auto, using(crate::proofs::GainLemmas::points_most))]
    fn gains_little(self, wider: Selection) -> bool
        ensures { IsTrue result ↔ GainsLittle self.hull wider.hull }
    {
        0 < self.points && wider.points <= self.points + 1
    }
}

/// What a selection says of a value that differs from its members, which differ from each other.
fn told(selection: Selection, y: Info) -> Info
    ensures { result ≡ told selection.members selection.hull y }
{
    if selection.points < selection.members {
        Info::Contradiction
    } else if selection.points == selection.members {
        without(y, selection.hull)
    } else {
        y
    }
}

/// What is known of `y`, and what the selections say of it that have all of `chosen` and some of
/// the rest. A selection is cut that leaves more points than it can get members, since no Hall set
/// has it in it, and so are those without a member that adds at most a point.
fn extended(known: Info, y: Info, chosen: Selection, rest: &[Info]) -> Info
    requires few { chosen.members + length rest.now < 9 }
    requires above { Below y known }
    ensures { result ≡ extended known y chosen.members chosen.hull rest.now }
{
    if chosen.members + (rest.len() as u64) < chosen.points {
        return known;
    }
    match rest {
        [] => told(chosen, y).merge(known),
        [first, rest @ ..] => {
            let wider = chosen.with(*first);
            let known = extended(known, y, wider, rest);
            if chosen.gains_little(wider) {
                known
            } else {
                extended(known, y, chosen, rest)
            }
        }
    }
}

/// What is known of `y`, which differs from each of the others, where these all differ from each
/// other too: what all selections of the others say of it. There are at most eight others.
pub fn exclude(y: Info, others: &[Info]) -> Info
    requires { length others.now < 9 }
    ensures { result ≡ excluded_of y others.now }
{
    let none = Selection {
        members: 0,
        hull: Info::Contradiction,
        points: 0,
    };
    match ByEnd::of(others) {
        Some(by_end) => exclude_numbers(y, by_end.as_slice()),
        None => extended(y, y, none, others),
    }
}

/// A law, of sets and of spans: what `exclude` answers is the narrowest information that holds each
/// point of `y` for which points of the others, one of each, can be found that all differ from it
/// and from each other.
pub fn exclude_is_narrowest()
    ensures sets { ExcludedIsNarrowest }
    ensures spans { ExcludedSpanIsNarrowest }
{}

/// A law: without the others of which nothing is known the answer is the same.
pub fn unknown_says_nothing()
    ensures { UnknownSaysNothing }
{}
