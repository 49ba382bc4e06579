//! In which ways what is known of a value may grow.
ghost use Rattle.std.specs.Prelude.{◌↔◌, ◌⊎◌, IsTrue};
ghost use Rattle.prop_facts.specs.Changing.{AreBetween};

use prop_lattice::Info;

/// Ways in which what is known of a value may grow.
#[derive(Clone, Copy, Debug, Default, PartialEq, Eq)]
pub struct Changes {
    /// The lower end of a span moved.
    pub low: bool,
    /// The upper end of a span moved.
    pub high: bool,
    /// One value alone is left.
    pub point: bool,
    /// A value went that is no end, or elements of a set.
    pub hole: bool,
}

impl Changes {
    /// Every way.
    pub const ALL: Changes = Changes {
        low: true,
        high: true,
        point: true,
        hole: true,
    };

    /// The ways in which the first information grew into the second, which says more. Between
    /// informations that are not both spans or both sets they are all.
    pub fn between(was: Info, is: Info) -> Changes
        ensures { AreBetween was is result }
    {
        match (was, is) {
            (Info::Span(a), Info::Span(b)) => Changes {
                low: a.lo() < b.lo(),
                high: b.hi() < a.hi(),
                point: b.lo() == b.hi() && a.lo() < a.hi(),
                hole: false,
            },
            (Info::Set(a), Info::Set(b)) => Changes {
                low: false,
                high: false,
                point: b.bits().count_ones() == 1 && a.bits() != b.bits(),
                hole: a.bits() != b.bits(),
            },
            _ => Changes::ALL,
        }
    }

    /// Whether one of these ways is among the others.
    pub fn meets(self, others: Changes) -> bool
        ensures { IsTrue result ↔ ((IsTrue self.low × IsTrue others.low)
            ⊎ (IsTrue self.high × IsTrue others.high) ⊎ (IsTrue self.point × IsTrue others.point)
            ⊎ (IsTrue self.hole × IsTrue others.hole)) }
    {
        self.low && others.low
            || self.high && others.high
            || self.point && others.point
            || self.hole && others.hole
    }
}
