//! What names stand for.

ghost use Rattle.std.specs.Prelude.{◌≡◌};
ghost use Rattle.prop_premises.specs.Origins.{side_of};
ghost use Rattle.prop_premises.specs.inner.Origins.{is_believed};
ghost use Rattle.prop_premises.specs.inner.Named.{width, is_believed_kind, told};

use crate::premise_set::Premise;

/// What a name stands for.
#[derive(Clone, Copy, Debug, PartialEq, Eq)]
pub(crate) enum Kind {
    /// A premise of the user's, and whether it is believed.
    User(bool),
    /// A choice, and how many sides it has.
    Choice(u8),
}

impl Kind {
    /// How many numbers the name takes.
    pub(crate) fn width(self) -> usize
        ensures { result ≡ width self }
    {
        match self {
            Kind::User(_) => 1,
            Kind::Choice(sides) => usize::from(sides),
        }
    }

    /// Whether it is a believed premise of the user's.
    pub(crate) fn is_believed(self) -> bool
        ensures { result ≡ is_believed_kind self }
    {
        match self {
            Kind::User(believed) => believed,
            Kind::Choice(_) => false,
        }
    }
}

/// A name's first number, and what it stands for. A choice has a number for each of its sides.
#[derive(Clone, Copy, Debug, PartialEq, Eq)]
pub(crate) struct Named {
    pub(crate) first: Premise,
    pub(crate) kind: Kind,
}

/// Where a premise comes from.
#[derive(Clone, Copy)]
pub(crate) enum Source<'a> {
    /// The user named it, and it is believed or not.
    User(&'a str, bool),
    /// It is a side of the choice with this name: which one, and of how many.
    Side(&'a str, u8, u8),
}

impl Source<'_> {
    /// Whether it is a believed premise of the user's.
    pub(crate) fn is_believed(self) -> bool
        ensures { result ≡ is_believed (told self.entry) }
    {
        match self {
            Source::User(_, believed) => believed,
            Source::Side(_, _, _) => false,
        }
    }

    /// Which side it is of its choice.
    pub(crate) fn side(self) -> Option<u8>
        ensures { result ≡ side_of (told self.entry) }
    {
        match self {
            Source::User(_, _) => None,
            Source::Side(_, side, _) => Some(side),
        }
    }
}
