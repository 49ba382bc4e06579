//! The rules, guarded.
ghost use Rattle.std.specs.Prelude.{◌≡◌, false};
ghost use Rattle.prop_guards.specs.Known.{number_of};
ghost use Rattle.prop_many.specs.Guards.{own_of, ruled_out, ruled_out_beside};
ghost use Rattle.prop_many.specs.laws.GuardLaws.{many_barred, many_own, many_repeated};
ghost use Rattle.prop_many.specs.laws.GuardLaws.{many_silent};

use crate::many::Many;
use prop_facts::Changes;
use prop_guards::Guarded;
use prop_lattice::Info;
use prop_procedures::Param;

/// The changes of a number's lower end.
const LOW: Changes = Changes {
    low: true,
    high: false,
    point: false,
    hole: false,
};

/// The changes of a number's upper end.
const HIGH: Changes = Changes {
    low: false,
    high: true,
    point: false,
    hole: false,
};

/// The changes of a number's ends.
const ENDS: Changes = Changes {
    low: true,
    high: true,
    point: false,
    hole: false,
};

/// The change to one number alone.
const POINT: Changes = Changes {
    low: false,
    high: false,
    point: true,
    hole: false,
};

/// The number that an information leaves alone.
fn number_of(info: Info) -> Option<i64>
    ensures { result ≡ number_of info }
{
    match info {
        Info::Span(span) => (span.lo() == span.hi()).then_some(span.lo()),
        _ => None,
    }
}

/// The number that the argument at this place rules out of the first, from which it differs.
fn ruled_out_beside(args: &[Info], place: usize) -> Option<i64>
    ensures { result ≡ ruled_out_beside args.now place }
{
    match args {
        [_, others @ ..] if 0 < place => match others.get(place - 1) {
            Some(other) => number_of(*other),
            None => None,
        },
        _ => None,
    }
}

impl Guarded for Many {
    ghost is_silent = { λ rule param args. false };

    ghost is_repeated = { λ rule param args. false };

    ghost own_of = { own_of };

    ghost ruled_out = { λ rule param args place. ruled_out rule args place };

    fn says_nothing(&self, _param: &Param, _args: &[Info]) -> bool {
        false
    }

    fn repeats(&self, _param: &Param, _args: &[Info]) -> bool {
        false
    }

    fn own_place(&self) -> Option<usize> {
        match self {
            Many::Cumulative => Some(1),
            Many::Disjoint | Many::Differ | Many::Circuit | Many::Starting => Some(0),
            Many::Ending => None,
        }
    }

    fn rules_out(&self, _param: &Param, args: &[Info], place: usize) -> Option<i64> {
        match self {
            Many::Differ => ruled_out_beside(args, place),
            _ => None,
        }
    }

    fn heeds(&self, place: usize, _count: usize) -> Changes {
        match self {
            Many::Cumulative if place == 0 => HIGH,
            Many::Cumulative if place % 3 == 1 => ENDS,
            Many::Disjoint if place % 2 == 0 => ENDS,
            // (intervals seldom fill before one of the others is decided, and to look at each end
            // that moves takes longer than it saves)
            Many::Differ | Many::Circuit if 0 < place => POINT,
            Many::Differ | Many::Circuit => ENDS,
            Many::Ending | Many::Starting => ENDS,
            _ => LOW,
        }
    }

    fn waits_for(&self) -> Option<usize> {
        None
    }

    fn is_dear(&self, _count: usize) -> bool {
        true
    }

    ghost silent = { many_silent };

    ghost repeated = { many_repeated };

    ghost own = { many_own };

    ghost barred = { many_barred };
}
