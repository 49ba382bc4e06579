//! The rules, guarded.
ghost use Rattle.std.specs.Prelude.{false, None};
ghost use Rattle.prop_rows.specs.Guards.{own_of};
ghost use Rattle.prop_rows.specs.laws.GuardLaws.{row_barred, row_own, row_repeated, row_silent};

use crate::row::Row;
use prop_facts::Changes;
use prop_guards::Guarded;
use prop_lattice::Info;
use prop_procedures::Param;

/// The most inputs of a call that takes no longer than others.
const FEW: usize = 4;

/// The changes of a number's ends.
const ENDS: Changes = Changes {
    low: true,
    high: true,
    point: false,
    hole: false,
};

/// The change of a number's lower end.
const LOW: Changes = Changes {
    low: true,
    high: false,
    point: false,
    hole: false,
};

/// The change of a number's upper end.
const HIGH: Changes = Changes {
    low: false,
    high: true,
    point: false,
    hole: false,
};

/// The change to one value alone.
const POINT: Changes = Changes {
    low: false,
    high: false,
    point: true,
    hole: false,
};

impl Guarded for Row {
    ghost is_silent = { λ rule param args. false };

    ghost is_repeated = { λ rule param args. false };

    ghost own_of = { own_of };

    ghost ruled_out = { λ rule param args place. None };

    fn says_nothing(&self, _param: &Param, _args: &[Info]) -> bool {
        false
    }

    fn repeats(&self, _param: &Param, _args: &[Info]) -> bool {
        false
    }

    fn own_place(&self) -> Option<usize> {
        match self {
            Row::Index => Some(1),
            _ => None,
        }
    }

    fn rules_out(&self, _param: &Param, _args: &[Info], _place: usize) -> Option<i64> {
        None
    }

    fn heeds(&self, place: usize, _count: usize) -> Changes {
        match (self, place) {
            (Row::Sum | Row::Addend, _) | (Row::Element, 0) | (Row::Index, 1) => ENDS,
            (Row::Element | Row::Index | Row::Entry, _) => Changes::ALL,
            (Row::Count, _) => POINT,
            (Row::CountBack, _) if 0 < place => POINT,
            (Row::GreatestBack, _) if 0 < place => HIGH,
            (Row::LeastBack, _) if 0 < place => LOW,
            _ => ENDS,
        }
    }

    fn waits_for(&self) -> Option<usize> {
        match self {
            Row::Entry => Some(0),
            _ => None,
        }
    }

    fn is_dear(&self, count: usize) -> bool {
        FEW < count
    }

    ghost silent = { row_silent };

    ghost repeated = { row_repeated };

    ghost own = { row_own };

    ghost barred = { row_barred };
}
