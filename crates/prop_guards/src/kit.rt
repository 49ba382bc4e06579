//! The rules of the kit, guarded.
ghost use Rattle.std.specs.Prelude.{◌≡◌, ◌||◌};
ghost use Rattle.prop_guards.specs.Kit.{are_mixed, is_inside, is_repeated, is_silent};
ghost use Rattle.prop_guards.specs.Kit.{is_silent_of_two, own_of};
ghost use Rattle.prop_guards.specs.Kit.{is_silent_of_three, ruled_out};
ghost use Rattle.prop_guards.specs.laws.KitLaws.{kit_silent, kit_repeated, kit_own, kit_barred};
ghost use Rattle.prop_sets.specs.Truth.{is_nothing, leaves};

use crate::guarded::Guarded;
use crate::known::{
    ENDS, HIGH, LOW, POINT, is_just, is_nothing, is_settled, is_single, number_of, some_unknown,
};
use prop_arith::Kit;
use prop_facts::Changes;
use prop_intervals::comparisons::{NO, YES};
use prop_lattice::Info;
use prop_procedures::Param;
use prop_wide::truths::{may_be_no, may_be_yes};

/// Whether an information leaves a truth.
fn is_truth(info: Info) -> bool
    ensures { result ≡ (leaves info 0 || leaves info 1) }
{
    may_be_yes(info) || may_be_no(info)
}

/// Whether of one of two arguments nothing is known.
fn one_unknown(first: Info, second: Info) -> bool
    ensures { result ≡ (is_nothing first || is_nothing second) }
{
    is_nothing(first) || is_nothing(second)
}

/// Whether it is open which of two arguments is less: some numbers of the first are less than some
/// of the second, and some are not, or of one nothing is known.
fn are_mixed(first: Info, second: Info) -> bool
    ensures { result ≡ are_mixed first second }
{
    match (first, second) {
        (Info::Span(x), Info::Span(y)) => y.lo() <= x.hi() && x.lo() < y.hi(),
        _ => one_unknown(first, second),
    }
}

/// Whether it is seen of two arguments that a rule answers nothing.
fn is_silent_of_two(rule: Kit, first: Info, second: Info) -> bool
    ensures { result ≡ is_silent_of_two rule first second }
{
    match rule {
        Kit::Root => is_nothing(first),
        Kit::Less => are_mixed(first, second),
        Kit::Below | Kit::Above => !is_settled(first) || is_nothing(second),
        Kit::Switch => !is_just(first, YES) || is_nothing(second),
        Kit::And => one_unknown(first, second) && may_be_yes(first) && may_be_yes(second),
        Kit::AndBack => one_unknown(first, second) && may_be_no(first) && is_truth(second),
        Kit::Or => one_unknown(first, second) && may_be_no(first) && may_be_no(second),
        Kit::OrBack => one_unknown(first, second) && may_be_yes(first) && is_truth(second),
        _ => one_unknown(first, second),
    }
}

/// Whether it is seen of three arguments that a rule answers nothing.
fn is_silent_of_three(rule: Kit, first: Info, second: Info, third: Info) -> bool
    ensures { result ≡ is_silent_of_three rule first second third }
{
    match rule {
        Kit::Apart => !is_just(first, NO) || !is_single(second) || is_nothing(third),
        _ => is_nothing(first) || is_nothing(second) || is_nothing(third),
    }
}

/// Whether `x` is one number alone and no end of `y`, or another symbol than `y`.
fn is_inside(x: Info, y: Info) -> bool
    ensures { result ≡ is_inside x y }
{
    match (x, y) {
        (Info::Span(x), Info::Span(y)) => {
            x.lo() == x.hi() && y.lo() != x.lo() && y.hi() != x.lo()
        }
        (Info::Sym(x), Info::Sym(y)) => x != y,
        _ => false,
    }
}

impl Guarded for Kit {
    ghost is_silent = { λ rule param args. is_silent rule args };

    ghost is_repeated = { λ rule param args. is_repeated rule args };

    ghost own_of = { own_of };

    ghost ruled_out = { λ rule param args place. ruled_out rule args place };

    fn says_nothing(&self, _param: &Param, args: &[Info]) -> bool {
        match args {
            [first, second] => is_silent_of_two(*self, *first, *second),
            [first, second, third] => is_silent_of_three(*self, *first, *second, *third),
            _ => some_unknown(args),
        }
    }

    fn repeats(&self, _param: &Param, args: &[Info]) -> bool {
        match self {
            Kit::Apart => match args {
                [t, x, y] => is_just(*t, NO) && is_inside(*x, *y),
                _ => false,
            },
            _ => false,
        }
    }

    fn own_place(&self) -> Option<usize> {
        match self {
            Kit::Root => Some(1),
            Kit::Apart => Some(2),
            _ => None,
        }
    }

    fn rules_out(&self, _param: &Param, args: &[Info], place: usize) -> Option<i64> {
        match self {
            Kit::Apart => match args {
                [t, x, _] if place == 1 && is_just(*t, NO) => number_of(*x),
                _ => None,
            },
            _ => None,
        }
    }

    fn heeds(&self, place: usize, _count: usize) -> Changes {
        match (self, place) {
            (Kit::Below | Kit::Above | Kit::Switch | Kit::Apart, 0) => POINT,
            (Kit::Apart, 1) => POINT,
            (Kit::Apart, _) => ENDS,
            (Kit::Not | Kit::And | Kit::AndBack | Kit::Or | Kit::OrBack, _) => POINT,
            (Kit::Copy | Kit::Alike | Kit::Switch | Kit::Image | Kit::Coimage, _) => Changes::ALL,
            _ => ENDS,
        }
    }

    fn heeds_under(&self, place: usize, count: usize, element: u64) -> Changes {
        match (self, place) {
            (Kit::Below, 1) if element == YES => HIGH,
            (Kit::Below, 1) if element == NO => LOW,
            (Kit::Above, 1) if element == YES => LOW,
            (Kit::Above, 1) if element == NO => HIGH,
            _ => self.heeds(place, count),
        }
    }

    fn waits_for(&self) -> Option<usize> {
        match self {
            Kit::Below | Kit::Above | Kit::Switch | Kit::Apart => Some(0),
            _ => None,
        }
    }

    fn is_dear(&self, _count: usize) -> bool {
        false
    }

    ghost silent = { kit_silent };

    ghost repeated = { kit_repeated };

    ghost own = { kit_own };

    ghost barred = { kit_barred };
}
