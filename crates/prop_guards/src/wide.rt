//! The rules beside the kit's, guarded.
ghost use Rattle.std.specs.Prelude.{◌≡◌, false, None};
ghost use Rattle.prop_guards.specs.Wide.{is_silent, is_silent_of_two, is_silent_of_three, own_of};
ghost use Rattle.prop_guards.specs.laws.WideLaws.{wide_barred, wide_own, wide_repeated};
ghost use Rattle.prop_guards.specs.laws.WideLaws.{wide_silent};
ghost use Rattle.prop_wide.specs.declared.wide.Wide.TheVariants.{Choose};

use crate::guarded::Guarded;
use crate::known::{ENDS, HIGH, LOW, POINT, is_nothing};
use prop_facts::Changes;
use prop_lattice::Info;
use prop_procedures::Param;
use prop_wide::Wide;
use prop_wide::truths::{may_be_no, may_be_yes};

/// Whether it is seen of two arguments that a rule answers nothing.
fn is_silent_of_two(rule: Wide, first: Info, second: Info) -> bool
    ensures { result ≡ is_silent_of_two rule first second }
{
    match rule {
        Wide::Max | Wide::Min => is_nothing(first) && is_nothing(second),
        Wide::MaxBack | Wide::MinBack => is_nothing(first),
        _ => false,
    }
}

/// Whether nothing is known of one of two informations that a truth may choose.
fn may_choose_unknown(t: Info, a: Info, b: Info) -> bool
    ensures { result ≡ is_silent_of_three Choose t a b }
{
    may_be_yes(t) && is_nothing(a) || may_be_no(t) && is_nothing(b)
}

/// Whether it is seen of three arguments that a rule answers nothing.
fn is_silent_of_three(rule: Wide, first: Info, second: Info, third: Info) -> bool
    ensures { result ≡ is_silent_of_three rule first second third }
{
    match rule {
        Wide::Choose => may_choose_unknown(first, second, third),
        Wide::Decide => is_nothing(third) || is_nothing(first) && is_nothing(second),
        _ => false,
    }
}

impl Guarded for Wide {
    ghost is_silent = { λ rule param args. is_silent rule args };

    ghost is_repeated = { λ rule param args. false };

    ghost own_of = { own_of };

    ghost ruled_out = { λ rule param args place. None };

    fn says_nothing(&self, _param: &Param, args: &[Info]) -> bool {
        match args {
            [first, second] => is_silent_of_two(*self, *first, *second),
            [first, second, third] => is_silent_of_three(*self, *first, *second, *third),
            _ => false,
        }
    }

    fn repeats(&self, _param: &Param, _args: &[Info]) -> bool {
        false
    }

    fn own_place(&self) -> Option<usize> {
        match self {
            Wide::AbsBack | Wide::Root | Wide::Divisor => Some(1),
            _ => None,
        }
    }

    fn rules_out(&self, _param: &Param, _args: &[Info], _place: usize) -> Option<i64> {
        None
    }

    fn heeds(&self, place: usize, _count: usize) -> Changes {
        match (self, place) {
            (Wide::Choose, 0) | (Wide::Count, _) => POINT,
            (Wide::Choose | Wide::Decide, _) => Changes::ALL,
            (Wide::CountBack, 0) => ENDS,
            (Wide::CountBack, _) => POINT,
            (Wide::MaxBack, 1) => HIGH,
            (Wide::MinBack, 1) => LOW,
            _ => ENDS,
        }
    }

    fn waits_for(&self) -> Option<usize> {
        None
    }

    // (they stand in trees above many ends, and take the best of what all of these came to)
    fn is_dear(&self, _count: usize) -> bool {
        matches!(self, Wide::Max | Wide::MaxBack | Wide::Min | Wide::MinBack)
    }

    ghost silent = { wide_silent };

    ghost repeated = { wide_repeated };

    ghost own = { wide_own };

    ghost barred = { wide_barred };
}
