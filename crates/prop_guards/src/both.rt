//! A rule made of two, guarded where both are.
ghost use Rattle.prop_procedures.specs.Both.{either_of};
ghost use Rattle.prop_guards.specs.laws.Both.{either_barred, either_own, either_repeated};
ghost use Rattle.prop_guards.specs.laws.Both.{either_silent};

use crate::guarded::Guarded;
use prop_facts::Changes;
use prop_lattice::Info;
use prop_procedures::{Both, Param};

impl<A: Guarded, B: Guarded> Guarded for Both<A, B> {
    ghost is_silent = { either_of A.is_silent B.is_silent };

    ghost is_repeated = { either_of A.is_repeated B.is_repeated };

    ghost own_of = { either_of A.own_of B.own_of };

    ghost ruled_out = { either_of A.ruled_out B.ruled_out };

    fn says_nothing(&self, param: &Param, args: &[Info]) -> bool {
        match self {
            Both::One(rule) => rule.says_nothing(param, args),
            Both::Two(rule) => rule.says_nothing(param, args),
        }
    }

    fn repeats(&self, param: &Param, args: &[Info]) -> bool {
        match self {
            Both::One(rule) => rule.repeats(param, args),
            Both::Two(rule) => rule.repeats(param, args),
        }
    }

    fn own_place(&self) -> Option<usize> {
        match self {
            Both::One(rule) => rule.own_place(),
            Both::Two(rule) => rule.own_place(),
        }
    }

    fn rules_out(&self, param: &Param, args: &[Info], place: usize) -> Option<i64> {
        match self {
            Both::One(rule) => rule.rules_out(param, args, place),
            Both::Two(rule) => rule.rules_out(param, args, place),
        }
    }

    fn heeds(&self, place: usize, count: usize) -> Changes {
        match self {
            Both::One(rule) => rule.heeds(place, count),
            Both::Two(rule) => rule.heeds(place, count),
        }
    }

    fn heeds_under(&self, place: usize, count: usize, element: u64) -> Changes {
        match self {
            Both::One(rule) => rule.heeds_under(place, count, element),
            Both::Two(rule) => rule.heeds_under(place, count, element),
        }
    }

    fn waits_for(&self) -> Option<usize> {
        match self {
            Both::One(rule) => rule.waits_for(),
            Both::Two(rule) => rule.waits_for(),
        }
    }

    fn is_dear(&self, count: usize) -> bool {
        match self {
            Both::One(rule) => rule.is_dear(count),
            Both::Two(rule) => rule.is_dear(count),
        }
    }

    ghost silent = { either_silent A.value_of B.value_of A.is_silent B.is_silent A.silent
        B.silent };

    ghost repeated = { either_repeated A.value_of B.value_of A.own_of B.own_of A.is_repeated
        B.is_repeated A.repeated B.repeated };

    ghost own = { either_own A.related B.related A.own_of B.own_of A.own B.own };

    ghost barred = { either_barred A.value_of B.value_of A.related B.related A.own_of B.own_of
        A.ruled_out B.ruled_out A.barred B.barred };
}
