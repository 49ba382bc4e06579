//! The rules of excluding, guarded.
ghost use Rattle.std.specs.Prelude.{◌≡◌, nat_lt};
ghost use Rattle.std.specs.List.{list_all};
ghost use Rattle.prop_guards.specs.Excluder.{are_roomy, is_repeated, is_silent, own_of, ruled_out};
ghost use Rattle.prop_guards.specs.Excluder.{ruled_out_beside};
ghost use Rattle.prop_guards.specs.laws.ExcluderLaws.{excluder_barred, excluder_own};
ghost use Rattle.prop_guards.specs.laws.ExcluderLaws.{excluder_repeated, excluder_silent};
ghost use Rattle.prop_hall.specs.Hulls.{points_in};

use crate::guarded::Guarded;
use crate::known::{ENDS, POINT, number_of};
use prop_facts::Changes;
use prop_hall::Excluder;
use prop_lattice::{Info, Kind};
use prop_procedures::Param;

/// The most inputs of a call that takes no longer than others.
const FEW: usize = 4;

/// How many points an information leaves, for nothing one more than for any span.
fn points_in(info: Info) -> u64
    ensures { result ≡ points_in info }
{
    info.rank(Kind::Span, 0)
}

/// Whether each of some informations leaves more points than so many.
fn each_leaves_more(many: u64, infos: &[Info]) -> bool
    ensures { result ≡ list_all (λ a. nat_lt many (points_in a)) infos.now }
{
    infos.iter().all(|info| many < points_in(*info))
}

/// Whether there are so many others, and each leaves more points than that.
fn are_roomy(many: usize, others: &[Info]) -> bool
    ensures { result ≡ are_roomy many others.now }
{
    others.len() == many && each_leaves_more(many as u64, others)
}

/// The number that the argument at this place, beside which there are so many others than `y`,
/// rules out of `y`, the first argument.
fn ruled_out_beside(many: usize, args: &[Info], place: usize) -> Option<i64>
    ensures { result ≡ ruled_out_beside many args.now place }
{
    match args {
        [_, others @ ..] if 0 < place && others.len() == many => match others.get(place - 1) {
            Some(other) => number_of(*other),
            None => None,
        },
        _ => None,
    }
}

impl Guarded for Excluder {
    ghost is_silent = { is_silent };

    ghost is_repeated = { λ rule param args. is_repeated rule args };

    ghost own_of = { own_of };

    ghost ruled_out = { λ rule param args place. ruled_out rule args place };

    fn says_nothing(&self, param: &Param, args: &[Info]) -> bool {
        match (self, param) {
            (Excluder::Eight, Param::Rows(relation)) => {
                0 < relation.from().size && are_roomy(8, args)
            }
            _ => false,
        }
    }

    fn repeats(&self, _param: &Param, args: &[Info]) -> bool {
        match (self, args) {
            (Excluder::Eight, _) | (_, []) => false,
            (rule, [_, others @ ..]) => are_roomy(rule.others(), others),
        }
    }

    fn own_place(&self) -> Option<usize> {
        match self {
            Excluder::Eight => None,
            _ => Some(0),
        }
    }

    fn rules_out(&self, _param: &Param, args: &[Info], place: usize) -> Option<i64> {
        match self {
            Excluder::Eight => None,
            _ => ruled_out_beside(self.others(), args, place),
        }
    }

    fn heeds(&self, place: usize, _count: usize) -> Changes {
        match (self, place) {
            (Excluder::Eight, _) => Changes::ALL,
            (_, 0) => ENDS,
            (Excluder::One, _) => POINT,
            _ => Changes::ALL,
        }
    }

    fn waits_for(&self) -> Option<usize> {
        None
    }

    fn is_dear(&self, count: usize) -> bool {
        FEW < count
    }

    ghost silent = { excluder_silent };

    ghost repeated = { excluder_repeated };

    ghost own = { excluder_own };

    ghost barred = { excluder_barred };
}
