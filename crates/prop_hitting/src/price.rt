//! What it costs to give up premises.
ghost use Rattle.std.specs.Prelude.{◌≡◌, ◌≤◌};
ghost use Rattle.std.specs.List.Sorted.{IsStrictlyIncreasing};
ghost use Rattle.prop_hitting.specs.Costs.{cost, weight};

use prop_premises::{Premise, PremiseSet};

/// What it costs to give up a premise: what stands at its number, or else 1.
fn weight(weights: &[u32], premise: Premise) -> u32
    ensures { result ≡ weight weights.now premise }
{
    match weights.get(usize::from(premise)) {
        Some(weight) => *weight,
        None => 1,
    }
}

/// What it costs to give up the premises of a set: the sum of what each costs.
pub fn cost(weights: &[u32], set: &PremiseSet) -> u64
    ensures sum { result ≡ cost weights.now set.now }
    ensures ordered { IsStrictlyIncreasing set.now }
    ensures most { result ≤ 281_474_976_710_656 }
{
    let mut total: u64 = 0;
    for premise in set.iter() {
        total += u64::from(weight(weights, premise));
    }
    total
}
