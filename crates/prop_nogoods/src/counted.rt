//! A nogood beside how many premises it has.
ghost use Rattle.std.specs.Prelude.{◌≡◌, ◌<◌, ◌≤◌, List, ℕ, length, false, All, None, Contains};
ghost use Rattle.std.specs.Prelude.{IsTrue, IfOk, IfSome, vec_capacity, vec_len};
ghost use Rattle.std.specs.List.Sorted.{IsPartitionPoint};
ghost use Rattle.prop_numbers.specs.Sets.{set_of, is_within};
ghost use Rattle.prop_nogoods.specs.Stores.{has_part, staying, lacking, AreBySize};
ghost use Rattle.prop_nogoods.specs.inner.Stores.{IsPartOfNone};

use prop_premises::{Premise, PremiseSet, Worldview};
use std::alloc::{AllocError, Global};
use std::marker::Model;
use std::rc::Rc;

/// A set of premises that can't all be believed, and how many they are.
#[derive(Drop)]
struct Nogood {
    size: u32,
    premises: PremiseSet,
}

impl Model for Nogood {
    ghost Value = { List ℕ };

    ghost view = { λ n. n.premises };

    ghost invariant = { λ n. n.size ≡ length n.premises };
}

/// A set of premises that can't all be believed, with how many they are. Both stand in memory once,
/// in however many lists it is, and a list has a pointer to them alone.
#[derive(Drop)]
pub(crate) struct Counted {
    nogood: Rc<Nogood, Global>,
}

impl Model for Counted {
    ghost Value = { List ℕ };

    ghost view = { λ c. c.nogood.value };
}

impl Counted {
    /// The set, its premises counted.
    pub(crate) fn new(alloc: Global, premises: PremiseSet) -> Result<Counted, AllocError>
        ensures { IfOk result (λ c. c ≡ premises) }
    {
        let mut size = 0;
        for _ in premises.iter() {
            size += 1;
        }
        let nogood = Rc::new(alloc, Nogood { size, premises })?;
        Ok(Counted { nogood })
    }

    /// How many premises the set has.
    #[inline]
    pub(crate) fn size(&self) -> usize
        ensures { result ≡ length self.now }
    {
        self.nogood.size as usize
    }

    /// The same set for one list more.
    pub(crate) fn again(&self) -> Result<Counted, AllocError>
        ensures { IfOk result (λ c. c ≡ self.now) }
    {
        let nogood = self.nogood.clone()?;
        Ok(Counted { nogood })
    }

    /// The set itself.
    #[inline]
    pub(crate) fn premises(&self) -> &PremiseSet
        ensures { result.now ≡ self.now }
    {
        &self.nogood.premises
    }
}

/// The place behind the sets that are no larger than this one.
pub(crate) fn place_of(counted: &[Counted], nogood: &Counted) -> usize
    requires { AreBySize counted.now }
    ensures bound { result ≤ length counted.now }
    ensures between { IsPartitionPoint (λ line. length line ≤ length nogood.now)
        (λ line. length nogood.now < length line) counted.now result }
{
    counted.partition_point(|other| other.size() <= nogood.size())
}

/// Drops the sets that this one is part of, where there may be some.
pub(crate) fn drop_any_larger(counted: &mut Vec<Counted>, nogood: &Counted, has_larger: bool)
    requires none { has_larger ≡ false → IsPartOfNone counted.old.items nogood.now }
    ensures left { counted.new.items ≡ staying counted.old.items nogood.now }
    ensures capacity { vec_capacity counted.new ≡ vec_capacity counted.old }
    ensures len { vec_len counted.new ≤ vec_len counted.old }
{
    if has_larger {
        counted.retain(|larger| !nogood.premises().is_subset(larger.premises()));
    }
}

/// Drops the sets that hold the premise.
pub(crate) fn drop_holding(counted: &mut Vec<Counted>, premise: Premise)
    ensures left { counted.new.items ≡ lacking counted.old.items premise }
    ensures capacity { vec_capacity counted.new ≡ vec_capacity counted.old }
{
    counted.retain(|nogood| !nogood.premises().contains(premise));
}

/// The first set of which every premise is believed in the worldview.
pub(crate) fn first_believed<'a>(
    counted: &'a [Counted],
    worldview: &Worldview,
) -> Option<&'a Counted>
    ensures listed { IfSome result (λ s. Contains counted.now s.now) }
    ensures believed { IfSome result (λ s. IsTrue (is_within (set_of worldview.now) s.now)) }
    ensures smallest { AreBySize counted.now
        → IfSome result (λ s. All (λ line. IsTrue (is_within (set_of worldview.now) line)
        → length s.now ≤ length line) counted.now) }
    ensures none { result ≡ None → has_part counted.now (set_of worldview.now) ≡ false }
{
    counted
        .iter()
        .find(|nogood| worldview.believes(nogood.premises()))
}
