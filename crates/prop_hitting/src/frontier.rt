//! Which sets that hit all conflicts are still to be looked at.
ghost use Rattle.std.specs.Prelude.{◌≡◌, List, ℕ, [], IfOk, IsTrue, OnOk};
ghost use Rattle.std.specs.List.{list_any};
ghost use Rattle.prop_numbers.specs.Sets.{Members, set_of, IsPart};
ghost use Rattle.prop_hitting.specs.Costs.{AreDear};
ghost use Rattle.prop_hitting.specs.Hitting.{HitsAll, IsLean};
ghost use Rattle.prop_hitting.specs.Frontiers.{AreSought, IsNext};
ghost use Rattle.prop_hitting.specs.inner.Nodes.{IsIn, IsOneOf};

use crate::conflict::{Conflict, has_all_of_one, missed};
use crate::node::Node;
use crate::price::cost;
use prop_premises::PremiseSet;
use std::alloc::{AllocError, Global};

/// The sets that are still looked for.
#[derive(Drop)]
pub struct Frontier {
    alloc: Global,
    nodes: Vec<Node>,
}

/// What a step comes to.
#[derive(Drop)]
pub enum Step {
    /// A set that hits all conflicts, and needs each of its premises for that.
    Found(PremiseSet),
    /// It goes on.
    Open,
    /// Each set that hits all conflicts has all of a repair.
    Over,
}

/// The set, but for premises that it doesn't need to hit all conflicts.
fn lean(set: &PremiseSet, conflicts: &[Conflict]) -> Result<PremiseSet, AllocError>
    requires { HitsAll (set_of set.now) conflicts.now }
    ensures hits { IfOk result (λ s. HitsAll (set_of s) conflicts.now) }
    ensures part { IfOk result (λ s. IsPart (set_of s) (set_of set.now)) }
    ensures lean { IfOk result (IsLean conflicts.now) }
{
    let mut kept = set.copy()?;
    for premise in set.iter() {
        let less = kept.without(premise)?;
        match missed(&less, conflicts) {
            None => kept = less,
            Some(_) => {}
        }
    }
    Ok(kept)
}

impl Frontier {
    /// All sets are looked for.
    pub fn new(alloc: Global) -> Result<Frontier, AllocError>
        ensures { IfOk result (λ f. (conflicts : List Conflict) (repairs : List (List ℕ))
            → AreSought conflicts repairs f) }
    {
        let mut nodes = Vec::new(alloc);
        nodes.push(Node::all(alloc))?;
        Ok(Frontier { alloc, nodes })
    }

    /// Looks at one set more, or at those that hit one conflict more. After want of memory nothing
    /// is known of what is looked for.
    pub fn step(
        &mut self,
        conflicts: &[Conflict],
        repairs: &[PremiseSet],
    ) -> Result<Step, AllocError>
        requires sought { AreSought conflicts.now repairs.now self.old }
        ensures sought { OnOk result (AreSought conflicts.now repairs.now self.new) }
        ensures next { IfOk result (IsNext conflicts.now repairs.now) }
    {
        let Some(node) = self.nodes.pop() else {
            return Ok(Step::Over);
        };
        if has_all_of_one(&node.hit, repairs) {
            return Ok(Step::Open);
        }
        match missed(&node.hit, conflicts) {
            Some(conflict) => {
                self.split(node, &conflict.premises)?;
                Ok(Step::Open)
            }
            None => {
                let found = lean(&node.hit, conflicts)?;
                self.nodes.push(node)?;
                Ok(Step::Found(found))
            }
        }
    }

    /// What a set costs at the least that is still looked for; where none is, more than any costs.
    pub fn floor(&self, weights: &[u32]) -> u64
        ensures { (conflicts : List Conflict) (repairs : List (List ℕ))
            → AreSought conflicts repairs self.now → AreDear conflicts repairs weights.now result }
    {
        let mut least = u64::MAX;
        for node in &self.nodes {
            least = least.min(cost(weights, &node.hit));
        }
        least
    }

    /// Those that may cost the least are looked at next. After want of memory nothing is known of
    /// what is looked for.
    pub fn lift(&mut self, weights: &[u32]) -> Result<(), AllocError>
        ensures { OnOk result ((conflicts : List Conflict) (repairs : List (List ℕ))
            → AreSought conflicts repairs self.old → AreSought conflicts repairs self.new) }
    {
        let place = self.cheapest(weights);
        if place >= self.nodes.len() {
            return Ok(());
        }
        let node = self.nodes.remove(place);
        self.nodes.push(node)?;
        Ok(())
    }

    /// The place of the node of which the sets may cost the least: of those, the last.
    fn cheapest(&self, weights: &[u32]) -> usize {
        let mut place = 0;
        let mut least = u64::MAX;
        for (number, node) in self.nodes.iter().enumerate() {
            let cost = cost(weights, &node.hit);
            if cost <= least {
                place = number;
                least = cost;
            }
        }
        place
    }

    /// Of the sets of a node those are looked for that have some premise of the conflict: by the
    /// first of them that they have.
    fn split(&mut self, node: Node, conflict: &PremiseSet) -> Result<(), AllocError>
        ensures kept { OnOk result ((h : Members) → IsOneOf h self.old.nodes.items
            → IsOneOf h self.new.nodes.items) }
        ensures split { OnOk result ((h : Members) → IsTrue (list_any h conflict.now)
            → IsIn node h → IsOneOf h self.new.nodes.items) }
    {
        let alloc = self.alloc;
        let mut rest = node;
        for premise in conflict.iter() {
            if !rest.lacks(premise) {
                self.nodes.push(rest.having(alloc, premise)?)?;
                rest = rest.lacking(alloc, premise)?;
            }
        }
        Ok(())
    }
}
