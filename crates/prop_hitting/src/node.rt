//! Sets that are looked for together.
ghost use Rattle.std.specs.Prelude.{◌≡◌, IfOk, IsTrue, [], false};
ghost use Rattle.prop_numbers.specs.Sets.{Members};
ghost use Rattle.prop_hitting.specs.inner.Nodes.{IsIn};

use prop_premises::{Premise, PremiseSet};
use std::alloc::{AllocError, Global};

/// The sets that have all premises of the first and none of the second.
#[derive(Drop)]
pub(crate) struct Node {
    pub(crate) hit: PremiseSet,
    pub(crate) out: PremiseSet,
}

impl Node {
    /// All sets.
    pub(crate) fn all(alloc: Global) -> Node
        ensures { (h : Members) → IsIn result h }
    {
        Node {
            hit: PremiseSet::empty(alloc),
            out: PremiseSet::empty(alloc),
        }
    }

    /// Whether it is known that none of the sets has the premise.
    pub(crate) fn lacks(&self, premise: Premise) -> bool
        ensures { IsTrue result → (h : Members) → IsIn self.now h → h premise ≡ false }
    {
        self.out.contains(premise)
    }

    /// Those of the sets that have the premise.
    pub(crate) fn having(&self, alloc: Global, premise: Premise) -> Result<Node, AllocError>
        ensures { IfOk result (λ n. (h : Members) → IsIn self.now h → IsTrue (h premise)
            → IsIn n h) }
    {
        Ok(Node {
            hit: self.hit.union(&PremiseSet::single(alloc, premise)?)?,
            out: self.out.copy()?,
        })
    }

    /// Those of the sets that don't have the premise.
    pub(crate) fn lacking(&self, alloc: Global, premise: Premise) -> Result<Node, AllocError>
        ensures those { IfOk result (λ n. (h : Members) → IsIn self.now h → h premise ≡ false
            → IsIn n h) }
        ensures only { IfOk result (λ n. (h : Members) → IsIn n h → IsIn self.now h) }
        ensures lack { IfOk result (λ n. (h : Members) → IsIn n h → h premise ≡ false) }
    {
        Ok(Node {
            hit: self.hit.copy()?,
            out: self.out.union(&PremiseSet::single(alloc, premise)?)?,
        })
    }
}
