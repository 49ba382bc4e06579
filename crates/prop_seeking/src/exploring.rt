//! A search of a layer above, for what can't all hold in the session.

ghost use Rattle.std.specs.Prelude.{IfOk, IfSome};
ghost use Rattle.prop_conflicts.specs.Conflicts.{Ground};
ghost use Rattle.prop_conflicts.specs.inner.Explorers.{IsExplored};

use crate::seeker::Seeker;
use prop_conflicts::{Explorer, Wanted};
use prop_guards::Guarded;
use prop_scheduler::Order;
use std::alloc::{AllocError, Global};

/// The search that was begun, or one that begins.
fn begun(alloc: Global, before: Option<Explorer>) -> Result<Explorer, AllocError>
    ensures { IfOk result (λ e. (g : Ground) → IfSome before (IsExplored g) → IsExplored g e) }
{
    match before {
        Some(explorer) => Ok(explorer),
        None => Explorer::new(alloc),
    }
}

impl<R: Guarded + Drop, O: Order + Drop> Seeker<R, O> {
    ghost use Rattle.std.specs.Prelude.{IfOk, IfSome};
    ghost use Rattle.prop_conflicts.specs.inner.Explorers.{IsExplored};
    ghost use Rattle.prop_seeking.specs.inner.Explored.{ground_in};
    ghost use Rattle.prop_seeking.specs.inner.Seekers.{IsReady};

    /// Goes on with a search for conflicts and repairs, or begins one, by as many steps as a line
    /// may take. `AllocError` where memory is refused, and the search is lost.
    pub fn explore(
        &self,
        before: Option<Explorer>,
        wanted: Wanted<'_>,
    ) -> Result<Explorer, AllocError>
        requires ready { IsReady R.value_of self.now }
        requires explored { IfSome before
            (IsExplored (ground_in R.value_of self.now.teller.session)) }
        ensures { IfOk result (IsExplored (ground_in R.value_of self.now.teller.session)) }
    {
        let session = self.teller.session();
        let mut explorer = begun(session.alloc(), before)?;
        let premises = session.search().premises();
        let network = session.live().network();
        explorer.advance(network, premises, wanted, session.limit())?;
        Ok(explorer)
    }
}
