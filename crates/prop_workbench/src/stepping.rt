//! What a layer above a session reads of it, and one step of a run.
ghost use Rattle.std.specs.Prelude.{◌≡◌};

use crate::session::Session;
use prop_amb::{Search, Step, step_once};
use prop_procedures::Rule;
use prop_scheduler::{Live, Order};
use prop_vocabulary::{CellNames, Vocabulary};
use std::alloc::{AllocError, Global};

impl<R: Rule + Drop, O: Order + Drop> Session<R, O> {
    ghost use Rattle.std.specs.Prelude.{◌≡◌, ℕ, List, IfOk};
    ghost use Rattle.prop_amb.specs.Stepping.{Steps};
    ghost use Rattle.prop_workbench.specs.Machine.{problem_in};
    ghost use Rattle.prop_workbench.specs.Steps.{Covers};
    ghost use Rattle.prop_workbench.specs.Sessions.{state_of, shown_of, work_of, library_of};
    ghost use Rattle.prop_workbench.specs.Sessions.{IsSound, IsMeant};

    /// Where its memory comes from.
    pub fn alloc(&self) -> Global {
        self.alloc
    }

    /// How many steps a line may take.
    pub fn limit(&self) -> u64
        ensures { result ≡ self.now.limit }
    {
        self.limit
    }

    /// The network under way.
    pub fn live(&self) -> &Live<R>
        ensures { result.now ≡ self.now.live }
    {
        &self.live
    }

    /// The premises, and where the search for the first consistent choices stands.
    pub fn search(&self) -> &Search
        ensures { result.now ≡ self.now.search }
    {
        &self.search
    }

    /// The names of the cells.
    pub fn names(&self) -> &CellNames
        ensures { result.now ≡ self.now.names }
    {
        &self.names
    }

    /// The domains, relations and symbols.
    pub fn words(&self) -> &Vocabulary
        ensures { result.now ≡ self.now.words }
    {
        &self.words
    }

    /// Takes one step of a run, whatever the limit, and tells which, or that none is left. The
    /// state stays; after want of memory a step was taken or none was.
    pub fn step(&mut self) -> Result<Step, AllocError>
        requires means { IsMeant R.value_of self.old }
        requires sound { IsSound R.value_of self.old }
        ensures same { self.new.live.network.library ≡ self.old.live.network.library }
        ensures sound { IsSound R.value_of self.new }
        ensures state { state_of self.new ≡ state_of self.old }
        ensures covers { (named : List (List ℕ)) → Covers (shown_of self.old) named
            → Covers (shown_of self.new) named }
        ensures told { IfOk result (λ step. Steps O.picks (library_of R.value_of self.old)
            (problem_in (library_of R.value_of self.old) (state_of self.old)) (work_of self.old)
            step (work_of self.new)) }
    {
        step_once(&mut self.live, &mut self.search, &mut self.order)
    }
}
