//! What a layer above a seeker reads of its session.

use crate::seeker::Seeker;
use prop_cells::Cells;
use prop_guards::Guarded;
use prop_premises::Premises;
use prop_scheduler::Order;
use prop_vocabulary::{CellNames, Vocabulary};
use std::alloc::Global;

impl<R: Guarded + Drop, O: Order + Drop> Seeker<R, O> {
    ghost use Rattle.std.specs.Prelude.{◌≡◌};

    /// Where its memory comes from.
    pub fn alloc(&self) -> Global {
        self.teller.session().alloc()
    }

    /// The names of the cells.
    pub fn names(&self) -> &CellNames
        ensures { result.now ≡ self.now.teller.session.names }
    {
        self.teller.session().names()
    }

    /// The domains, relations and symbols.
    pub fn words(&self) -> &Vocabulary
        ensures { result.now ≡ self.now.teller.session.words }
    {
        self.teller.session().words()
    }

    /// The cells, with what is stated of them and attached to them.
    pub fn cells(&self) -> &Cells
        ensures { result.now ≡ self.now.teller.session.live.network.cells }
    {
        self.teller.session().live().network().data()
    }

    /// The premises and choices.
    pub fn origins(&self) -> &Premises
        ensures { result.now ≡ self.now.teller.session.search.premises }
    {
        self.teller.session().search().premises()
    }
}
