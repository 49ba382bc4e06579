//! What a layer above a blamer reads of its session.

use crate::blamer::Blamer;
use prop_cells::Cells;
use prop_guards::Guarded;
use prop_scheduler::Order;
use prop_vocabulary::{CellNames, Vocabulary};
use std::alloc::Global;

impl<R: Guarded + Drop, O: Order + Drop> Blamer<R, O> {
    ghost use Rattle.std.specs.Prelude.{◌≡◌};

    /// Where its memory comes from.
    pub fn alloc(&self) -> Global {
        self.seeker.alloc()
    }

    /// The names of the cells.
    pub fn names(&self) -> &CellNames
        ensures { result.now ≡ self.now.seeker.teller.session.names }
    {
        self.seeker.names()
    }

    /// The domains, relations and symbols.
    pub fn words(&self) -> &Vocabulary
        ensures { result.now ≡ self.now.seeker.teller.session.words }
    {
        self.seeker.words()
    }

    /// The cells, with what is stated of them and attached to them.
    pub fn cells(&self) -> &Cells
        ensures { result.now ≡ self.now.seeker.teller.session.live.network.cells }
    {
        self.seeker.cells()
    }
}
