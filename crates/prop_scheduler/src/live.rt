//! A network under way: a network with the agenda of what is to be done in it.
ghost use Rattle.std.specs.Prelude.{◌≤◌, length};
ghost use Rattle.prop_numbers.specs.Sets.{set_of};
ghost use Rattle.prop_contents.specs.Knowing.{AreBeliefs};

use crate::agenda::Agenda;
use crate::seen::Seen;
use prop_cells::Network;
use prop_procedures::Rule;
use std::alloc::Global;

/// A network, the instances that wait in it and the cells to look at. The type keeps that there is
/// room for each instance to wait and for each cell to be watched, so neither takes memory, and
/// that what is known of beliefs is what is believed in the worldview that was seen last.
#[derive(Drop)]
pub struct Live<R> {
    pub(crate) alloc: Global,
    pub(crate) network: Network<R>,
    pub(crate) agenda: Agenda,
    pub(crate) seen: Seen,
    pub ghost room: { length network.cells.instances ≤ agenda.room },
    pub ghost cells: { length network.cells.kinds ≤ agenda.cells },
    pub ghost beliefs: { AreBeliefs (set_of seen.worldview) network.cells.contents seen.known },
}

impl<R: Rule + Drop> Live<R> {
    ghost use Rattle.std.specs.Prelude.{◌≡◌, []};
    ghost use Rattle.prop_cells.specs.Data.{no_data};

    /// A network without cells, in which nothing waits. It takes no memory.
    pub fn new(alloc: Global, network: Network<R>) -> Live<R>
        requires empty { network.cells ≡ no_data }
        ensures network { result.network ≡ network }
        ensures agenda { result.agenda ≡ record { line = []; room = 0; watched = []; cells = 0 } }
    {
        Live {
            alloc,
            network,
            agenda: Agenda::new(alloc),
            seen: Seen::new(alloc),
        }
    }

    /// The network: its library, and its cells with what they hold.
    pub fn network(&self) -> &Network<R>
        ensures { result.now ≡ self.now.network }
    {
        &self.network
    }

    /// Where its memory comes from.
    pub fn alloc(&self) -> Global {
        self.alloc
    }
}
