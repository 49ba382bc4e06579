//! What was seen of what is believed, which is kept while the worldview stays.
ghost use Rattle.std.specs.Prelude.{◌≡◌, [], IsTrue, List, OnOk};
ghost use Rattle.prop_numbers.specs.Sets.{set_of, IsSame};
ghost use Rattle.prop_contents.specs.Contents.{Entry};
ghost use Rattle.prop_contents.specs.Knowing.{AreBeliefs};

use prop_cells::{Known, Network};
use prop_premises::{Shift, Worldview};
use prop_procedures::Rule;
use std::alloc::{AllocError, Global};
use std::mem::replace;

/// What is believed of cells in the worldview that was seen last, where it is known.
#[derive(Drop)]
pub(crate) struct Seen {
    pub(crate) worldview: Worldview,
    pub(crate) known: Known,
}

impl Seen {
    /// Nothing is known. It takes no memory.
    pub(crate) fn new(alloc: Global) -> Seen
        ensures { result.known ≡ [] }
    {
        Seen {
            worldview: Worldview::empty(alloc),
            known: Known::new(alloc),
        }
    }

    /// Whether the worldview believes the same.
    fn is_of(&self, worldview: &Worldview) -> bool
        ensures { IsTrue result → IsSame (set_of self.now.worldview) (set_of worldview.now) }
    {
        self.worldview.is_same(worldview)
    }

    /// What is known is from now on what this worldview believes. After want of memory nothing has
    /// changed.
    pub(crate) fn look<R: Rule + Drop>(
        &mut self,
        network: &Network<R>,
        worldview: &Worldview,
    ) -> Result<(), AllocError>
        requires { AreBeliefs (set_of self.old.worldview) network.now.cells.contents
            self.old.known }
        ensures known { AreBeliefs (set_of self.new.worldview) network.now.cells.contents
            self.new.known }
        ensures same { OnOk result (IsSame (set_of self.new.worldview) (set_of worldview.now)) }
    {
        if self.is_of(worldview) {
            return Ok(());
        }
        let seen = worldview.copy()?;
        shift(network, &self.worldview, worldview, &mut self.known);
        self.worldview = seen;
        Ok(())
    }

    /// Takes out what is known of what this worldview believes.
    pub(crate) fn take(&mut self, alloc: Global, worldview: &Worldview) -> Known
        ensures known { (contents : List (List Entry))
            → AreBeliefs (set_of self.old.worldview) contents self.old.known
            → AreBeliefs (set_of worldview.now) contents result }
        ensures none { self.new.known ≡ [] }
    {
        let mut known = replace(&mut self.known, Known::new(alloc));
        if !self.is_of(worldview) {
            known.clear();
        }
        known
    }

    /// Keeps what is known of what this worldview believes. It takes no memory where this worldview
    /// has as many words as the one that was seen; where memory is refused, nothing is known.
    pub(crate) fn keep(&mut self, worldview: &Worldview, known: Known)
        ensures { (contents : List (List Entry))
            → AreBeliefs (set_of worldview.now) contents known
            → AreBeliefs (set_of self.new.worldview) contents self.new.known }
    {
        self.known = known;
        match self.worldview.become_as(worldview) {
            Ok(()) => (),
            Err(_) => self.known.clear(),
        }
    }
}

/// What is known is what the first worldview believes; then it is what the second does. It takes no
/// memory.
fn shift<R: Rule + Drop>(
    network: &Network<R>,
    before: &Worldview,
    after: &Worldview,
    known: &mut Known,
)
    requires { AreBeliefs (set_of before.now) network.now.cells.contents known.old }
    ensures { AreBeliefs (set_of after.now) network.now.cells.contents known.new }
{
    let shift = Shift::new(before, after);
    let count = network.cells();
    let mut cell = network.next_shifted(0, &shift, known);
    while cell < count {
        cell = network.next_shifted(cell + 1, &shift, known);
    }
}
