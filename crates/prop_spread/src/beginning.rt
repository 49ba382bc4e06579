//! How a spread begins.

ghost use Rattle.std.specs.Prelude.{◌≡◌, IfOk};
ghost use Rattle.prop_refuting.specs.Nogoods.{Nogood as NogoodOf};
ghost use Rattle.prop_learned.specs.Stores.{IsKeptIn};

use crate::present::Present;
use crate::spread::Spread;
use crate::wiring::Wiring;
use prop_cells::{Cells, Network};
use prop_deriving::sides::Sides;
use prop_facts::widest;
use prop_guards::Guarded;
use prop_lattice::{Info, Kind, Partial};
use prop_learned::store::Store;
use prop_premises::{Choice, Worldview};
use prop_procedures::Rule;
use prop_trail::{Trail, Waiting};
use std::alloc::{AllocError, Global};

/// What is believed of each place where this much is: of a cell what its premises say, of a choice
/// that it takes some side.
fn beliefs_of<R: Rule + Drop>(
    alloc: Global,
    network: &Network<R>,
    choices: &[Choice],
    worldview: &Worldview,
) -> Result<Vec<Info>, AllocError> {
    let mut beliefs = Vec::new(alloc);
    for cell in 0..network.cells() {
        let kind = network.data().kind(cell);
        let all = widest(kind.kind, kind.size);
        beliefs.push(network.belief(cell, worldview).merge(all))?;
    }
    for choice in choices {
        beliefs.push(widest(Kind::Set(0), choice.sides))?;
    }
    Ok(beliefs)
}

/// How many elements each place may have.
fn sizes(alloc: Global, cells: &Cells, choices: &[Choice]) -> Result<Vec<u8>, AllocError> {
    let mut sizes = Vec::new(alloc);
    for cell in 0..cells.len() {
        sizes.push(cells.kind(cell).size)?;
    }
    for choice in choices {
        sizes.push(choice.sides)?;
    }
    Ok(sizes)
}

/// Of each instance whether a call of it is dear.
fn dear<R: Guarded + Drop>(alloc: Global, network: &Network<R>) -> Result<Vec<bool>, AllocError> {
    let mut dear = Vec::new(alloc);
    for instance in 0..network.instances() {
        let x = network.data().instance(instance);
        let count = x.inputs().len();
        let is_dear = match x.procedure() < network.library().len() {
            true => network.library().get(x.procedure()).rule().is_dear(count),
            false => false,
        };
        dear.push(is_dear)?;
    }
    Ok(dear)
}

/// What is woken where a place of the trail changes, and what waits: everything is to be called.
fn woken<R: Guarded + Drop>(
    alloc: Global,
    network: &Network<R>,
    trail: &Trail,
) -> Result<(Wiring, Waiting), AllocError> {
    let dear = dear(alloc, network)?;
    let mut waiting = Waiting::new(alloc, dear)?;
    waiting.wake_all();
    let wiring = Wiring::new(alloc, network, trail)?;
    Ok((wiring, waiting))
}

/// How many elements each of so many places may have, and a store of no nogoods about them.
fn room_for<R: Rule + Drop>(
    alloc: Global,
    network: &Network<R>,
    choices: &[Choice],
    places: usize,
) -> Result<(Vec<u8>, Store), AllocError>
    ensures nogoods { IfOk result (λ made. (g : NogoodOf) → IsKeptIn made.1 g → ⊥) }
{
    let sizes = sizes(alloc, network.data(), choices)?;
    let store = Store::new(alloc, places)?;
    Ok((sizes, store))
}

impl Spread {
    /// What is believed at this root, where nothing is supposed: everything is to be called.
    pub fn new<R: Guarded + Drop>(
        alloc: Global,
        network: &Network<R>,
        choices: &[Choice],
        root: Worldview,
    ) -> Result<Spread, AllocError>
        ensures nogoods { IfOk result (λ s. (g : NogoodOf) → IsKeptIn s.nogoods g → ⊥) }
        ensures root { IfOk result (λ s. s.root ≡ root) }
    {
        let sides = Sides::new(alloc, network, choices)?;
        let beliefs = beliefs_of(alloc, network, choices, &root)?;
        let (sizes, store) = room_for(alloc, network, choices, beliefs.len())?;
        let given = beliefs_of(alloc, network, choices, &Worldview::empty(alloc))?;
        let present = Present::new(alloc, &beliefs, given)?;
        let trail = Trail::new(alloc, beliefs)?;
        let (wiring, waiting) = woken(alloc, network, &trail)?;
        Ok(Spread {
            alloc,
            root,
            sides,
            trail,
            present,
            wiring,
            waiting,
            store,
            sizes,
            clash: None,
            units: Vec::new(alloc),
            seen: 0,
            denied: 0,
        })
    }
}
