//! Who reads a place, and which changes of it count.

use crate::gate::{Gate, gate_of};
use crate::heeding::{heeded, is_decided_at_root, mirrored};
use crate::present::{Present, is_decided};
use prop_cells::{Instance, Network};
use prop_facts::Changes;
use prop_guards::Guarded;
use prop_trail::{Trail, Waiting};
use std::alloc::{AllocError, Global};

/// An instance that reads a place, the changes of it that it heeds, its gate, and the place that is
/// said by others once it is decided; where there are such.
#[derive(Clone, Copy)]
struct Reader {
    instance: usize,
    heeded: Changes,
    gate: Option<Gate>,
    mirrored: Option<usize>,
}

/// Who reads a place: those that only heed that it is decided, and the others.
#[derive(Drop)]
struct Readers {
    of_points: Vec<Reader>,
    others: Vec<Reader>,
}

/// For each cell, who reads it.
#[derive(Drop)]
pub(crate) struct Wiring {
    readers: Vec<Readers>,
}

/// An instance that reads a cell, its gate, and the place that is said by others.
#[derive(Clone, Copy)]
struct Reading<'a> {
    instance: usize,
    x: &'a Instance,
    cell: usize,
    gate: Option<Gate>,
    mirrored: Option<usize>,
}

impl Reading<'_> {
    /// It heeds these changes where this gate is open.
    fn by(&self, heeded: Changes, gate: Option<Gate>) -> Reader {
        Reader {
            instance: self.instance,
            heeded,
            gate,
            mirrored: self.mirrored,
        }
    }
}

/// The first of these elements, as bits.
fn first_of(elements: u64) -> u64 {
    elements & elements.wrapping_neg()
}

/// Those of these elements with which an instance heeds just these changes of the cell.
fn alike<R: Guarded + Drop>(
    network: &Network<R>,
    trail: &Trail,
    reading: &Reading,
    elements: u64,
    changes: Changes,
) -> u64 {
    let mut alike = 0;
    let mut left = elements;
    for _ in 0..elements.count_ones() {
        let element = first_of(left);
        left &= !element;
        if heeded(network, trail, reading.x, reading.cell, Some(element)) == changes {
            alike |= element;
        }
    }
    alike
}

/// Puts an instance among the readers of a cell: once for all elements that open its gate, where
/// the same changes count with each, and else several times.
fn read<R: Guarded + Drop>(
    network: &Network<R>,
    trail: &Trail,
    reading: &Reading,
    readers: &mut Readers,
) -> Result<(), AllocError> {
    let Some(gate) = reading.gate else {
        let changes = heeded(network, trail, reading.x, reading.cell, None);
        return readers.push(reading.by(changes, None));
    };
    let stands_open = gate.stands_open(trail);
    let mut left = gate.speaks();
    for _ in 0..left.count_ones() {
        if left == 0 {
            return Ok(());
        }
        let element = first_of(left);
        let changes = heeded(network, trail, reading.x, reading.cell, Some(element));
        let elements = element | alike(network, trail, reading, left, changes);
        left &= !elements;
        let gate = match stands_open {
            true => None,
            false => Some(gate.only(elements)),
        };
        readers.push(reading.by(changes, gate))?;
    }
    Ok(())
}

/// Puts an instance among the readers of each of its inputs that it heeds. One that never says what
/// others don't is left out.
fn connect<R: Guarded + Drop>(
    alloc: Global,
    network: &Network<R>,
    trail: &Trail,
    instance: usize,
    readers: &mut [Readers],
) -> Result<(), AllocError> {
    if instance >= network.instances() {
        return Ok(());
    }
    let x = network.data().instance(instance);
    let mirrored = mirrored(network, instance);
    if mirrored.is_some_and(|output| is_decided_at_root(trail, output)) {
        return Ok(());
    }
    let gate = gate_of(alloc, network, trail, x)?;
    if gate.is_some_and(|gate| gate.is_mute()) {
        return Ok(());
    }
    for place in 0..x.inputs().len() {
        let cell = x.inputs()[place];
        if cell < readers.len() && !x.inputs()[..place].contains(&cell) {
            let reading = Reading {
                instance,
                x,
                cell,
                gate,
                mirrored,
            };
            read(network, trail, &reading, &mut readers[cell])?;
        }
    }
    Ok(())
}

impl Readers {
    /// One more, where it heeds anything.
    fn push(&mut self, reader: Reader) -> Result<(), AllocError> {
        let heeded = reader.heeded;
        if heeded.low || heeded.high || heeded.hole {
            self.others.push(reader)?;
        } else if heeded.point {
            self.of_points.push(reader)?;
        }
        Ok(())
    }
}

impl Wiring {
    /// Who reads each cell of a network.
    pub(crate) fn new<R: Guarded + Drop>(
        alloc: Global,
        network: &Network<R>,
        trail: &Trail,
    ) -> Result<Wiring, AllocError> {
        let mut readers = Vec::new(alloc);
        for _ in 0..network.cells() {
            readers.push(Readers {
                of_points: Vec::new(alloc),
                others: Vec::new(alloc),
            })?;
        }
        for instance in 0..network.instances() {
            connect(alloc, network, trail, instance, &mut readers)?;
        }
        Ok(Wiring { readers })
    }

    /// The instances wait that heed such changes of a place, but not where they say nothing until
    /// another place is decided: they will wait then.
    pub(crate) fn wake(
        &self,
        waiting: &mut Waiting,
        present: &Present,
        place: usize,
        changes: Changes,
    ) {
        let Some(readers) = self.readers.get(place) else {
            return;
        };
        wake_all(waiting, present, &readers.others, changes);
        if changes.point {
            wake_all(waiting, present, &readers.of_points, changes);
        }
    }
}

/// Those of these wait that heed such changes.
fn wake_all(waiting: &mut Waiting, present: &Present, readers: &[Reader], changes: Changes) {
    for reader in readers {
        if changes.meets(reader.heeded)
            && !reader.is_shut(present)
            && reader.instance < waiting.instances()
        {
            waiting.wake(reader.instance);
        }
    }
}

impl Reader {
    /// Whether its gate is shut, or others say what it might say.
    fn is_shut(&self, present: &Present) -> bool {
        let is_shut = match self.gate {
            Some(gate) => gate.is_shut(present),
            None => false,
        };
        is_shut
            || match self.mirrored {
                Some(place) => is_decided(present.info(place)),
                None => false,
            }
    }
}
