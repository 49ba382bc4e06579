//! Making what a use stands for in a network: fresh cells, parameters and instances, which wait.
//! All of them are made or none.
ghost use Rattle.std.specs.Prelude.{◌≡◌, ◌≤◌, ◌<◌, ◌^◌, ◌+◌, ◌-◌, ◌++◌, ◌∷◌, [], ◌⊎◌, ℕ, List, All};
ghost use Rattle.std.specs.Prelude.{Contains, None, Some, drop, length, map, IfOk, IfErr, OnOk};
ghost use Rattle.std.specs.Prelude.{OnErr};
ghost use Rattle.prop_refusals.specs.Refusals.{most};
ghost use Rattle.prop_refusals.specs.declared.refusal.Limit.TheVariants.{Cells, Instances};
ghost use Rattle.prop_procedures.specs.Flats.{cell_placed};
ghost use Rattle.prop_procedures.specs.Kept.{stored_of};
ghost use Rattle.prop_contents.specs.Knowing.{known_at};
ghost use Rattle.prop_cells.specs.Data.{Data as Held, IsKept, IsWellMade};
ghost use Rattle.prop_cells.specs.inner.Problems.{Premises};
ghost use Rattle.prop_cells.specs.inner.Back.{GoesBackTo};
ghost use Rattle.prop_cells.specs.Refusing.{cell_refusal};
ghost use Rattle.prop_scheduler.specs.Making.{room_refusal, made_of, with_fresh_cells, with_flat};
ghost use Rattle.prop_scheduler.specs.Making.{MayBeMade, MayMake};
ghost use Rattle.prop_scheduler.specs.inner.Making.{param_number};
ghost use Rattle.prop_scheduler.specs.Agendas.{all_alerted, numbers_below};
ghost use Rattle.prop_scheduler.specs.Shifts.{AreMade};
ghost use Rattle.prop_scheduler.specs.Live.{cells_of, line_of, library_of, IsLiveIn};

use crate::agenda::Agenda;
use crate::live::Live;
use prop_cells::{Known, Network};
use prop_lattice::{Limit, Refusal};
use prop_procedures::{Flat, Kinded, Param, Placed, Rule};
use std::alloc::Global;

/// Makes a cell of this kind. Refused as by `Network::new_cell`, it makes nothing.
pub fn new_cell<R: Rule + Drop>(live: &mut Live<R>, kind: Kinded) -> Result<(), Refusal>
    requires kept { IsKept (library_of R.value_of live.old) (cells_of live.old) }
    ensures same { live.new.network.library ≡ live.old.network.library }
    ensures line { line_of live.new ≡ line_of live.old }
    ensures alive { (s : Premises) → IsLiveIn R.value_of s live.old
        → IsLiveIn R.value_of s live.new }
    ensures fits { OnOk result (cell_refusal (cells_of live.old) ≡ None) }
    ensures ok { OnOk result (cells_of live.new ≡ with_fresh_cells (cells_of live.old)
        (kind ∷ [])) }
    ensures err { IfErr result (λ e. (cell_refusal (cells_of live.old) ≡ Some e)
        ⊎ (e ≡ Refusal.Memory)) }
    ensures err_same { OnErr result (cells_of live.new ≡ cells_of live.old) }
{
    room_for_cell(&live.network, &mut live.agenda, &mut live.seen.known)?;
    let Kinded { kind, size } = kind;
    live.network.new_cell(kind, size)
}

/// Makes room to watch one more cell and to know what is believed of it, where there can be one
/// more. Refused with 90, it changes nothing.
fn room_for_cell<R: Rule + Drop>(
    network: &Network<R>,
    agenda: &mut Agenda,
    known: &mut Known,
) -> Result<(), Refusal>
    ensures known { (cell : ℕ) → known_at known.new cell ≡ known_at known.old cell }
    ensures line { agenda.new.line ≡ agenda.old.line }
    ensures room { agenda.new.room ≡ agenda.old.room }
    ensures watched { agenda.new.watched ≡ agenda.old.watched }
    ensures more { agenda.old.cells ≤ agenda.new.cells }
    ensures cells { OnOk result (length network.now.cells.kinds < most Cells
        → length network.now.cells.kinds + 1 ≤ agenda.new.cells) }
    ensures err { IfErr result (λ e. e ≡ Refusal.Memory) }
{
    let count = network.cells();
    if count >= Limit::Cells.most() {
        return Ok(());
    }
    agenda.room_to_watch(count + 1)?;
    known.room(count + 1)?;
    Ok(())
}

/// The numbers that the fresh cells, the parameters and the instances of a use begin with.
#[derive(Clone, Copy)]
struct Base {
    cell: usize,
    param: usize,
    instance: usize,
}

/// The number of the cell at a place: these cells have the first places, and the fresh ones,
/// numbered from `next` on, those behind.
fn cell_placed(cells: &[usize], next: usize, place: usize) -> usize
    requires { next + (place - length cells.now) < 2 ^ 64 }
    ensures { result ≡ cell_placed cells.now next place }
{
    if place < cells.len() {
        cells[place]
    } else {
        next + (place - cells.len())
    }
}

/// The numbers of the cells at these places, in the list of the places. It takes no memory.
fn cells_placed(cells: &[usize], next: usize, mut places: Vec<usize>) -> Vec<usize>
    requires { All (λ place. next + (place - length cells.now) < 2 ^ 64) places.items }
    ensures { result.items ≡ map (cell_placed cells.now next) places.items }
{
    for i in 0..places.len() {
        places[i] = cell_placed(cells, next, places[i]);
    }
    places
}

/// The number of the parameter at a place, where there are `count` and those of the use begin with
/// `first`.
fn param_number(first: usize, count: usize, place: Option<usize>) -> Option<usize>
    requires { first ≤ count }
    ensures { result ≡ param_number first count place }
{
    match place {
        Some(place) if place < count - first => Some(first + place),
        _ => None,
    }
}

/// Makes cells of these kinds.
fn make_cells<R: Rule + Drop>(network: &mut Network<R>, fresh: &[Kinded]) -> Result<(), Refusal>
    requires kept { IsKept (stored_of R.value_of network.old.library) network.old.cells }
    requires room { length network.old.cells.kinds + length fresh.now ≤ most Cells }
    ensures same { network.new.library ≡ network.old.library }
    ensures kept { IsKept (stored_of R.value_of network.new.library) network.new.cells }
    ensures ok { OnOk result (network.new.cells ≡ with_fresh_cells network.old.cells fresh.now) }
    ensures err { IfErr result (λ e. e ≡ Refusal.Memory) }
    ensures back { (before : Held) → IsWellMade before → GoesBackTo before network.old.cells
        → GoesBackTo before network.new.cells }
{
    for kind in fresh {
        network.new_cell(kind.kind, kind.size)?;
    }
    Ok(())
}

/// Adds these parameters.
fn add_params<R: Rule + Drop>(network: &mut Network<R>, params: Vec<Param>) -> Result<(), Refusal>
    requires kept { IsKept (stored_of R.value_of network.old.library) network.old.cells }
    ensures same { network.new.library ≡ network.old.library }
    ensures kept { IsKept (stored_of R.value_of network.new.library) network.new.cells }
    ensures ok { OnOk result (network.new.cells
        ≡ record network.old.cells { params = network.old.cells.params ++ params.items }) }
    ensures err { IfErr result (λ e. e ≡ Refusal.Memory) }
    ensures back { (before : Held) → GoesBackTo before network.old.cells
        → GoesBackTo before network.new.cells }
{
    for param in params {
        network.add_param(param)?;
    }
    Ok(())
}

/// Makes an instance that stands at places among these cells and the fresh ones.
fn make_instance<R: Rule + Drop>(
    alloc: Global,
    network: &mut Network<R>,
    cells: &[usize],
    base: Base,
    x: Placed,
) -> Result<(), Refusal>
    requires kept { IsKept (stored_of R.value_of network.old.library) network.old.cells }
    requires params { base.param ≤ length network.old.cells.params }
    requires may { MayBeMade (stored_of R.value_of network.old.library) network.old.cells.kinds
        (drop base.param network.old.cells.params) cells.now base.cell x }
    requires room { length network.old.cells.instances < most Instances }
    ensures same { network.new.library ≡ network.old.library }
    ensures kept { IsKept (stored_of R.value_of network.new.library) network.new.cells }
    ensures ok { OnOk result (network.new.cells
        ≡ record network.old.cells {
          instances = network.old.cells.instances ++ made_of
              (stored_of R.value_of network.old.library) (drop base.param network.old.cells.params)
              cells.now base.cell x ∷ [];
        }) }
    ensures err { IfErr result (λ e. e ≡ Refusal.Memory) }
    ensures err_same { OnErr result (network.new.cells ≡ network.old.cells) }
{
    let Placed {
        procedure,
        param,
        inputs,
        output,
    } = x;
    let inputs = cells_placed(cells, base.cell, inputs);
    let output = cell_placed(cells, base.cell, output);
    let param = param_number(base.param, network.data().params().len(), param);
    network.attach_fitting(alloc, procedure, param, inputs, output)
}

/// Makes these instances.
fn make_instances<R: Rule + Drop>(
    alloc: Global,
    network: &mut Network<R>,
    cells: &[usize],
    base: Base,
    instances: Vec<Placed>,
) -> Result<(), Refusal>
    requires kept { IsKept (stored_of R.value_of network.old.library) network.old.cells }
    requires params { base.param ≤ length network.old.cells.params }
    requires may { All (MayBeMade (stored_of R.value_of network.old.library) network.old.cells.kinds
        (drop base.param network.old.cells.params) cells.now base.cell) instances.items }
    requires room { length network.old.cells.instances + length instances.items ≤ most Instances }
    ensures same { network.new.library ≡ network.old.library }
    ensures kept { IsKept (stored_of R.value_of network.new.library) network.new.cells }
    ensures ok { OnOk result (network.new.cells
        ≡ record network.old.cells {
          instances = network.old.cells.instances ++ map
              (made_of (stored_of R.value_of network.old.library)
              (drop base.param network.old.cells.params) cells.now base.cell) instances.items;
        }) }
    ensures err { IfErr result (λ e. e ≡ Refusal.Memory) }
    ensures back { (before : Held) → GoesBackTo before network.old.cells
        → GoesBackTo before network.new.cells }
{
    for x in instances {
        make_instance(alloc, network, cells, base, x)?;
    }
    Ok(())
}

/// Makes the cells, the parameters and the instances of a use, up to the first for which memory is
/// refused.
fn make_some<R: Rule + Drop>(
    alloc: Global,
    network: &mut Network<R>,
    cells: &[usize],
    base: Base,
    flat: Flat,
) -> Result<(), Refusal>
    requires kept { IsKept (stored_of R.value_of network.old.library) network.old.cells }
    requires cell { base.cell ≡ length network.old.cells.kinds }
    requires param { base.param ≡ length network.old.cells.params }
    requires may { MayMake (stored_of R.value_of network.old.library) network.old.cells cells.now
        flat }
    requires few_cells { length network.old.cells.kinds + length flat.fresh.items ≤ most Cells }
    requires few_instances { length network.old.cells.instances + length flat.instances.items ≤ most
        Instances }
    ensures same { network.new.library ≡ network.old.library }
    ensures kept { IsKept (stored_of R.value_of network.new.library) network.new.cells }
    ensures ok { OnOk result (network.new.cells ≡ with_flat
        (stored_of R.value_of network.old.library) network.old.cells cells.now flat) }
    ensures err { IfErr result (λ e. e ≡ Refusal.Memory) }
    ensures back { GoesBackTo network.old.cells network.new.cells }
{
    let Flat {
        fresh,
        params,
        instances,
    } = flat;
    let made = make_cells(network, &fresh);
    drop(fresh);
    if let Err(refusal) = made {
        drop(params);
        drop(instances);
        return Err(refusal);
    }
    if let Err(refusal) = add_params(network, params) {
        drop(instances);
        return Err(refusal);
    }
    make_instances(alloc, network, cells, base, instances)
}

/// Makes what a use on these cells stands for, for which there is room. Refused with 90, it makes
/// nothing.
fn make_all<R: Rule + Drop>(
    alloc: Global,
    network: &mut Network<R>,
    cells: &[usize],
    flat: Flat,
) -> Result<(), Refusal>
    requires kept { IsKept (stored_of R.value_of network.old.library) network.old.cells }
    requires may { MayMake (stored_of R.value_of network.old.library) network.old.cells cells.now
        flat }
    requires few_cells { length network.old.cells.kinds + length flat.fresh.items ≤ most Cells }
    requires few_instances { length network.old.cells.instances + length flat.instances.items ≤ most
        Instances }
    ensures same { network.new.library ≡ network.old.library }
    ensures kept { IsKept (stored_of R.value_of network.new.library) network.new.cells }
    ensures ok { OnOk result (network.new.cells ≡ with_flat
        (stored_of R.value_of network.old.library) network.old.cells cells.now flat) }
    ensures err { IfErr result (λ e. e ≡ Refusal.Memory) }
    ensures err_same { OnErr result (network.new.cells ≡ network.old.cells) }
{
    let base = Base {
        cell: network.cells(),
        param: network.data().params().len(),
        instance: network.instances(),
    };
    match make_some(alloc, network, cells, base, flat) {
        Ok(()) => Ok(()),
        Err(refusal) => {
            network.back(base.cell, base.param, base.instance);
            Err(refusal)
        }
    }
}

/// Makes the instances with these numbers wait.
fn alert_between(agenda: &mut Agenda, first: usize, end: usize)
    requires order { first ≤ end }
    requires room { end ≤ agenda.old.room }
    ensures line { agenda.new.line ≡ all_alerted agenda.old.line (drop first (numbers_below end)) }
    ensures before { (i : ℕ) → Contains agenda.old.line i → Contains agenda.new.line i }
    ensures alerted { (i : ℕ) → first ≤ i → i < end → Contains agenda.new.line i }
    ensures below { (n : ℕ) → end ≤ n → All (λ i. i < n) agenda.old.line
        → All (λ i. i < n) agenda.new.line }
    ensures room { agenda.new.room ≡ agenda.old.room }
    ensures watched { agenda.new.watched ≡ agenda.old.watched }
    ensures cells { agenda.new.cells ≡ agenda.old.cells }
{
    for instance in first..end {
        agenda.alert(instance);
    }
}

/// Makes room for the cells and instances of a use, or tells which limit they pass.
fn make_room<R: Rule + Drop>(
    network: &Network<R>,
    agenda: &mut Agenda,
    known: &mut Known,
    flat: &Flat,
) -> Result<(), Refusal>
    ensures known { (cell : ℕ) → known_at known.new cell ≡ known_at known.old cell }
    ensures line { agenda.new.line ≡ agenda.old.line }
    ensures more { agenda.old.room ≤ agenda.new.room }
    ensures watched { agenda.new.watched ≡ agenda.old.watched }
    ensures more_cells { agenda.old.cells ≤ agenda.new.cells }
    ensures cells { OnOk result (length network.now.cells.kinds + length
        flat.now.fresh.items ≤ agenda.new.cells) }
    ensures room { OnOk result (length network.now.cells.instances + length
        flat.now.instances.items ≤ agenda.new.room) }
    ensures fits { OnOk result (room_refusal
        (length network.now.cells.kinds + length flat.now.fresh.items)
        (length network.now.cells.instances + length flat.now.instances.items) ≡ None) }
    ensures err { IfErr result (λ e.
        (room_refusal (length network.now.cells.kinds + length flat.now.fresh.items)
        (length network.now.cells.instances + length flat.now.instances.items) ≡ Some e)
        ⊎ (e ≡ Refusal.Memory)) }
{
    let cells = network.cells().saturating_add(flat.fresh.len());
    if cells > Limit::Cells.most() {
        return Err(Refusal::LimitReached(Limit::Cells));
    }
    let count = network.instances().saturating_add(flat.instances.len());
    if count > Limit::Instances.most() {
        return Err(Refusal::LimitReached(Limit::Instances));
    }
    if agenda.room_to_watch(cells).is_err() || agenda.room(count).is_err() {
        return Err(Refusal::Memory);
    }
    known.room(cells)?;
    Ok(())
}

/// Makes what a use on these cells stands for, and its instances wait. Refused, it makes nothing:
/// with 16 for more cells or instances than there can be, with 90.
pub fn make<R: Rule + Drop>(live: &mut Live<R>, cells: &[usize], flat: Flat) -> Result<(), Refusal>
    requires kept { IsKept (library_of R.value_of live.old) (cells_of live.old) }
    requires may { length (cells_of live.old).kinds + length flat.fresh.items ≤ most Cells
        → MayMake (library_of R.value_of live.old) (cells_of live.old) cells.now flat }
    ensures same { live.new.network.library ≡ live.old.network.library }
    ensures alive { (s : Premises) → IsLiveIn R.value_of s live.old
        → IsLiveIn R.value_of s live.new }
    ensures fits { OnOk result (room_refusal
        (length (cells_of live.old).kinds + length flat.fresh.items)
        (length (cells_of live.old).instances + length flat.instances.items) ≡ None) }
    ensures ok { OnOk result (cells_of live.new ≡ with_flat (library_of R.value_of live.old)
        (cells_of live.old) cells.now flat) }
    ensures err { IfErr result (λ e.
        (room_refusal (length (cells_of live.old).kinds + length flat.fresh.items)
        (length (cells_of live.old).instances + length flat.instances.items) ≡ Some e)
        ⊎ (e ≡ Refusal.Memory)) }
    ensures err_same { OnErr result (cells_of live.new ≡ cells_of live.old) }
    ensures made { OnOk result (AreMade (cells_of live.old) (cells_of live.new)
        (line_of live.old) (line_of live.new)) }
    ensures err_line { OnErr result (line_of live.new ≡ line_of live.old) }
{
    if let Err(refusal) = make_room(&live.network, &mut live.agenda, &mut live.seen.known, &flat) {
        drop(flat);
        return Err(refusal);
    }
    let first = live.network.instances();
    make_all(live.alloc, &mut live.network, cells, flat)?;
    alert_between(&mut live.agenda, first, live.network.instances());
    Ok(())
}
