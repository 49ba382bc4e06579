//! The instances and fresh cells that a use stands for.
ghost use Rattle.std.specs.Prelude.{◌≡◌, ◌<◌, ◌+◌, ◌∷◌, ◌++◌, [], All, length, IfOk, IfSome, OnOk};
ghost use Rattle.prop_procedures.specs.Flats.{cells_of};
ghost use Rattle.prop_compound.specs.Expansion.{cells_at};
ghost use Rattle.prop_compound.specs.inner.Flattened.{IsAdded, IsPlaceIn, ArePlaced, IsFurther};
ghost use Rattle.prop_compound.specs.inner.Frames.{IsOnCells, IsStepTaken, IsBegun};
ghost use Rattle.prop_compound.specs.Kept.{all_bare, IsUseThere};
ghost use Rattle.prop_compound.specs.inner.Kept.{places_made, IsInScope, AreKept};

use crate::definition::{KeptDefinition, NumberedStep, Used};
use crate::walk::{Walk, kind_at, param_place};
use prop_procedures::{Kinded, Placed};
use prop_vocabulary::Vocabulary;
use std::alloc::{AllocError, Global};

/// The cells at these places.
pub(crate) fn cells_at(
    alloc: Global,
    cells: &[usize],
    places: &[usize],
) -> Result<Vec<usize>, AllocError>
    requires { All (λ place. place < length cells.now) places.now }
    ensures { IfOk result (λ chosen. chosen.items ≡ cells_at cells.now places.now) }
{
    let mut chosen = Vec::new(alloc);
    for place in places {
        chosen.push(cells[*place])?;
    }
    Ok(chosen)
}

/// A local of this kind: a fresh cell, which has the next place.
fn add_local(
    kind: Kinded,
    cells: &mut Vec<usize>,
    kinds: &mut Vec<Kinded>,
) -> Result<(), AllocError>
    ensures kinds { OnOk result (kinds.new.items ≡ kinds.old.items ++ kind ∷ []) }
    ensures cells { OnOk result (cells.new.items ≡ cells.old.items ++ length kinds.old.items ∷ []) }
{
    let cell = kinds.len();
    kinds.push(kind)?;
    cells.push(cell)?;
    Ok(())
}

/// The instance of a procedure on these cells, of which the last is the output.
pub(crate) fn placed(procedure: usize, param: Option<usize>, mut cells: Vec<usize>) -> Placed
    requires { 0 < length cells.items }
    ensures procedure { result.procedure ≡ procedure }
    ensures param { result.param ≡ param }
    ensures cells { cells_of result ≡ cells.items }
{
    let output = cells[cells.len() - 1];
    cells.pop();
    Placed {
        procedure,
        param,
        inputs: cells,
        output,
    }
}

/// A definition under way: its number, its next step, its cells by their places so far, and the
/// place of the parameter that it is given.
#[derive(Drop)]
pub(crate) struct Frame {
    pub(crate) number: usize,
    pub(crate) next: usize,
    pub(crate) cells: Vec<usize>,
    pub(crate) given: Option<usize>,
}

/// Takes the next step of a definition under way: adds its cell or its instance, or answers the
/// definition that it uses, before the first step of that.
fn take_step(
    alloc: Global,
    words: &Vocabulary,
    step: &NumberedStep,
    frame: &mut Frame,
    walk: &mut Walk,
) -> Result<Option<Frame>, AllocError>
    requires in_scope { IsInScope (length frame.old.cells.items) step.now }
    requires on_cells { IsOnCells step.now }
    requires given { IsPlaceIn walk.old.params.items frame.old.given }
    requires placed { ArePlaced walk.old }
    ensures frame { frame.new ≡ record frame.old { cells = frame.new.cells } }
    ensures places { OnOk result
        (length frame.new.cells.items ≡ length frame.old.cells.items + places_made step.now) }
    ensures steps { IfOk result
        (IsStepTaken words.now step.now frame.old walk.old frame.new walk.new) }
    ensures used { IfOk result (λ used. IfSome used (IsBegun step.now walk.new)) }
    ensures further { OnOk result (IsFurther walk.old walk.new) }
{
    match step {
        NumberedStep::Local(kind) => {
            add_local(*kind, &mut frame.cells, &mut walk.kinds)?;
            Ok(None)
        }
        NumberedStep::Like(place) => {
            let kind = kind_at(&walk.kinds, frame.cells[*place]);
            add_local(kind, &mut frame.cells, &mut walk.kinds)?;
            Ok(None)
        }
        NumberedStep::Use(used, places, passing) => {
            let cells = cells_at(alloc, &frame.cells, places.as_slice())?;
            let given = param_place(alloc, words, &mut walk.params, frame.given, *passing)?;
            match *used {
                Used::Procedure(procedure) => {
                    walk.instances.push(placed(procedure, given, cells))?;
                    Ok(None)
                }
                Used::Definition(number) => Ok(Some(Frame {
                    number,
                    next: 0,
                    cells,
                    given,
                })),
            }
        }
    }
}

/// Adds the cells and instances that a use of a definition stands for, which is before its first
/// step. While one that it uses is under way a definition waits in a list, so that no use takes
/// more of the stack than another.
pub(crate) fn expand_definition(
    alloc: Global,
    definitions: &[KeptDefinition],
    words: &Vocabulary,
    mut frame: Frame,
    walk: &mut Walk,
) -> Result<(), AllocError>
    requires there { let count = length frame.cells.items in
        IsUseThere (all_bare definitions.now) (Used.Definition frame.number) count }
    requires next { frame.next ≡ 0 }
    requires kept { AreKept definitions.now }
    requires given { IsPlaceIn walk.old.params.items frame.given }
    requires placed { ArePlaced walk.old }
    ensures { let used = Used.Definition frame.number in
        let cells = frame.cells.items in
        let definitions = all_bare definitions.now in
        OnOk result (IsAdded words.now definitions used cells frame.given walk.old walk.new) }
{
    let mut waiting = Vec::new(alloc);
    loop {
        let plan = &definitions[frame.number].plan;
        if frame.next < plan.len() {
            let step = &plan[frame.next];
            frame.next += 1;
            match take_step(alloc, words, step, &mut frame, walk)? {
                Some(used) => {
                    waiting.push(frame)?;
                    frame = used;
                }
                None => {}
            }
        } else {
            match waiting.pop() {
                Some(last) => frame = last,
                None => return Ok(()),
            }
        }
    }
}
