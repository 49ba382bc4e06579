//! Which parts are read.
ghost use Rattle.std.specs.Prelude.{◌≡◌, ◌<◌, ◌==◌, ◌||◌, ◌++◌, ◌∷◌, ℕ, List, All, length};
ghost use Rattle.std.specs.Prelude.{IfOk, OnOk, slice_index_or, false};
ghost use Rattle.std.specs.List.{list_any};
ghost use Rattle.prop_origins.specs.Parts.{Part as OnePart};
ghost use Rattle.prop_origins.specs.Pruned.{pruned, marked_in};
ghost use Rattle.prop_origins.specs.inner.Logs.{IsPartWithin};

use crate::part::Part;
use std::alloc::{AllocError, Global};
use std::collections::VecDeque;

/// The mark of one cell of so many.
fn mark_of(alloc: Global, cells: usize, cell: usize) -> Result<Vec<bool>, AllocError>
    requires { cell < cells }
    ensures count { IfOk result (λ marks. length marks.items ≡ cells) }
    ensures marked { IfOk result (λ marks. (k : ℕ)
        → slice_index_or marks.items k false ≡ (k == cell)) }
{
    let mut marks = Vec::new(alloc);
    marks.resize(cells, false)?;
    marks[cell] = true;
    Ok(marks)
}

/// Marks these cells too.
fn mark(marks: &mut Vec<bool>, cells: &[usize])
    requires { All (λ cell. cell < length marks.old.items) cells.now }
    ensures count { length marks.new.items ≡ length marks.old.items }
    ensures marked { (k : ℕ) → slice_index_or marks.new.items k false
        ≡ slice_index_or marks.old.items k false || list_any (λ cell. cell == k) cells.now }
{
    for cell in cells {
        marks[*cell] = true;
    }
}

/// Keeps a part at a cell that is marked, and marks the cells that it reads. Any other goes.
fn look(part: Part, marks: &mut Vec<bool>, kept: &mut Vec<Part>) -> Result<(), AllocError>
    requires { IsPartWithin (length marks.old.items) part }
    ensures count { length marks.new.items ≡ length marks.old.items }
    ensures step { OnOk result ((behind : List OnePart)
        → kept.old.items ++ pruned (marked_in marks.old.items) (part ∷ behind)
        ≡ kept.new.items ++ pruned (marked_in marks.new.items) behind) }
{
    if marks[part.cell()] {
        mark(marks, part.inputs());
        kept.push(part)?;
        return Ok(());
    }
    drop(part);
    Ok(())
}

/// The parts at the cell, and those at a cell that a part reads which is kept.
pub(crate) fn prune(
    alloc: Global,
    parts: VecDeque<Part>,
    cells: usize,
    cell: usize,
) -> Result<Vec<Part>, AllocError>
    requires cell { cell < cells }
    requires within { All (IsPartWithin cells) parts.items }
    ensures { IfOk result (λ kept. kept.items ≡ pruned (λ c. c == cell) parts.items) }
{
    let mut parts = parts;
    let mut marks = mark_of(alloc, cells, cell)?;
    let mut kept = Vec::new(alloc);
    for _ in 0..parts.len() {
        let Some(part) = parts.pop_front() else {
            break;
        };
        look(part, &mut marks, &mut kept)?;
    }
    Ok(kept)
}
