//! What is told of how good an answer can still be.
ghost use Rattle.std.specs.Prelude.{◌≡◌, ◌<◌, IfSome, IsTrue, Some, length, slice_get};
ghost use Rattle.prop_procedures.specs.Fitting.{kind_at};
ghost use Rattle.prop_seeking.specs.inner.Bounds.{Bounds, IsWithin};

use prop_cells::Cells;
use prop_lattice::{Info, Kind, Span};
use prop_solve::{Goal, Plan};

/// Whether a cell is there, and for numbers.
fn is_number(cells: &Cells, cell: usize) -> bool
    ensures { IsTrue result → (cell < length cells.now.kinds)
        × ((kind_at cells.now.kinds cell).kind ≡ Kind.Span) }
{
    if cell >= cells.len() {
        return false;
    }
    match cells.kind(cell).kind {
        Kind::Span => true,
        _ => false,
    }
}

/// The span of a cell, where its value is one.
fn span_at(values: &[Info], cell: usize) -> Option<Span>
    ensures { IfSome result (λ span. slice_get values.now cell ≡ Some (Info.Span span)) }
{
    match *values.get(cell)? {
        Info::Span(span) => Some(span),
        _ => None,
    }
}

/// Whether the number of a plan is no better than an end of this cell that is asked for.
fn is_no_better(goal: Goal, cell: usize, found: Span, end: i64) -> bool
    ensures { IsTrue result → IsWithin goal cell found end }
{
    match goal {
        Goal::Least(place) if place == cell => end <= found.lo(),
        Goal::Greatest(place) if place == cell => found.hi() <= end,
        _ => false,
    }
}

/// The cell of which an end is asked for.
fn cell_of(goal: Goal) -> Option<usize> {
    match goal {
        Goal::Least(cell) | Goal::Greatest(cell) => Some(cell),
        _ => None,
    }
}

/// The number alone, where an end of this cell is asked for, and that of the plan is no better.
pub(crate) fn bounding(cells: &Cells, goal: Goal, plan: &Plan, end: i64) -> Option<(usize, Info)>
    ensures { IfSome result (λ told.
        Bounds cells.now.kinds goal plan.now.values.items end told.0 told.1) }
{
    let cell = cell_of(goal)?;
    if !is_number(cells, cell) {
        return None;
    }
    let found = span_at(&plan.values, cell)?;
    if !is_no_better(goal, cell, found, end) {
        return None;
    }
    let alone = Span::new(end, end)?;
    Some((cell, Info::Span(alone)))
}
