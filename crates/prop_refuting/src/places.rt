//! The kinds of places.
ghost use Rattle.std.specs.Prelude.{◌≡◌};
ghost use Rattle.prop_plans.specs.Held.{attached_of};
ghost use Rattle.prop_refuting.specs.Places.{kind_at_place};

use prop_cells::Cells;
use prop_lattice::Kind;
use prop_premises::Choice;
use prop_procedures::Kinded;

/// The kind of the values of a place: of a cell, or behind all cells of a choice, which has as many
/// as it has sides. None where there is no such place.
pub fn kind_at_place(cells: &Cells, choices: &[Choice], place: usize) -> Option<Kinded>
    ensures { result ≡ kind_at_place (attached_of cells.now) choices.now place }
{
    if place < cells.len() {
        return Some(cells.kind(place));
    }
    let choice = choices.get(place - cells.len())?;
    Some(Kinded {
        kind: Kind::Set(0),
        size: choice.sides,
    })
}
