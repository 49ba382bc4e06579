//! Which informations and statements are the same.
ghost use Rattle.std.specs.Prelude.{◌≡◌, IsTrue};

use prop_cells::Statement;
use prop_lattice::{Info, Partial};

/// Whether both informations say the same.
pub(crate) fn is_same_info(one: Info, other: Info) -> bool
    ensures { IsTrue result → one ≡ other }
{
    one.implies(other) && other.implies(one)
}

/// Whether both say the same of the same cell, under the same premise.
pub(crate) fn is_same_statement(one: &Statement, other: &Statement) -> bool
    ensures { IsTrue result → one.now ≡ other.now }
{
    one.cell == other.cell && one.premise == other.premise && is_same_info(one.info, other.info)
}
