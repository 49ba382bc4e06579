//! What follows from the definitions alone, whatever the network.
ghost use Rattle.prop_procedures.specs.Kept.{AreSound, stored_of, related_of};
ghost use Rattle.prop_cells.specs.Points.{EntailedHoldsPoints, PointsAreConsistent};
ghost use Rattle.prop_cells.specs.Promises.{LeastIsUnique, EntailmentGrows, ContradictionGrows};
ghost use Rattle.prop_cells.specs.Promises.{EntailedClashRefutes, EntailmentStays};
ghost use Rattle.prop_cells.specs.Promises.{ContradictionStays, ReachStays, RelationStays};

use prop_procedures::{Library, Rule};

/// There is one least solution at most.
pub fn least_solution_is_unique()
    ensures { LeastIsUnique }
{}

/// More premises entail more.
pub fn premises_add()
    ensures entailment { EntailmentGrows }
    ensures contradiction { ContradictionGrows }
    ensures clash { EntailedClashRefutes }
{}

/// More cells, statements and instances take nothing back.
pub fn additions_keep()
    ensures entailment { EntailmentStays }
    ensures contradiction { ContradictionStays }
    ensures reach { ReachStays }
    ensures relation { RelationStays }
{}

/// Where each procedure of a library is sound, points that lie in the statements of a set and
/// belong together at each instance lie in all that the set entails, and a set that has such points
/// is consistent.
pub fn points_lie_in_what_is_entailed<R: Rule + Drop>(library: &Library<R>)
    requires { AreSound R.value_of R.related library.now.procedures.items }
    ensures entailed { EntailedHoldsPoints (stored_of R.value_of library.now)
        (related_of R.related library.now) }
    ensures consistent { PointsAreConsistent (stored_of R.value_of library.now)
        (related_of R.related library.now) }
{}
