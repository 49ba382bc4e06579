//! Laws of plans.
ghost use Rattle.std.specs.Prelude.{All, List};
ghost use Rattle.prop_procedures.specs.Kept.{AllMean, stored_of};
ghost use Rattle.prop_procedures.specs.Stored.{IsLawful, Stored};
ghost use Rattle.prop_points.specs.Networks.{SinglesSolve};
ghost use Rattle.prop_plans.specs.Held.{AreHeld};

use prop_procedures::{Library, Rule};

/// Over any procedures whose answers grow with their arguments, the points of a solution in points
/// lie in all that is stated, and each procedure holds the points of its cells.
pub fn singles_satisfy()
    ensures { (library : List Stored) → All IsLawful library
        → SinglesSolve library (AreHeld library) }
{}

/// So it is over each library, whatever its rules are.
pub fn plans_satisfy<R: Rule + Drop>(library: &Library<R>)
    requires { AllMean R.value_of library.now.procedures.items }
    ensures { SinglesSolve (stored_of R.value_of library.now)
        (AreHeld (stored_of R.value_of library.now)) }
{}
