//! Laws of single points.
ghost use Rattle.prop_arith.specs.Kit.{form_of, in_order};
ghost use Rattle.prop_arith.specs.Values.{value_of};
ghost use Rattle.prop_procedures.specs.Forms.{library_of, related_in};
ghost use Rattle.prop_points.specs.Kit.{KitIsExact, KitTells};
ghost use Rattle.prop_points.specs.Networks.{SinglesSolve};
ghost use Rattle.prop_points.specs.Wide.{ExcludersAreExact, WideIsExact};

/// Of single points each rule answers those alone that belong to them, but for two of the kit.
pub fn rules_are_exact()
    ensures kit { KitIsExact }
    ensures wide { WideIsExact }
    ensures excluders { ExcludersAreExact }
{}

/// So the points of a solution in points over the kit lie in all that is stated, and belong
/// together at each instance but those of `divider` and `parter`.
pub fn singles_of_the_kit_solve()
    ensures { SinglesSolve (library_of form_of value_of in_order) (related_in KitTells in_order) }
{}
