//! What the rules that go along a relation compute, a plain function for each.
ghost use Rattle.std.specs.Prelude.{◌≡◌, ◌∷◌, []};
ghost use Rattle.prop_procedures.specs.declared.shape.Param.TheVariants.{Rows};
ghost use Rattle.prop_arith.specs.Values.{value_of};
ghost use Rattle.prop_arith.specs.declared.kit.Kit.TheVariants.{Image, Coimage};

use prop_lattice::Info;
use prop_sets::Relation;

/// What is known of `y` where the relation has the pair of `x` and `y`.
pub fn imager(relation: &Relation, x: Info) -> Info
    ensures { result ≡ value_of Image (Rows relation.now) (x ∷ []) }
{
    match x {
        Info::Set(x) => relation.image(x),
        _ => Info::Nothing,
    }
}

/// What is known of `x` where the relation has the pair of `x` and `y`.
pub fn coimager(relation: &Relation, y: Info) -> Info
    ensures { result ≡ value_of Coimage (Rows relation.now) (y ∷ []) }
{
    match y {
        Info::Set(y) => relation.coimage(y),
        _ => Info::Nothing,
    }
}
