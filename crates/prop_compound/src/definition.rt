//! A definition, its words resolved to numbers.
ghost use Rattle.std.specs.Prelude.{◌≡◌, cond};
ghost use Rattle.prop_compound.specs.Expansion.{passes_something};
ghost use Rattle.prop_compound.specs.Shortcuts.{passed};

use prop_procedures::Kinded;
use std::marker::Model;

/// What a use is given: nothing, a scale, the relation with this number, or what the definition
/// itself is given.
#[derive(Clone, Copy, PartialEq, Eq)]
pub enum Passing {
    Nothing,
    Scale(i64),
    Relation(usize),
    Own,
}

/// What a use is of: the procedure or the definition with this number.
#[derive(Clone, Copy, PartialEq, Eq)]
pub enum Used {
    Procedure(usize),
    Definition(usize),
}

/// The places of cells among the parameters and locals of a definition, in order.
#[derive(Drop)]
pub struct Places {
    places: Vec<usize>,
}

impl Model for Places {
    ghost use Rattle.std.specs.Prelude.{ℕ, List};

    ghost Value = { List ℕ };

    ghost view = { λ p. p.places.items };
}

impl Places {
    ghost use Rattle.std.specs.Prelude.{◌≡◌};

    pub(crate) fn new(places: Vec<usize>) -> Places
        ensures { result ≡ places.items }
    {
        Places { places }
    }

    pub(crate) fn as_slice(&self) -> &[usize]
        ensures { result.now ≡ self.now }
    {
        &self.places
    }
}

/// A step of a definition, resolved: a local of a kind, a local like the cell at a place, or a use
/// on the cells at places.
#[derive(Drop)]
pub enum NumberedStep {
    Local(Kinded),
    Like(usize),
    Use(Used, Places, Passing),
}

/// What a step passes in a definition that is itself given this, both as steps say it.
pub(crate) fn passed(given: Passing, passing: Passing) -> Passing
    ensures { result ≡ passed given passing }
{
    match passing {
        Passing::Own => given,
        Passing::Nothing | Passing::Scale(_) | Passing::Relation(_) => passing,
    }
}

/// Whether a step passes something in a definition that is itself given something, or is not.
pub(crate) fn passes_something(given: bool, passing: Passing) -> bool
    ensures { result ≡ passes_something given passing }
{
    match passing {
        Passing::Own => given,
        Passing::Nothing => false,
        Passing::Scale(_) | Passing::Relation(_) => true,
    }
}

/// A definition, with what is known of its uses: shorter steps that make the same, whether a use
/// that is given something or nothing gives some definition a parameter that it does not take, and
/// for how many fresh cells and instances one stands, each counted up to one past its limit.
#[derive(Drop)]
pub(crate) struct KeptDefinition {
    pub(crate) params: usize,
    pub(crate) steps: Vec<NumberedStep>,
    pub(crate) plan: Vec<NumberedStep>,
    pub(crate) spare_given: bool,
    pub(crate) spare_bare: bool,
    pub(crate) fresh: usize,
    pub(crate) instances: usize,
}

impl KeptDefinition {
    /// Whether a use that is given something, or is not, gives some definition a parameter that it
    /// does not take.
    pub(crate) fn is_spare(&self, given: bool) -> bool
        ensures { result ≡ cond given self.now.spare_given self.now.spare_bare }
    {
        if given {
            self.spare_given
        } else {
            self.spare_bare
        }
    }
}
