//! The parts of which a value is made up.
ghost use Rattle.std.specs.Prelude.{◌≡◌};

use prop_lattice::Info;
use prop_premises::PremiseSet;
use smallvec::SmallVec;
use std::marker::Model;

/// Where a part comes from.
#[derive(Clone, Copy, Debug, PartialEq, Eq)]
pub enum Origin {
    /// The statement of this number was made.
    Told(usize),
    /// The instance of this number was called.
    Called(usize),
}

/// What a statement or a call says of a cell.
#[derive(Drop)]
pub struct Part {
    pub(crate) origin: Origin,
    pub(crate) cell: usize,
    pub(crate) inputs: SmallVec<usize, 4>,
    pub(crate) args: SmallVec<Info, 4>,
    pub(crate) value: Info,
    pub(crate) support: PremiseSet,
}

impl Model for Part {
    ghost use Rattle.prop_origins.specs.Parts.{Part};

    ghost Value = { Part };

    ghost view = { λ p. record {
      origin = p.origin;
      cell = p.cell;
      inputs = p.inputs.items;
      args = p.args.items;
      value = p.value;
      support = p.support;
    } };
}

impl Part {
    /// The statement or the call.
    pub fn origin(&self) -> Origin
        ensures { result ≡ self.now.origin }
    {
        self.origin
    }

    /// The cell of which it says something.
    pub fn cell(&self) -> usize
        ensures { result ≡ self.now.cell }
    {
        self.cell
    }

    /// The inputs of a call. A statement has none.
    pub fn inputs(&self) -> &[usize]
        ensures { result.now ≡ self.now.inputs }
    {
        &self.inputs
    }

    /// What the parts behind it say of each input.
    pub fn args(&self) -> &[Info]
        ensures { result.now ≡ self.now.args }
    {
        &self.args
    }

    /// What it says of its cell.
    pub fn value(&self) -> Info
        ensures { result ≡ self.now.value }
    {
        self.value
    }

    /// The premises on which it rests.
    pub fn support(&self) -> &PremiseSet
        ensures { result.now ≡ self.now.support }
    {
        &self.support
    }
}
