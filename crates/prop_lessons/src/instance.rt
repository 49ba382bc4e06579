//! An instance as it was.
ghost use Rattle.std.specs.Prelude.{◌≡◌, IfOk, IsTrue};

use crate::params::is_same_param;
use prop_cells::Instance;
use prop_procedures::Param;
use std::alloc::{AllocError, Global};
use std::marker::Model;

/// An instance as it was: a procedure by its number, its parameter, and cells by their numbers.
#[derive(Drop)]
pub(crate) struct PastInstance {
    procedure: usize,
    param: Param,
    inputs: Vec<usize>,
    output: usize,
}

impl Model for PastInstance {
    ghost use Rattle.prop_cells.specs.Instances.{Instance};

    ghost Value = { Instance };

    ghost view = { λ x. record {
      procedure = x.procedure;
      param = x.param;
      inputs = x.inputs.items;
      output = x.output;
    } };
}

impl PastInstance {
    /// The instance as it is.
    pub(crate) fn of(alloc: Global, x: &Instance) -> Result<PastInstance, AllocError>
        ensures { IfOk result (λ past. past ≡ x.now) }
    {
        let param = x.param().copy(alloc)?;
        let inputs = Vec::from_slice(alloc, x.inputs())?;
        Ok(PastInstance {
            procedure: x.procedure(),
            param,
            inputs,
            output: x.output(),
        })
    }

    /// Whether an instance can be seen to be the same.
    pub(crate) fn is(&self, x: &Instance) -> bool
        ensures { IsTrue result → self.now ≡ x.now }
    {
        self.procedure == x.procedure()
            && self.output == x.output()
            && self.inputs.as_slice() == x.inputs()
            && is_same_param(&self.param, x.param())
    }
}
