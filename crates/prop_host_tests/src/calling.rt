//! A call of the host's procedure alone.
ghost use Rattle.std.specs.Prelude.{◌≡◌, [], ◌∷◌, IfOk};
ghost use Rattle.prop_host_tests.specs.Host.{value_of as host_value};

use crate::host::Host;
use prop_lattice::{Info, Span};
use prop_procedures::{Need, Param, Procedure, Shape};
use smallvec::SmallVec;
use std::alloc::{AllocError, Global};

/// The larger of a number of `x` and a number of `y`, as a procedure of the host's rule answers.
pub fn larger(alloc: Global, x: Span, y: Span) -> Result<Info, AllocError>
    ensures { IfOk result (λ r. r ≡ host_value Host.Maxer Param.Plain
        (Info.Span x ∷ Info.Span y ∷ [])) }
{
    let rule = Host::Maxer;
    let ins = SmallVec::<Shape, 8>::from_slice(alloc, &[Shape::Span, Shape::Span])?;
    let run = Box::new(alloc, move |param: &Param, args: &[Info]| -> Info {
        rule.run(param, args)
    })?;
    let maxer = Procedure::new("maxer", ins, Shape::Span, Need::Nothing, rule, run);
    Ok(maxer.call(&Param::Plain, &[Info::Span(x), Info::Span(y)]))
}
