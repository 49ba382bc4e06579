//! A session with the kit's procedures and the prelude, over devices.
ghost use Rattle.std.specs.Prelude.{◌≡◌};
ghost use Rattle.prop_arith.specs.Prelude.{prelude_lines};
ghost use Rattle.prop_arith.specs.Values.{value_of};
ghost use Rattle.prop_program.specs.Answering.{Serves, IsWorked};
ghost use Rattle.prop_workbench.specs.Engine.{workbench};
ghost use Rattle.prop_workbench.specs.Machine.{new_state};
ghost use Rattle.propbench.specs.Kits.{kit};

use prop_arith::{KITS, PRELUDE};
use prop_lattice::Info;
use prop_procedures::{Named, Param, Procedure, Shape};
use prop_program::{Fault, Options};
use prop_workbench::{Counts, Devices};
use smallvec::SmallVec;
use std::alloc::Global;

/// Makes the kit's procedures, loads the prelude and runs a session with them.
pub fn run<D: Devices>(alloc: Global, options: Options, devices: &mut D) -> Result<Counts, Fault>
    ensures answered { Serves D.calls devices.old devices.new (workbench kit)
        (new_state options.limit) prelude_lines result }
    ensures earned { IsWorked options.order options.seed kit prelude_lines options.limit
        D.calls devices.old devices.new result }
{
    let mut procedures = Vec::new(alloc);
    for rule in KITS {
        let ins = SmallVec::<Shape, 8>::from_slice(alloc, rule.ins())?;
        let call = Box::new(
            alloc,
            move |param: &Param, args: &[Info]| -> Info
                ensures { result ≡ value_of rule param.now args.now }
            { rule.run(param, args) },
        )?;
        procedures.push(Procedure::new(rule.name(), ins, rule.out(), rule.need(), rule, call))?;
    }
    prop_program::run(alloc, procedures, &PRELUDE, options, devices)
}
