//! A session with the program's procedures and preludes, over devices.
ghost use Rattle.std.specs.Prelude.{◌≡◌};
ghost use Rattle.prop_requiring.specs.Answering.{IsRequired};
ghost use Rattle.propwide.specs.Kits.{answer_of, lines_in_order, wide};

use crate::entries::{answer, copied, entries, lines};
use prop_lattice::Info;
use prop_procedures::{Param, Procedure, Shape};
use prop_program::{Fault, Options};
use prop_workbench::{Counts, Devices};
use smallvec::SmallVec;
use std::alloc::Global;

/// Makes the procedures, loads the preludes and runs a session with them.
pub fn run<D: Devices>(alloc: Global, options: Options, devices: &mut D) -> Result<Counts, Fault>
    ensures { IsRequired wide lines_in_order options.order options.seed options.limit D.calls
        devices.old devices.new result }
{
    let prelude = lines(alloc)?;
    let made = entries(alloc)?;
    let mut procedures = Vec::new(alloc);
    for entry in &made {
        let ins = SmallVec::<Shape, 8>::from_slice(alloc, entry.ins)?;
        let rule = copied(&entry.rule);
        let call = Box::new(
            alloc,
            move |param: &Param, args: &[Info]| -> Info
                ensures { result ≡ answer_of rule param.now args.now }
            { answer(&rule, param, args) },
        )?;
        procedures.push(Procedure::wide(
            entry.name,
            ins,
            entry.out,
            entry.need,
            copied(&entry.rule),
            call,
        ))?;
    }
    prop_requiring::run(alloc, procedures, &prelude, options, devices)
}
