//! A program's session with a requirer around it, over devices.
ghost use Rattle.std.specs.Prelude.{map, None};
ghost use Rattle.prop_language.specs.Said.{words};
ghost use Rattle.prop_procedures.specs.Kept.{AllMean, stored_as};
ghost use Rattle.prop_program.specs.Answering.{Serves};
ghost use Rattle.prop_workbench.specs.Engine.{standing_of};
ghost use Rattle.prop_workbench.specs.Sessions.{library_of, IsSound, IsMeant};
ghost use Rattle.prop_requiring.specs.Answering.{IsRequired};
ghost use Rattle.prop_notes.specs.Notes.{no_notes};
ghost use Rattle.prop_requiring.specs.Requiring.{requiring};
ghost use Rattle.prop_seeking.specs.inner.Seekers.{sought_of};
ghost use Rattle.prop_demands.specs.inner.Palettes.{IsPalette};
ghost use Rattle.prop_requiring.specs.inner.Requirers.{IsReady};

use crate::requirer::Requirer;
use prop_cells::Network;
use prop_engine::{Counts, Devices, run_session};
use prop_guards::Guarded;
use prop_procedures::{Library, Procedure};
use prop_program::{Fault, Options, Pick};
use prop_scheduler::{Fifo, Lifo, Mixed, Order};
use prop_workbench::Session;
use std::alloc::{AllocError, Global};

/// How often a program reads at most.
const READS: u64 = 1 << 32;

/// Makes a session with the procedures, loads the prelude and runs it with a requirer around it.
///
/// A line of the prelude that is refused ends it before anything is read, as want of memory does.
/// The procedures begin with the kit's and the wider ones, in the order in which programs make
/// them.
pub fn run<R: Guarded + Drop, D: Devices>(
    alloc: Global,
    procedures: Vec<Procedure<R>>,
    prelude: &[&str],
    options: Options,
    devices: &mut D,
) -> Result<Counts, Fault>
    requires means { AllMean R.value_of procedures.items }
    requires palette { IsPalette (map (stored_as R.value_of) procedures.items) }
    ensures { IsRequired (map (stored_as R.value_of) procedures.items) (words prelude.now)
        options.order options.seed options.limit D.calls devices.old devices.new result }
{
    let network = Network::new(alloc, Library::new(procedures));
    let Options { limit, order, seed } = options;
    match order {
        Pick::Fifo => serve(Session::new(alloc, network, Fifo, limit)?, prelude, devices),
        Pick::Lifo => serve(Session::new(alloc, network, Lifo, limit)?, prelude, devices),
        Pick::Mixed => {
            let session = Session::new(alloc, network, Mixed::new(seed), limit)?;
            serve(session, prelude, devices)
        }
    }
}

/// Runs a session with a requirer around it that loads the prelude, and drops it.
fn serve<R: Guarded + Drop, O: Order + Drop, D: Devices>(
    session: Session<R, O>,
    prelude: &[&str],
    devices: &mut D,
) -> Result<Counts, Fault>
    requires means { IsMeant R.value_of session }
    requires sound { IsSound R.value_of session }
    requires palette { IsPalette (library_of R.value_of session) }
    ensures { Serves D.calls devices.old devices.new
        (requiring O.picks (library_of R.value_of session))
        (record {
          told = record { standing = standing_of session; notes = no_notes };
          inquiry = None;
        })
        (words prelude.now) result }
{
    let mut requirer = Requirer::new(session);
    let counts = answer(&mut requirer, prelude, devices);
    // One call in place of the drop of each part, which a proof would go through one by one.
    drop(requirer);
    counts
}

/// Loads the prelude into a requirer and runs it.
fn answer<R: Guarded + Drop, O: Order + Drop, D: Devices>(
    requirer: &mut Requirer<R, O>,
    prelude: &[&str],
    devices: &mut D,
) -> Result<Counts, Fault>
    requires ready { IsReady R.value_of requirer.old }
    ensures { Serves D.calls devices.old devices.new
        (requiring O.picks (library_of R.value_of requirer.old.blamer.seeker.teller.session))
        (sought_of requirer.old.blamer.seeker) (words prelude.now) result }
{
    match requirer.load_prelude(prelude) {
        Ok(()) => {}
        Err(_) => return Err(Fault::Memory(AllocError)),
    }
    match run_session(requirer, devices, READS) {
        Ok(counts) => Ok(counts),
        Err(fault) => Err(Fault::Engine(fault)),
    }
}
