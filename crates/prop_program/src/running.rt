//! A session with a program's procedures, over devices.
ghost use Rattle.std.specs.Prelude.{map};
ghost use Rattle.prop_language.specs.Said.{words};
ghost use Rattle.prop_procedures.specs.Kept.{AllMean, stored_as};
ghost use Rattle.prop_program.specs.Answering.{Serves, IsWorked};
ghost use Rattle.prop_workbench.specs.Engine.{standing_of, workbench, working_of};
ghost use Rattle.prop_workbench.specs.Machine.{new_state};
ghost use Rattle.prop_workbench.specs.Sessions.{IsSound, IsMeant};

use crate::chosen::{Options, Pick};
use crate::fault::Fault;
use prop_cells::Network;
use prop_procedures::{Library, Procedure, Rule};
use prop_scheduler::{Fifo, Lifo, Mixed, Order};
use prop_workbench::{Counts, Devices, Session};
use std::alloc::{AllocError, Global};

/// How often a program reads at most.
const READS: u64 = 1 << 32;

/// Makes a session with the procedures, loads the prelude and runs it.
///
/// A line of the prelude that is refused ends it before anything is read, as want of memory does.
pub fn run<R: Rule + Drop, D: Devices>(
    alloc: Global,
    procedures: Vec<Procedure<R>>,
    prelude: &[&str],
    options: Options,
    devices: &mut D,
) -> Result<Counts, Fault>
    requires means { AllMean R.value_of procedures.items }
    // The session is a dialogue in which each line is answered by a step of the workbench.
    ensures answered { Serves D.calls devices.old devices.new
        (workbench (map (stored_as R.value_of) procedures.items)) (new_state options.limit)
        (words prelude.now) result }
    // Each text is earned by steps that were taken, in the order that was chosen.
    ensures earned { IsWorked options.order options.seed
        (map (stored_as R.value_of) procedures.items) (words prelude.now) options.limit
        D.calls devices.old devices.new result }
{
    let network = Network::new(alloc, Library::new(procedures));
    let Options { limit, order, seed } = options;
    match order {
        Pick::Fifo => serve(Session::new(alloc, network, Fifo, limit)?, prelude, devices),
        Pick::Lifo => serve(Session::new(alloc, network, Lifo, limit)?, prelude, devices),
        Pick::Mixed => {
            let session = Session::new(alloc, network, Mixed::new(seed), limit)?;
            serve(session, prelude, devices)
        }
    }
}

/// Loads the prelude into a session, runs it and drops it.
fn serve<R: Rule + Drop, O: Order + Drop, D: Devices>(
    mut session: Session<R, O>,
    prelude: &[&str],
    devices: &mut D,
) -> Result<Counts, Fault>
    requires means { IsMeant R.value_of session }
    requires sound { IsSound R.value_of session }
    ensures { Serves D.calls devices.old devices.new (working_of O.picks R.value_of session)
        (standing_of session) (words prelude.now) result }
{
    let counts = answer(&mut session, prelude, devices);
    // One call in place of the drop of each part, which a proof would go through one by one.
    drop(session);
    counts
}

/// Loads the prelude into a session and runs it.
fn answer<R: Rule + Drop, O: Order + Drop, D: Devices>(
    session: &mut Session<R, O>,
    prelude: &[&str],
    devices: &mut D,
) -> Result<Counts, Fault>
    requires means { IsMeant R.value_of session.old }
    requires sound { IsSound R.value_of session.old }
    ensures { Serves D.calls devices.old devices.new (working_of O.picks R.value_of session.old)
        (standing_of session.old) (words prelude.now) result }
{
    match session.load_prelude(prelude) {
        Ok(()) => {}
        Err(_) => return Err(Fault::Memory(AllocError)),
    }
    match session.run_session(devices, READS) {
        Ok(counts) => Ok(counts),
        Err(fault) => Err(Fault::Engine(fault)),
    }
}
