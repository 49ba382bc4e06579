//! A program's session with a blamer around it, over devices.
ghost use Rattle.std.specs.Prelude.{map, None};
ghost use Rattle.prop_language.specs.Said.{words};
ghost use Rattle.prop_procedures.specs.Kept.{AllMean, stored_as};
ghost use Rattle.prop_program.specs.Answering.{Serves};
ghost use Rattle.prop_workbench.specs.Engine.{standing_of};
ghost use Rattle.prop_workbench.specs.Sessions.{library_of, IsSound, IsMeant};
ghost use Rattle.prop_blaming.specs.Answering.{IsBlamed};
ghost use Rattle.prop_notes.specs.Notes.{no_notes};
ghost use Rattle.prop_blaming.specs.Blaming.{blaming};
ghost use Rattle.prop_seeking.specs.inner.Seekers.{sought_of};
ghost use Rattle.prop_blaming.specs.inner.Blamers.{IsReady};

use crate::blamer::Blamer;
use prop_cells::Network;
use prop_engine::{Counts, Devices, run_session};
use prop_guards::Guarded;
use prop_procedures::{Library, Procedure};
use prop_program::{Fault, Options, Pick};
use prop_scheduler::{Fifo, Lifo, Mixed, Order};
use prop_workbench::Session;
use std::alloc::{AllocError, Global};

/// How often a program reads at most.
const READS: u64 = 1 << 32;

/// Makes a session with the procedures, loads the prelude and runs it with a blamer around it.
///
/// A line of the prelude that is refused ends it before anything is read, as want of memory does.
pub fn run<R: Guarded + Drop, D: Devices>(
    alloc: Global,
    procedures: Vec<Procedure<R>>,
    prelude: &[&str],
    options: Options,
    devices: &mut D,
) -> Result<Counts, Fault>
    requires means { AllMean R.value_of procedures.items }
    ensures { IsBlamed (map (stored_as R.value_of) procedures.items) (words prelude.now)
        options.order options.seed options.limit D.calls devices.old devices.new result }
{
    let network = Network::new(alloc, Library::new(procedures));
    let Options { limit, order, seed } = options;
    match order {
        Pick::Fifo => serve(Session::new(alloc, network, Fifo, limit)?, prelude, devices),
        Pick::Lifo => serve(Session::new(alloc, network, Lifo, limit)?, prelude, devices),
        Pick::Mixed => {
            let session = Session::new(alloc, network, Mixed::new(seed), limit)?;
            serve(session, prelude, devices)
        }
    }
}

/// Runs a session with a blamer around it that loads the prelude, and drops it.
fn serve<R: Guarded + Drop, O: Order + Drop, D: Devices>(
    session: Session<R, O>,
    prelude: &[&str],
    devices: &mut D,
) -> Result<Counts, Fault>
    requires means { IsMeant R.value_of session }
    requires sound { IsSound R.value_of session }
    ensures { Serves D.calls devices.old devices.new
        (blaming O.picks (library_of R.value_of session))
        (record {
          told = record { standing = standing_of session; notes = no_notes };
          inquiry = None;
        })
        (words prelude.now) result }
{
    let mut blamer = Blamer::new(session);
    let counts = answer(&mut blamer, prelude, devices);
    // One call in place of the drop of each part, which a proof would go through one by one.
    drop(blamer);
    counts
}

/// Loads the prelude into a blamer and runs it.
fn answer<R: Guarded + Drop, O: Order + Drop, D: Devices>(
    blamer: &mut Blamer<R, O>,
    prelude: &[&str],
    devices: &mut D,
) -> Result<Counts, Fault>
    requires ready { IsReady R.value_of blamer.old }
    ensures { Serves D.calls devices.old devices.new
        (blaming O.picks (library_of R.value_of blamer.old.seeker.teller.session))
        (sought_of blamer.old.seeker) (words prelude.now) result }
{
    match blamer.load_prelude(prelude) {
        Ok(()) => {}
        Err(_) => return Err(Fault::Memory(AllocError)),
    }
    match run_session(blamer, devices, READS) {
        Ok(counts) => Ok(counts),
        Err(fault) => Err(Fault::Engine(fault)),
    }
}
