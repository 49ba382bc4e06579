//! Sessions over a reader and a writer.
ghost use Rattle.std.specs.Prelude.{◌≡◌};

use crate::session::Session;
use prop_engine::{Counts, Devices, EngineFault, run_session};
use prop_procedures::Rule;
use prop_scheduler::Order;

impl<R: Rule + Drop, O: Order + Drop> Session<R, O> {
    ghost use Rattle.prop_workbench.specs.Sessions.{IsSound, IsMeant};
    ghost use Rattle.prop_workbench.specs.Engine.{standing_of, working_of};
    ghost use Rattle.prop_engine.specs.Dialogues.{Speaks};

    /// Reads the input to its end, in at most so many reads of 4,096 bytes, and writes the replies
    /// to its lines. Each reply is written and passed on before the next line is carried out, and
    /// each line that a read ended is answered before the next read. It takes no memory beside what
    /// `command` takes.
    pub fn run_session<D: Devices>(
        &mut self,
        devices: &mut D,
        reads: u64,
    ) -> Result<Counts, EngineFault>
        requires means { IsMeant R.value_of self.old }
        requires sound { IsSound R.value_of self.old }
        ensures same { self.new.live.network.library ≡ self.old.live.network.library }
        ensures sound { IsSound R.value_of self.new }
        ensures speaks { Speaks D.calls devices.old devices.new
            (working_of O.picks R.value_of self.old) reads (standing_of self.old) result
            (standing_of self.new) }
    {
        run_session(self, devices, reads)
    }
}
