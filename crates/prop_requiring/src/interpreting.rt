//! A requirer is what the engine has its lines carried out by.
ghost use Rattle.prop_procedures.specs.Kept.{stored_of};
ghost use Rattle.prop_seeking.specs.Seeking.{Sought};
ghost use Rattle.prop_seeking.specs.inner.Seekers.{sought_of};
ghost use Rattle.prop_requiring.specs.Requiring.{requiring};
ghost use Rattle.prop_requiring.specs.inner.Requirers.{IsReady};
ghost use Rattle.prop_requiring.specs.laws.RequiringLaws.{requiring_asks_by_prefix};

use crate::requirer::Requirer;
use prop_engine::{Interpreter, Reply};
use prop_guards::Guarded;
use prop_procedures::Library;
use prop_scheduler::Order;

impl<R: Guarded + Drop, O: Order + Drop> Interpreter for Requirer<R, O> {
    type Setting = Library<R>;

    ghost State = { Sought O };

    ghost setting = { λ r. r.blamer.seeker.teller.session.live.network.library };

    ghost state = { λ r. sought_of r.blamer.seeker };

    ghost machine = { λ library. requiring O.picks (stored_of R.value_of library) };

    ghost is_ready = { λ r. IsReady R.value_of r };

    fn interpret(&mut self, line: &[u8]) -> Reply {
        self.command(line)
    }

    ghost asks_by_prefix = { λ library. requiring_asks_by_prefix _ _ };
}
