//! A session is what the engine has its lines carried out by.
ghost use Rattle.prop_procedures.specs.Kept.{stored_of};
ghost use Rattle.prop_workbench.specs.Sessions.{IsSound, IsMeant};
ghost use Rattle.prop_workbench.specs.Engine.{Standing, standing_of, working};
ghost use Rattle.prop_workbench.specs.laws.MachineLaws.{working_asks_by_prefix};

use crate::session::Session;
use prop_engine::{Interpreter, Reply};
use prop_procedures::{Library, Rule};
use prop_scheduler::Order;

impl<R: Rule + Drop, O: Order + Drop> Interpreter for Session<R, O> {
    type Setting = Library<R>;

    ghost State = { Standing O };

    ghost setting = { λ s. s.live.network.library };

    ghost state = { standing_of };

    ghost machine = { λ library. working O.picks (stored_of R.value_of library) };

    ghost is_ready = { λ s. IsMeant R.value_of s × IsSound R.value_of s };

    fn interpret(&mut self, line: &[u8]) -> Reply {
        self.command(line)
    }

    ghost asks_by_prefix = { λ library. working_asks_by_prefix _ _ };
}
