//! A blamer is what the engine has its lines carried out by.
ghost use Rattle.prop_procedures.specs.Kept.{stored_of};
ghost use Rattle.prop_seeking.specs.Seeking.{Sought};
ghost use Rattle.prop_seeking.specs.inner.Seekers.{sought_of};
ghost use Rattle.prop_blaming.specs.Blaming.{blaming};
ghost use Rattle.prop_blaming.specs.inner.Blamers.{IsReady};
ghost use Rattle.prop_blaming.specs.laws.BlamingLaws.{blaming_asks_by_prefix};

use crate::blamer::Blamer;
use prop_engine::{Interpreter, Reply};
use prop_guards::Guarded;
use prop_procedures::Library;
use prop_scheduler::Order;

impl<R: Guarded + Drop, O: Order + Drop> Interpreter for Blamer<R, O> {
    type Setting = Library<R>;

    ghost State = { Sought O };

    ghost setting = { λ b. b.seeker.teller.session.live.network.library };

    ghost state = { λ b. sought_of b.seeker };

    ghost machine = { λ library. blaming O.picks (stored_of R.value_of library) };

    ghost is_ready = { λ b. IsReady R.value_of b };

    fn interpret(&mut self, line: &[u8]) -> Reply {
        self.command(line)
    }

    ghost asks_by_prefix = { λ library. blaming_asks_by_prefix _ _ };
}
