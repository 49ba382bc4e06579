//! A seeker is what the engine has its lines carried out by.
ghost use Rattle.prop_procedures.specs.Kept.{stored_of};
ghost use Rattle.prop_seeking.specs.Seeking.{seeking, Sought};
ghost use Rattle.prop_seeking.specs.inner.Seekers.{sought_of, IsReady};
ghost use Rattle.prop_seeking.specs.laws.SeekingLaws.{seeking_asks_by_prefix};

use crate::seeker::Seeker;
use prop_engine::{Interpreter, Reply};
use prop_guards::Guarded;
use prop_procedures::Library;
use prop_scheduler::Order;

impl<R: Guarded + Drop, O: Order + Drop> Interpreter for Seeker<R, O> {
    type Setting = Library<R>;

    ghost State = { Sought O };

    ghost setting = { λ s. s.teller.session.live.network.library };

    ghost state = { λ s. sought_of s };

    ghost machine = { λ library. seeking O.picks (stored_of R.value_of library) };

    ghost is_ready = { λ s. IsReady R.value_of s };

    fn interpret(&mut self, line: &[u8]) -> Reply {
        self.command(line)
    }

    ghost asks_by_prefix = { λ library. seeking_asks_by_prefix _ _ };
}
