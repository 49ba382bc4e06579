//! What a layer above posts in the session, which ends the search.

use crate::blamer::Blamer;
use prop_guards::Guarded;
use prop_refusals::Refusal;
use prop_scheduler::Order;
use prop_telling::is_without_trace;
use prop_workbench::Posting;

impl<R: Guarded + Drop, O: Order + Drop> Blamer<R, O> {
    ghost use Rattle.std.specs.Prelude.{◌≡◌, cond, None};
    ghost use Rattle.prop_workbench.specs.Posting.{MayBePosted};
    ghost use Rattle.prop_workbench.specs.Sessions.{library_of, state_of};
    ghost use Rattle.prop_workbench.specs.inner.Effects.{name_of};
    ghost use Rattle.prop_telling.specs.Posting.{TellsPosting};
    ghost use Rattle.prop_telling.specs.inner.Posting.{is_without_trace};
    ghost use Rattle.prop_telling.specs.inner.Telling.{told_of};
    ghost use Rattle.prop_blaming.specs.inner.Blamers.{IsReady};

    /// Posts this in the session, as `Session::post`. A question and the search end, unless nothing
    /// has changed.
    pub fn post(
        &mut self,
        cells: &[usize],
        posting: Posting,
        premise: Option<&str>,
    ) -> Result<(), Refusal>
        requires ready { IsReady R.value_of self.old }
        requires may { MayBePosted (library_of R.value_of self.old.seeker.teller.session)
            (state_of self.old.seeker.teller.session) cells.now posting }
        ensures same { self.new.seeker.teller.session.live.network.library
            ≡ self.old.seeker.teller.session.live.network.library }
        ensures ready { IsReady R.value_of self.new }
        ensures tells { TellsPosting (library_of R.value_of self.old.seeker.teller.session)
            (told_of self.old.seeker.teller) cells.now posting (name_of premise.entry) result
            (told_of self.new.seeker.teller) }
        ensures inquiry { self.new.seeker.inquiry
            ≡ cond (is_without_trace result) self.old.seeker.inquiry None }
    {
        let end = self.seeker.post(cells, posting, premise);
        if is_without_trace(&end) {
            return end;
        }
        self.forget();
        end
    }
}
