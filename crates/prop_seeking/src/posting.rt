//! What a layer above posts in the session, which ends a question.

use crate::seeker::{Seeker, put_by};
use prop_guards::Guarded;
use prop_refusals::Refusal;
use prop_scheduler::Order;
use prop_telling::is_without_trace;
use prop_workbench::Posting;

impl<R: Guarded + Drop, O: Order + Drop> Seeker<R, O> {
    ghost use Rattle.std.specs.Prelude.{◌≡◌, cond, None};
    ghost use Rattle.prop_workbench.specs.Posting.{MayBePosted};
    ghost use Rattle.prop_workbench.specs.Sessions.{library_of, state_of};
    ghost use Rattle.prop_workbench.specs.inner.Effects.{name_of};
    ghost use Rattle.prop_telling.specs.Posting.{TellsPosting};
    ghost use Rattle.prop_telling.specs.inner.Posting.{is_without_trace};
    ghost use Rattle.prop_telling.specs.inner.Telling.{told_of};
    ghost use Rattle.prop_seeking.specs.inner.Seekers.{IsReady};

    /// Posts this in the session, as `Session::post`. A question ends, unless nothing has changed.
    pub fn post(
        &mut self,
        cells: &[usize],
        posting: Posting,
        premise: Option<&str>,
    ) -> Result<(), Refusal>
        requires ready { IsReady R.value_of self.old }
        requires may { MayBePosted (library_of R.value_of self.old.teller.session)
            (state_of self.old.teller.session) cells.now posting }
        ensures same { self.new.teller.session.live.network.library
            ≡ self.old.teller.session.live.network.library }
        ensures ready { IsReady R.value_of self.new }
        ensures tells { TellsPosting (library_of R.value_of self.old.teller.session)
            (told_of self.old.teller) cells.now posting (name_of premise.entry) result
            (told_of self.new.teller) }
        ensures inquiry { self.new.inquiry
            ≡ cond (is_without_trace result) self.old.inquiry None }
    {
        let end = self.teller.post(cells, posting, premise);
        if is_without_trace(&end) {
            return end;
        }
        let alloc = self.teller.session().alloc();
        put_by(alloc, &mut self.inquiry, &mut self.earlier);
        end
    }
}
