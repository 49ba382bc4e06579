//! What a layer above posts in the session, noted.
ghost use Rattle.std.specs.Prelude.{◌≡◌};
ghost use Rattle.prop_telling.specs.inner.Posting.{is_without_trace};

use crate::telling::Teller;
use prop_procedures::Rule;
use prop_refusals::Refusal;
use prop_scheduler::Order;
use prop_workbench::Posting;
use std::alloc::AllocError;

/// Whether it was refused before anything was made.
pub fn is_without_trace(end: &Result<(), Refusal>) -> bool
    ensures { result ≡ is_without_trace end.now }
{
    match end {
        Ok(()) => false,
        Err(refusal) => !matches!(refusal, Refusal::Memory),
    }
}

impl<R: Rule + Drop, O: Order + Drop> Teller<R, O> {
    ghost use Rattle.std.specs.Prelude.{◌≡◌, ◌⊎◌, ℕ, List, length, take, IfOk, OnOk, OnErr};
    ghost use Rattle.prop_workbench.specs.Posting.{IsPosted, MayBePosted};
    ghost use Rattle.prop_workbench.specs.Sessions.{IsSound, library_of, shown_of, state_of};
    ghost use Rattle.prop_workbench.specs.Steps.{Covers};
    ghost use Rattle.prop_workbench.specs.inner.Effects.{name_of};
    ghost use Rattle.prop_notes.specs.Notes.{required, with_note};
    ghost use Rattle.prop_telling.specs.Posting.{TellsPosting};
    ghost use Rattle.prop_telling.specs.inner.Telling.{told_of};

    /// Posts this in the session, as `Session::post`, and notes it.
    pub fn post(
        &mut self,
        cells: &[usize],
        posting: Posting,
        premise: Option<&str>,
    ) -> Result<(), Refusal>
        requires sound { IsSound R.value_of self.old.session }
        requires may { MayBePosted (library_of R.value_of self.old.session)
            (state_of self.old.session) cells.now posting }
        ensures same { self.new.session.live.network.library
            ≡ self.old.session.live.network.library }
        ensures sound { IsSound R.value_of self.new.session }
        ensures tells { TellsPosting (library_of R.value_of self.old.session) (told_of self.old)
            cells.now posting (name_of premise.entry) result (told_of self.new) }
    {
        let (cells_before, instances_before) = self.there();
        let alloc = self.session.alloc();
        match self.notes.require(alloc, cells_before, instances_before) {
            Ok(counts) => self.post_noted(cells, posting, premise, counts),
            Err(AllocError) => {
                drop(posting);
                Err(Refusal::Memory)
            }
        }
    }

    /// How many cells and how many instances there are.
    fn there(&self) -> (usize, usize)
        ensures { result ≡ (
          length self.now.session.live.network.cells.kinds,
          length self.now.session.live.network.cells.instances,
        ) }
    {
        let network = self.session.live().network();
        (network.cells(), network.instances())
    }

    /// Posts this in the session. Where that leaves no trace, only so much stays noted.
    fn post_noted(
        &mut self,
        cells: &[usize],
        posting: Posting,
        premise: Option<&str>,
        counts: (usize, usize, usize),
    ) -> Result<(), Refusal>
        requires sound { IsSound R.value_of self.old.session }
        requires may { MayBePosted (library_of R.value_of self.old.session)
            (state_of self.old.session) cells.now posting }
        ensures same { self.new.session.live.network.library
            ≡ self.old.session.live.network.library }
        ensures sound { IsSound R.value_of self.new.session }
        ensures posted { IsPosted (library_of R.value_of self.old.session)
            (state_of self.old.session) cells.now posting (name_of premise.entry) result
            (state_of self.new.session) }
        ensures covers { (named : List (List ℕ)) → Covers (shown_of self.old.session) named
            → Covers (shown_of self.new.session) named }
        ensures notes { (self.new.notes ≡ self.old.notes)
            ⊎ ((self.new.notes ≡ record {
              domains = take counts.0 self.old.notes.domains;
              definitions = take counts.1 self.old.notes.definitions;
              uses = take counts.2 self.old.notes.uses;
            }) × (state_of self.new.session ≡ state_of self.old.session)) }
    {
        let end = self.session.post(cells, posting, premise);
        if is_without_trace(&end) {
            let (domains, definitions, uses) = counts;
            self.notes.back(domains, definitions, uses);
        }
        end
    }
}
