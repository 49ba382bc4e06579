//! What a layer above puts into a session beside its lines: cells and instances between given
//! cells, and what is stated of them.
ghost use Rattle.std.specs.Prelude.{◌≡◌, ◌<◌, ◌+◌, ◌-◌, ◌^◌, length};
ghost use Rattle.prop_procedures.specs.Flats.{cell_placed};

use crate::session::Session;
use crate::stating::Under;
use prop_lattice::{Info, Limit, Refusal};
use prop_procedures::{Flat, Rule};
use prop_scheduler::{Order, make};

/// What is stated at a place: the given cells have the first places, and the fresh ones those
/// behind.
#[derive(Clone, Copy)]
pub struct Stated {
    pub place: usize,
    pub info: Info,
}

/// Fresh cells and instances between given cells, what is stated of them under no premise, in
/// order, and what is told then.
#[derive(Drop)]
pub struct Posting {
    pub flat: Flat,
    pub fixed: Vec<Stated>,
    pub told: Stated,
}

/// The number of the cell at a place, where the fresh ones are numbered from `next` on.
fn cell_at(cells: &[usize], next: usize, place: usize) -> usize
    requires { next + (place - length cells.now) < 2 ^ 64 }
    ensures { result ≡ cell_placed cells.now next place }
{
    if place < cells.len() {
        cells[place]
    } else {
        next + (place - cells.len())
    }
}

impl<R: Rule + Drop, O: Order + Drop> Session<R, O> {
    ghost use Rattle.std.specs.Prelude.{◌≡◌, ◌<◌, ◌≤◌, ◌+◌, ◌⊎◌, ℕ, List, All, length, take};
    ghost use Rattle.std.specs.Prelude.{true, false, None, Some, IfOk, IfErr, OnOk, OnErr};
    ghost use Rattle.prop_refusals.specs.Refusals.{most};
    ghost use Rattle.prop_refusals.specs.declared.refusal.Limit.TheVariants.{Cells, Statements};
    ghost use Rattle.prop_refusals.specs.declared.refusal.Refusal.TheVariants.{IsAChoice, Memory};
    ghost use Rattle.prop_compound.specs.Kinds.{IsSized};
    ghost use Rattle.prop_scheduler.specs.Making.{MayMake, room_refusal};
    ghost use Rattle.prop_workbench.specs.Steps.{Covers};
    ghost use Rattle.prop_workbench.specs.Sessions.{state_of, shown_of, library_of, steps_of};
    ghost use Rattle.prop_workbench.specs.Sessions.{IsInOrder, IsSound};
    ghost use Rattle.prop_workbench.specs.inner.Sessions.{Keeps};
    ghost use Rattle.prop_workbench.specs.inner.Effects.{name_of, name_under, IsUnder};
    ghost use Rattle.prop_workbench.specs.inner.Posting.{FitsAt, posting_limit};
    ghost use Rattle.prop_workbench.specs.Posting.{IsPosted, MayBePosted, is_choice_given};
    ghost use Rattle.prop_workbench.specs.Posting.{with_fixed, with_placed};

    /// Puts fresh cells and instances between given cells, and states of them what is said, the
    /// last under the premise with a name, which is made as `tell` makes it, or under none.
    ///
    /// Refused with 17 where a choice has the name, and with 16 where there would be too much of
    /// something, it changes nothing. Where memory is refused, what was made by then may stay, but
    /// nothing is told.
    pub fn post(
        &mut self,
        cells: &[usize],
        posting: Posting,
        premise: Option<&str>,
    ) -> Result<(), Refusal>
        requires sound { IsSound R.value_of self.old }
        requires may { MayBePosted (library_of R.value_of self.old) (state_of self.old) cells.now
            posting }
        ensures same { self.new.live.network.library ≡ self.old.live.network.library }
        ensures sound { IsSound R.value_of self.new }
        ensures steps { steps_of self.new ≡ steps_of self.old }
        ensures posted { IsPosted (library_of R.value_of self.old) (state_of self.old) cells.now
            posting (name_of premise.entry) result (state_of self.new) }
        ensures covers { (named : List (List ℕ)) → Covers (shown_of self.old) named
            → Covers (shown_of self.new) named }
    {
        let under = match self.may_post(&posting, premise) {
            Ok(under) => under,
            Err(refusal) => {
                drop(posting);
                return Err(refusal);
            }
        };
        self.post_under(cells, posting, under)
    }

    /// Under what is told by this name, where there is room for the statements.
    fn may_post<'a>(
        &self,
        posting: &Posting,
        premise: Option<&'a str>,
    ) -> Result<Under<'a>, Refusal>
        requires sound { IsInOrder R.value_of self.now }
        ensures name { IfOk result (λ under. name_under under ≡ name_of premise.entry) }
        ensures ok { IfOk result (IsUnder self.now.search.premises) }
        ensures free { OnOk result
            (is_choice_given self.now.search.premises (name_of premise.entry) ≡ false) }
        ensures room { OnOk result (posting_limit (state_of self.now) (name_of premise.entry)
            (length posting.now.fixed.items) ≡ None) }
        ensures err { IfErr result (λ e.
            ((e ≡ IsAChoice)
            × (is_choice_given self.now.search.premises (name_of premise.entry) ≡ true))
            ⊎ ((is_choice_given self.now.search.premises (name_of premise.entry) ≡ false)
            × (posting_limit (state_of self.now) (name_of premise.entry)
            (length posting.now.fixed.items) ≡ Some e))) }
    {
        match self.under(premise) {
            Ok(under) => match self.posting_limit(under, posting.fixed.len()) {
                Some(refusal) => Err(refusal),
                None => Ok(under),
            },
            Err(refusal) => Err(refusal),
        }
    }

    /// Why one statement more than so many is refused, the last of them under this.
    fn posting_limit(&self, under: Under, count: usize) -> Option<Refusal>
        requires sound { IsInOrder R.value_of self.now }
        requires under { IsUnder self.now.search.premises under }
        ensures { result ≡ posting_limit (state_of self.now) (name_under under.entry) count }
    {
        let before = self.live.network().data().statement_count();
        match under {
            Under::New(_) if self.search.premises().len() >= Limit::Premises.most() => {
                Some(Refusal::LimitReached(Limit::Premises))
            }
            _ if before.saturating_add(count) >= Limit::Statements.most() => {
                Some(Refusal::LimitReached(Limit::Statements))
            }
            _ => None,
        }
    }

    /// Posts where there is room for the statements.
    fn post_under(&mut self, cells: &[usize], posting: Posting, under: Under) -> Result<(), Refusal>
        requires sound { IsInOrder R.value_of self.old }
        requires may { MayBePosted (library_of R.value_of self.old) (state_of self.old) cells.now
            posting }
        requires under { IsUnder self.old.search.premises under }
        requires free { is_choice_given self.old.search.premises (name_under under) ≡ false }
        requires room { posting_limit (state_of self.old) (name_under under)
            (length posting.fixed.items) ≡ None }
        ensures keeps { Keeps R.value_of self.old self.new }
        ensures posted { IsPosted (library_of R.value_of self.old) (state_of self.old) cells.now
            posting (name_under under.entry) result (state_of self.new) }
    {
        let Posting { flat, fixed, told } = posting;
        let next = self.live.network().cells();
        if let Err(refusal) = self.place(cells, flat) {
            drop(fixed);
            return Err(refusal);
        }
        let made = self.fix_all(cells, next, &fixed);
        drop(fixed);
        match made {
            Ok(()) => self.state_said(under, cell_at(cells, next, told.place), told.info),
            Err(refusal) => Err(refusal),
        }
    }

    /// Makes fresh cells and instances between these cells, whole or not at all.
    fn place(&mut self, cells: &[usize], flat: Flat) -> Result<(), Refusal>
        requires sound { IsInOrder R.value_of self.old }
        requires sized { All (IsSized self.old.words) flat.fresh.items }
        requires may { length self.old.live.network.cells.kinds + length flat.fresh.items ≤ most
            Cells → MayMake (library_of R.value_of self.old) self.old.live.network.cells cells.now
            flat }
        ensures keeps { Keeps R.value_of self.old self.new }
        ensures fits { OnOk result (room_refusal
            (length (state_of self.old).kinds + length flat.fresh.items)
            (length (state_of self.old).instances + length flat.instances.items) ≡ None) }
        ensures ok { OnOk result (state_of self.new ≡ with_placed (library_of R.value_of self.old)
            (state_of self.old) cells.now flat) }
        ensures err { IfErr result (λ e. (room_refusal
            (length (state_of self.old).kinds + length flat.fresh.items)
            (length (state_of self.old).instances + length flat.instances.items) ≡ Some e)
            ⊎ (e ≡ Memory)) }
        ensures err_same { OnErr result (state_of self.new ≡ state_of self.old) }
    {
        make(&mut self.live, cells, flat)
    }

    /// States this under no premise, in order, where the fresh cells are numbered from `next` on.
    fn fix_all(&mut self, cells: &[usize], next: usize, fixed: &[Stated]) -> Result<(), Refusal>
        requires sound { IsInOrder R.value_of self.old }
        requires fit { All (FitsAt self.old.live.network.cells.kinds cells.now next) fixed.now }
        requires room { length self.old.live.network.cells.statements + length fixed.now ≤ most
            Statements }
        ensures keeps { Keeps R.value_of self.old self.new }
        ensures ok { OnOk result (state_of self.new ≡ with_fixed (state_of self.old) cells.now
            next fixed.now) }
        ensures err { IfErr result (λ e. (e ≡ Memory) × (n : ℕ) × (state_of self.new ≡ with_fixed
            (state_of self.old) cells.now next (take n fixed.now))) }
    {
        for x in fixed {
            let cell = cell_at(cells, next, x.place);
            match self.state_said(Under::Nothing, cell, x.info) {
                Ok(()) => {}
                Err(refusal) => return Err(refusal),
            }
        }
        Ok(())
    }
}
