//! A session with a blamer around it that takes constraints and definitions as one writes them.
ghost use Rattle.std.specs.Prelude.{◌≡◌, IfOk};
ghost use Rattle.std.specs.List.{range_with_len};

use crate::asking::{behind_let, read_line, required, term_in};
use prop_blaming::Blamer;
use prop_demands::understood;
use prop_engine::Reply;
use prop_guards::Guarded;
use prop_refusals::Refusal;
use prop_scheduler::Order;
use prop_terms::{Sort, Term};
use prop_workbench::{Posting, Session};
use std::alloc::{AllocError, Global};

/// A blamer that takes constraints and definitions.
#[derive(Drop)]
pub struct Requirer<R, O> {
    pub(crate) blamer: Blamer<R, O>,
    /// The names of the domains that lines declared, as far as there was memory for them.
    pub(crate) domains: Vec<String>,
}

/// The numbers below a number.
fn numbers_below(alloc: Global, count: usize) -> Result<Vec<usize>, AllocError>
    ensures { IfOk result (λ v. v.items ≡ range_with_len 0 count) }
{
    let mut numbers = Vec::new(alloc);
    for number in 0..count {
        numbers.push(number)?;
    }
    Ok(numbers)
}

impl<R: Guarded + Drop, O: Order + Drop> Requirer<R, O> {
    ghost use Rattle.std.specs.Prelude.{◌≡◌, ◌⊎◌, ◌++◌, IfErr, IfOk, None, OnOk, codes, length};
    ghost use Rattle.std.specs.Prelude.{true};
    ghost use Rattle.std.specs.List.{range_with_len};
    ghost use Rattle.prop_language.specs.Said.{words};
    ghost use Rattle.prop_engine.specs.Answers.{answer_done, answer_of};
    ghost use Rattle.prop_workbench.specs.Loading.{Loads};
    ghost use Rattle.prop_vocabulary.specs.Vocabulary as vocabularies;
    ghost use Rattle.prop_workbench.specs.Posting.{MayBePosted};
    ghost use Rattle.prop_workbench.specs.Sessions.{library_of, state_of, IsSound};
    ghost use Rattle.prop_notes.specs.Notes.{no_notes};
    ghost use Rattle.prop_seeking.specs.inner.Seekers.{sought_of};
    ghost use Rattle.prop_terms.specs.Terms.{term_of};
    ghost use Rattle.prop_workbench.specs.inner.Effects.{name_of};
    ghost use Rattle.prop_demands.specs.Refusing.{is_of_term};
    ghost use Rattle.prop_demands.specs.inner.Postings.{IsUnderstoodIn};
    ghost use Rattle.prop_requiring.specs.Requiring.{requiring, Requires};
    ghost use Rattle.prop_requiring.specs.inner.Puttings.{MayPut};
    ghost use Rattle.prop_requiring.specs.inner.Requirers.{IsReady};

    /// A requirer around the blamer of a session.
    pub fn new(session: Session<R, O>) -> Requirer<R, O>
        requires sound { IsSound R.value_of session }
        ensures session { result.blamer.seeker.teller.session ≡ session }
        ensures notes { result.blamer.seeker.teller.notes ≡ no_notes }
        ensures inquiry { result.blamer.seeker.inquiry ≡ None }
        ensures earlier { result.blamer.seeker.earlier ≡ None }
        ensures explorer { result.blamer.explorer ≡ None }
    {
        let blamer = Blamer::new(session);
        let domains = Vec::new(blamer.alloc());
        Requirer { blamer, domains }
    }

    /// Carries out a line: a requirement, a definition, or as its blamer does.
    pub fn command(&mut self, line: &[u8]) -> Reply
        requires ready { IsReady R.value_of self.old }
        ensures same { self.new.blamer.seeker.teller.session.live.network.library
            ≡ self.old.blamer.seeker.teller.session.live.network.library }
        ensures ready { IsReady R.value_of self.new }
        ensures requires_it { requiring O.picks
            (library_of R.value_of self.old.blamer.seeker.teller.session)
            (sought_of self.old.blamer.seeker) line.now (answer_of result)
            (sought_of self.new.blamer.seeker) }
    {
        match required(line) {
            Some(behind) => Reply::of(self.require(behind)),
            None => match behind_let(line) {
                Some(behind) => self.define(behind),
                None => self.pass(line),
            },
        }
    }

    /// Carries out the lines of a prelude, in order. The first that is refused ends it with its
    /// refusal, and those before it stand.
    pub(crate) fn load_prelude(&mut self, lines: &[&str]) -> Result<(), Refusal>
        requires ready { IsReady R.value_of self.old }
        ensures same { self.new.blamer.seeker.teller.session.live.network.library
            ≡ self.old.blamer.seeker.teller.session.live.network.library }
        ensures ready { IsReady R.value_of self.new }
        ensures ok { OnOk result (Loads
            (requiring O.picks (library_of R.value_of self.old.blamer.seeker.teller.session))
            (sought_of self.old.blamer.seeker) (words lines.now)
            (sought_of self.new.blamer.seeker)) }
    {
        for line in lines {
            if let Reply::Refused(refusal) = self.command(line.as_bytes()) {
                return Err(refusal);
            }
        }
        Ok(())
    }

    /// What a term becomes, which may be posted between all cells.
    fn posting(&self, term: &Term<'_>) -> Result<Posting, Refusal>
        requires ready { IsReady R.value_of self.now }
        ensures words { vocabularies.IsWhole self.now.blamer.seeker.teller.session.words }
        ensures understood { IfOk result (IsUnderstoodIn
            self.now.blamer.seeker.teller.session.names self.now.blamer.seeker.teller.session.words
            self.now.blamer.seeker.teller.session.live.network.cells (term_of term.now)) }
        ensures may { IfOk result (MayBePosted
            (library_of R.value_of self.now.blamer.seeker.teller.session)
            (state_of self.now.blamer.seeker.teller.session) (range_with_len 0
            (length self.now.blamer.seeker.teller.session.live.network.cells.kinds))) }
        ensures refused { IfErr result (λ e. (e ≡ Refusal.Memory) ⊎ (is_of_term e ≡ true)) }
    {
        let blamer = &self.blamer;
        understood(
            blamer.alloc(),
            blamer.names(),
            blamer.words(),
            blamer.cells(),
            term,
        )
    }

    /// The numbers of all cells.
    fn all_cells(&self) -> Result<Vec<usize>, AllocError>
        ensures { IfOk result (λ cells. cells.items ≡ range_with_len 0
            (length self.now.blamer.seeker.teller.session.live.network.cells.kinds)) }
    {
        numbers_below(self.blamer.alloc(), self.blamer.cells().len())
    }

    /// Has a term hold, under a premise: posts it between all cells.
    pub(crate) fn put(&mut self, term: &Term<'_>, premise: Option<&str>) -> Result<(), Refusal>
        requires ready { IsReady R.value_of self.old }
        ensures same { self.new.blamer.seeker.teller.session.live.network.library
            ≡ self.old.blamer.seeker.teller.session.live.network.library }
        ensures ready { IsReady R.value_of self.new }
        ensures puts { MayPut (library_of R.value_of self.old.blamer.seeker.teller.session)
            (sought_of self.old.blamer.seeker) (term_of term.now) (name_of premise.entry) result
            (sought_of self.new.blamer.seeker) }
    {
        let posting = match self.posting(term) {
            Ok(posting) => posting,
            Err(refusal) => return Err(refusal),
        };
        let Ok(cells) = self.all_cells() else {
            drop(posting);
            return Err(Refusal::Memory);
        };
        self.blamer.post(&cells, posting, premise)
    }

    /// Has what a line says behind `require` hold, under its premise.
    fn require(&mut self, behind: &[u8]) -> Result<(), Refusal>
        requires ready { IsReady R.value_of self.old }
        ensures same { self.new.blamer.seeker.teller.session.live.network.library
            ≡ self.old.blamer.seeker.teller.session.live.network.library }
        ensures ready { IsReady R.value_of self.new }
        ensures requires_it { Requires (library_of R.value_of self.old.blamer.seeker.teller.session)
            (sought_of self.old.blamer.seeker) (codes "require" ++ behind.now) (answer_done result)
            (sought_of self.new.blamer.seeker) }
    {
        let said = match read_line(behind) {
            Ok(said) => said,
            Err(refusal) => return Err(refusal),
        };
        match term_in(self.blamer.alloc(), said.text, Sort::Truth) {
            Ok(term) => self.put(&term, said.premise),
            Err(refusal) => Err(refusal),
        }
    }
}
