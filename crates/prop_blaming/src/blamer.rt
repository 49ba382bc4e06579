//! A session with a seeker around it that answers what can't all hold.
ghost use Rattle.std.specs.Prelude.{◌≡◌, ◌&&◌, codes, nat_le, not};
ghost use Rattle.prop_engine.specs.Answers.{answer_of};
ghost use Rattle.prop_notes.specs.Notes.{is_done};
ghost use Rattle.prop_seeking.specs.Asking.{begins};

use crate::asking::{Asked, is_blame, is_limit, question_of};
use crate::texts::{first_repairs, listed_conflicts};
use prop_conflicts::{Explorer, Wanted};
use prop_engine::Reply;
use prop_guards::Guarded;
use prop_language::read_line;
use prop_refusals::Refusal;
use prop_scheduler::Order;
use prop_seeking::{Seeker, as_value};
use prop_workbench::Session;
use std::alloc::AllocError;

/// Whether a line was carried out without a word.
fn is_done(reply: &Reply) -> bool
    ensures { result ≡ is_done (answer_of reply.now) }
{
    matches!(reply, Reply::Done)
}

/// Whether a line ends the search: it was carried out without a word, and set no limit.
fn ends(reply: &Reply, line: &[u8]) -> bool
    ensures { result ≡ (is_done (answer_of reply.now) && not (begins (codes "limit") line.now)) }
{
    is_done(reply) && !is_limit(line)
}

/// A seeker, and the search for conflicts and repairs that the next line may go on with.
#[derive(Drop)]
pub struct Blamer<R, O> {
    pub(crate) seeker: Seeker<R, O>,
    pub(crate) explorer: Option<Explorer>,
}

impl<R: Guarded + Drop, O: Order + Drop> Blamer<R, O> {
    ghost use Rattle.std.specs.Prelude.{◌≡◌, ◌⊎◌, ◌&&◌, List, ℕ, IfOk, IfSome, None, OnOk, Some};
    ghost use Rattle.std.specs.Prelude.{codes, cond, not, string_bytes};
    ghost use Rattle.prop_language.specs.Reading.{AsRead};
    ghost use Rattle.prop_language.specs.Said.{words};
    ghost use Rattle.prop_engine.specs.Answers.{answer_of, Refused, Text};
    ghost use Rattle.prop_workbench.specs.Loading.{Loads};
    ghost use Rattle.prop_workbench.specs.Sessions.{library_of, state_of, IsSound};
    ghost use Rattle.prop_notes.specs.Notes.{no_notes};
    ghost use Rattle.prop_seeking.specs.Asking.{as_value};
    ghost use Rattle.prop_seeking.specs.Seeking.{seeking};
    ghost use Rattle.prop_seeking.specs.inner.Seekers.{Gives, sought_of};
    ghost use Rattle.prop_conflicts.specs.inner.Explorers.{IsExplored};
    ghost use Rattle.prop_blaming.specs.Asking.{asked};
    ghost use Rattle.prop_blaming.specs.Blame.{Says, SaysCheapest, SaysConflicts, SaysRepairs};
    ghost use Rattle.prop_blaming.specs.Blaming.{blaming, Blames};
    ghost use Rattle.prop_blaming.specs.inner.Blamers.{asked_of, IsReady};
    ghost use Rattle.prop_seeking.specs.inner.Explored.{ground_in};

    /// A blamer around the seeker of a session.
    pub fn new(session: Session<R, O>) -> Blamer<R, O>
        requires sound { IsSound R.value_of session }
        ensures session { result.seeker.teller.session ≡ session }
        ensures notes { result.seeker.teller.notes ≡ no_notes }
        ensures inquiry { result.seeker.inquiry ≡ None }
        ensures earlier { result.seeker.earlier ≡ None }
        ensures explorer { result.explorer ≡ None }
    {
        Blamer {
            seeker: Seeker::new(session),
            explorer: None,
        }
    }

    /// Carries out a line: a question what can't all hold, or as its seeker does.
    pub fn command(&mut self, line: &[u8]) -> Reply
        requires ready { IsReady R.value_of self.old }
        ensures same { self.new.seeker.teller.session.live.network.library
            ≡ self.old.seeker.teller.session.live.network.library }
        ensures ready { IsReady R.value_of self.new }
        ensures blames { blaming O.picks (library_of R.value_of self.old.seeker.teller.session)
            (sought_of self.old.seeker) line.now (answer_of result) (sought_of self.new.seeker) }
    {
        if is_blame(line) {
            return self.blame(line);
        }
        self.seek(line)
    }

    /// Carries out a line as its seeker does. What changes something ends the search, but for the
    /// limit.
    fn seek(&mut self, line: &[u8]) -> Reply
        requires ready { IsReady R.value_of self.old }
        ensures same { self.new.seeker.teller.session.live.network.library
            ≡ self.old.seeker.teller.session.live.network.library }
        ensures ready { IsReady R.value_of self.new }
        ensures seeks { seeking O.picks (library_of R.value_of self.old.seeker.teller.session)
            (sought_of self.old.seeker) line.now (answer_of result) (sought_of self.new.seeker) }
    {
        let reply = self.seeker.command(line);
        if ends(&reply, line) {
            self.forget();
            return reply;
        }
        reply
    }

    /// Carries out the lines of a prelude, in order. The first that is refused ends it with its
    /// refusal, and those before it stand.
    pub fn load_prelude(&mut self, lines: &[&str]) -> Result<(), Refusal>
        requires ready { IsReady R.value_of self.old }
        ensures same { self.new.seeker.teller.session.live.network.library
            ≡ self.old.seeker.teller.session.live.network.library }
        ensures ready { IsReady R.value_of self.new }
        ensures ok { OnOk result (Loads
            (blaming O.picks (library_of R.value_of self.old.seeker.teller.session))
            (sought_of self.old.seeker) (words lines.now) (sought_of self.new.seeker)) }
    {
        for line in lines {
            if let Reply::Refused(refusal) = self.command(line.as_bytes()) {
                return Err(refusal);
            }
        }
        Ok(())
    }

    /// Answers a question.
    fn blame(&mut self, line: &[u8]) -> Reply
        requires ready { IsReady R.value_of self.old }
        ensures same { self.new.seeker ≡ self.old.seeker }
        ensures ready { IsReady R.value_of self.new }
        ensures blames { Blames (library_of R.value_of self.old.seeker.teller.session)
            (state_of self.old.seeker.teller.session) line.now (answer_of result) }
    {
        match self.asked(line) {
            Ok(asked) => self.reply(asked),
            Err(refusal) => Reply::Refused(refusal),
        }
    }

    /// The reply to what is asked, or want of memory.
    fn reply(&mut self, asked: Asked) -> Reply
        requires ready { IsReady R.value_of self.old }
        ensures same { self.new.seeker ≡ self.old.seeker }
        ensures ready { IsReady R.value_of self.new }
        ensures replies { (answer_of result ≡ Refused Refusal.Memory) ⊎ ((text : List ℕ)
            × Says (library_of R.value_of self.old.seeker.teller.session)
            (state_of self.old.seeker.teller.session) (asked_of asked) text
            × (answer_of result ≡ Text text)) }
    {
        Reply::saying(self.answered(asked))
    }

    /// What a line asks.
    fn asked(&self, line: &[u8]) -> Result<Asked, Refusal>
        ensures { (result ≡ Err Refusal.Memory) ⊎ AsRead (as_value line.now) (λ read.
            Gives asked_of result
            (asked (state_of self.now.seeker.teller.session).premises read)) }
    {
        let alloc = self.seeker.alloc();
        let Ok(line) = as_value(alloc, line) else {
            return Err(Refusal::Memory);
        };
        match read_line(alloc, &line) {
            Ok(command) => question_of(alloc, self.seeker.origins(), &command),
            Err(refusal) => Err(refusal),
        }
    }

    /// What is replied to what is asked. The search goes on with the next such question.
    fn answered(&mut self, asked: Asked) -> Result<String, AllocError>
        requires ready { IsReady R.value_of self.old }
        ensures same { self.new.seeker ≡ self.old.seeker }
        ensures ready { IsReady R.value_of self.new }
        ensures says { IfOk result (λ text. Says
            (library_of R.value_of self.old.seeker.teller.session)
            (state_of self.old.seeker.teller.session) (asked_of asked)
            (string_bytes text)) }
    {
        self.explore(&asked)?;
        match &self.explorer {
            Some(explorer) => self.text(explorer, &asked),
            None => Err(AllocError),
        }
    }

    /// Goes on with the search, or begins one. After want of memory there is none.
    fn explore(&mut self, asked: &Asked) -> Result<(), AllocError>
        requires ready { IsReady R.value_of self.old }
        ensures same { self.new.seeker ≡ self.old.seeker }
        ensures ready { IsReady R.value_of self.new }
    {
        let before = self.explorer.take();
        let explorer = self.seeker.explore(before, wanted(asked))?;
        self.keep(explorer);
        Ok(())
    }

    /// The next question goes on with this search.
    fn keep(&mut self, explorer: Explorer)
        ensures { self.new ≡ record self.old { explorer = Some explorer } }
    {
        // One call in place of the drop of each part, which a proof would go through one by one.
        drop(self.explorer.replace(explorer));
    }

    /// The next question begins a search.
    pub(crate) fn forget(&mut self)
        ensures forgets { self.new ≡ record self.old { explorer = None } }
        ensures seeker { self.new.seeker ≡ self.old.seeker }
    {
        drop(self.explorer.take());
    }

    /// What is replied of what was found.
    fn text(&self, explorer: &Explorer, asked: &Asked) -> Result<String, AllocError>
        requires explored { IsExplored (ground_in R.value_of self.now.seeker.teller.session)
            explorer.now }
        ensures { IfOk result (λ text. Says
            (library_of R.value_of self.now.seeker.teller.session)
            (state_of self.now.seeker.teller.session) (asked_of asked.now)
            (string_bytes text)) }
    {
        match asked {
            Asked::Conflicts(most) => self.conflicts(explorer, *most),
            Asked::Repairs(most) => self.repairs(explorer, *most),
            Asked::Cheapest(most, weights) => self.cheapest(explorer, weights, *most),
        }
    }

    /// The cheapest repairs, so many at the most, and whether there are others.
    fn cheapest(
        &self,
        explorer: &Explorer,
        weights: &[u32],
        most: usize,
    ) -> Result<String, AllocError>
        requires explored { IsExplored (ground_in R.value_of self.now.seeker.teller.session)
            explorer.now }
        ensures { IfOk result (λ text. SaysCheapest
            (library_of R.value_of self.now.seeker.teller.session)
            (state_of self.now.seeker.teller.session) weights.now most (string_bytes text)) }
    {
        let listed = explorer.cheapest(weights, most)?;
        self.cheapest_text(weights, &listed.sets, listed.are_all)
    }

    /// The first repairs that were found, so many at the most, and whether there are others.
    fn repairs(&self, explorer: &Explorer, most: usize) -> Result<String, AllocError>
        requires explored { IsExplored (ground_in R.value_of self.now.seeker.teller.session)
            explorer.now }
        ensures { IfOk result (λ text. SaysRepairs
            (library_of R.value_of self.now.seeker.teller.session)
            (state_of self.now.seeker.teller.session) most (string_bytes text)) }
    {
        let found = first_repairs(explorer.repairs(), most);
        let all = are_all(explorer.is_over(), explorer.repairs().len(), most);
        self.repairs_text(found, all)
    }

    /// The conflicts that are told, so many at the most, and whether there are others.
    fn conflicts(&self, explorer: &Explorer, most: usize) -> Result<String, AllocError>
        requires explored { IsExplored (ground_in R.value_of self.now.seeker.teller.session)
            explorer.now }
        ensures { IfOk result (λ text. SaysConflicts
            (library_of R.value_of self.now.seeker.teller.session)
            (state_of self.now.seeker.teller.session) most (string_bytes text)) }
    {
        let found = listed_conflicts(self.seeker.alloc(), explorer, most)?;
        let all = are_all(explorer.is_over(), explorer.conflicts().len(), most);
        self.conflicts_text(&found, all)
    }
}

/// Whether there are no others than are told: the search is over, and no more were found than are
/// asked for.
fn are_all(is_over: bool, found: usize, most: usize) -> bool
    ensures { result ≡ (is_over && nat_le found most) }
{
    is_over && found <= most
}

/// How many of each are looked for.
fn wanted(asked: &Asked) -> Wanted<'_> {
    match asked {
        Asked::Conflicts(most) => Wanted {
            conflicts: *most,
            repairs: usize::MAX,
            weights: None,
        },
        Asked::Repairs(most) => Wanted {
            conflicts: usize::MAX,
            repairs: *most,
            weights: None,
        },
        Asked::Cheapest(most, weights) => Wanted {
            conflicts: usize::MAX,
            repairs: *most,
            weights: Some(weights),
        },
    }
}
