//! The commands that run the network and answer what follows.
ghost use Rattle.std.specs.Prelude.{◌≡◌, ℕ, length};

use crate::session::Session;
use prop_amb::{Outcome, settle};
use prop_engine::Reply;
use prop_explain::{Core, reduce};
use prop_lattice::{Info, Refusal};
use prop_premises::Worldview;
use prop_procedures::Rule;
use prop_scheduler::{Ended, Order};
use prop_texts::{
    because, contradiction_reply, nogoods_reply, text_reply, value_reply, worldview_reply,
};
use prop_tms::Supported;
use std::alloc::AllocError;

/// What a command that runs the network asks; a cell stands with its number and its name.
#[derive(Clone, Copy)]
pub(crate) enum Question<'a> {
    /// Whether the network comes to rest.
    Settle,
    /// Which premises are believed and which are not.
    Worldview,
    /// What follows for a cell.
    Ask(usize, &'a str),
    /// What follows for a cell, and for which premises.
    Why(usize, &'a str),
}

impl<R: Rule + Drop, O: Order + Drop> Session<R, O> {
    ghost use Rattle.std.specs.Prelude.{◌≡◌, ◌≢◌, ◌<◌, ◌≤◌, ◌+◌, ◌*◌, ℕ, List, [], All, Some, IfOk};
    ghost use Rattle.std.specs.Prelude.{codes, length};
    ghost use Rattle.prop_numbers.specs.Sets.{set_of, IsSame};
    ghost use Rattle.prop_premises.specs.ChoiceLists.{lists_count};
    ghost use Rattle.prop_contents.specs.Contents.{beliefs};
    ghost use Rattle.prop_scheduler.specs.Potential.{most_steps};
    ghost use Rattle.prop_language.specs.Commands as commands;
    ghost use Rattle.prop_explain.specs.Irreducible.{IfLeast, IfNotReduced, OfCore};
    ghost use Rattle.prop_engine.specs.Answers.{answer_of, Says, Text};
    ghost use Rattle.prop_workbench.specs.Machine.{problem_in, choices_in, worldview_at};
    ghost use Rattle.prop_workbench.specs.inner.Machine.{text_at};
    ghost use Rattle.prop_texts.specs.Texts.{equation};
    ghost use Rattle.prop_vocabulary.specs.Cells.{cell_named};
    ghost use Rattle.prop_workbench.specs.inner.Carrying.{IsAnswered, IsAtRest, IsLeanIn};
    ghost use Rattle.prop_workbench.specs.inner.Carrying.{MayAnswer, SaysBecause, CountsTries};
    ghost use Rattle.prop_workbench.specs.inner.Questions.{command_of, IsNamed, HasRun, SaysSoFar};
    ghost use Rattle.prop_amb.specs.Going.{MayGoOn, Goes};
    ghost use Rattle.prop_amb.specs.Culprits.{IsBlamed};
    ghost use Rattle.prop_amb.specs.Settling.{IfContradiction};
    ghost use Rattle.prop_workbench.specs.Reasons.{IsLeanExplanation};
    ghost use Rattle.prop_workbench.specs.inner.Running.{Explained};
    ghost use Rattle.prop_workbench.specs.Sessions.{state_of, work_of, library_of, IsInOrder};
    ghost use Rattle.prop_workbench.specs.Sessions.{IsMeant};
    ghost use Rattle.prop_workbench.specs.inner.Sessions.{Keeps};

    /// Runs the network until it settles on the first consistent choices, and tells how that ended
    /// and in how many steps.
    fn run_network(&mut self) -> Result<Ended<Outcome>, AllocError>
        requires means { IsMeant R.value_of self.old }
        requires sound { IsInOrder R.value_of self.old }
        ensures keeps { Keeps R.value_of self.old self.new }
        ensures names { self.new.names ≡ self.old.names }
        ensures words { self.new.words ≡ self.old.words }
        ensures definitions { self.new.definitions ≡ self.old.definitions }
        ensures state { state_of self.new ≡ state_of self.old }
        ensures run { IfOk result (λ r. HasRun R.value_of self.new r.end r.steps) }
        ensures gone { IfOk result (λ r.
            Goes O.picks (library_of R.value_of self.old) (work_of self.old) r.steps
            (work_of self.new)) }
        ensures left { IfOk result (λ r. r.end ≡ Outcome.Unsettled → MayGoOn (work_of self.new)) }
        ensures blamed { IfOk result (λ r.
            IfContradiction r.end (λ ps. IsBlamed self.new.search (set_of ps))) }
    {
        settle(
            &mut self.live,
            &mut self.search,
            &mut self.order,
            self.limit,
        )
    }

    /// Runs the network and answers the question, and tells in how many steps.
    pub(crate) fn answered(&mut self, question: Question<'_>) -> (Reply, u64)
        requires means { IsMeant R.value_of self.old }
        requires sound { IsInOrder R.value_of self.old }
        requires named { IsNamed (state_of self.old) question }
        ensures { IsAnswered O.picks R.value_of self.old (command_of question.entry)
            (answer_of result.0) result.1 self.new }
    {
        match self.run_network() {
            Ok(Ended { end, steps }) => (self.reply_to(question, &end, steps), steps),
            Err(AllocError) => (Reply::Refused(Refusal::Memory), 0),
        }
    }

    /// The answer to a question where a run of so many steps ended so.
    fn reply_to(&self, question: Question<'_>, end: &Outcome, steps: u64) -> Reply
        requires sound { IsInOrder R.value_of self.now }
        requires named { IsNamed (state_of self.now) question }
        requires run { HasRun R.value_of self.now end.now steps }
        ensures says { MayAnswer R.value_of self.now (command_of question.entry) end.now steps
            (answer_of result) }
        ensures believed { end.now ≡ Outcome.Unsettled → SaysSoFar (state_of self.now)
            (work_of self.now) (command_of question.entry) (answer_of result) }
        ensures lean { IsLeanIn self.now (command_of question.entry) (answer_of result) }
    {
        match end {
            Outcome::Settled => self.settled(question),
            Outcome::Contradiction(premises) => {
                contradiction_reply(self.alloc, self.search.premises(), premises)
            }
            Outcome::Unsettled => self.unsettled(question),
        }
    }

    /// The answer to a question where the network is at rest.
    fn settled(&self, question: Question<'_>) -> Reply
        requires sound { IsInOrder R.value_of self.now }
        requires named { IsNamed (state_of self.now) question }
        requires rest { IsAtRest R.value_of self.now }
        ensures says { (steps : ℕ) → MayAnswer R.value_of self.now (command_of question.entry)
            Outcome.Settled steps (answer_of result) }
        ensures lean { IsLeanIn self.now (command_of question.entry) (answer_of result) }
    {
        match question {
            Question::Settle => text_reply(self.alloc, "settled"),
            Question::Worldview => {
                worldview_reply(self.alloc, self.search.premises(), self.search.worldview())
            },
            Question::Ask(cell, name) => {
                let info = self.live.network().belief(cell, self.search.worldview());
                self.value_of(cell, name, info, "")
            }
            Question::Why(cell, name) => self.explained(self.search.worldview(), cell, name, ""),
        }
    }

    /// The answer to a question where every step of the limit was used.
    fn unsettled(&self, question: Question<'_>) -> Reply
        requires sound { IsInOrder R.value_of self.now }
        requires named { IsNamed (state_of self.now) question }
        ensures says { MayAnswer R.value_of self.now (command_of question.entry) Outcome.Unsettled
            self.now.limit (answer_of result) }
        ensures believed { SaysSoFar (state_of self.now) (work_of self.now)
            (command_of question.entry) (answer_of result) }
        ensures lean { IsLeanIn self.now (command_of question.entry) (answer_of result) }
    {
        match question {
            Question::Settle | Question::Worldview => text_reply(self.alloc, "unsettled"),
            Question::Ask(..) | Question::Why(..) => {
                let whole = match self.search.whole() {
                    Ok(whole) => whole,
                    Err(AllocError) => return Reply::Refused(Refusal::Memory),
                };
                let reply = self.so_far(&whole, question);
                drop(whole);
                reply
            }
        }
    }

    /// The answer to a question for a cell in the worldview of the whole list, where the side of
    /// each choice need not be believed yet.
    fn so_far(&self, whole: &Worldview, question: Question<'_>) -> Reply
        requires sound { IsInOrder R.value_of self.now }
        requires named { IsNamed (state_of self.now) question }
        requires whole { IsSame (set_of whole.now)
            (worldview_at (state_of self.now) self.now.search.list) }
        ensures says { MayAnswer R.value_of self.now (command_of question.entry)
            Outcome.Unsettled self.now.limit (answer_of result) }
        ensures believed { SaysSoFar (state_of self.now) (work_of self.now)
            (command_of question.entry) (answer_of result) }
        ensures lean { IsLeanIn self.now (command_of question.entry) (answer_of result) }
    {
        let mark = " unsettled";
        match question {
            Question::Settle | Question::Worldview => text_reply(self.alloc, "unsettled"),
            Question::Ask(cell, name) => {
                self.value_of(cell, name, self.live.network().belief(cell, whole), mark)
            }
            Question::Why(cell, name) => self.explained(whole, cell, name, mark),
        }
    }

    /// What follows for a cell.
    pub(crate) fn ask(&mut self, name: &str) -> (Reply, u64)
        requires means { IsMeant R.value_of self.old }
        requires sound { IsInOrder R.value_of self.old }
        ensures { IsAnswered O.picks R.value_of self.old (commands.Command.Ask name.now)
            (answer_of result.0) result.1 self.new }
    {
        match self.names.find(name) {
            Some(cell) => self.answered(Question::Ask(cell, name)),
            None => (Reply::Refused(Refusal::NoSuchCell), 0),
        }
    }

    /// What follows for a cell, and for which premises.
    pub(crate) fn why(&mut self, name: &str) -> (Reply, u64)
        requires means { IsMeant R.value_of self.old }
        requires sound { IsInOrder R.value_of self.old }
        ensures { IsAnswered O.picks R.value_of self.old (commands.Command.Why name.now)
            (answer_of result.0) result.1 self.new }
    {
        match self.names.find(name) {
            Some(cell) => self.answered(Question::Why(cell, name)),
            None => (Reply::Refused(Refusal::NoSuchCell), 0),
        }
    }

    /// What follows for a cell, and for which premises, none of which can be left out.
    pub(crate) fn core(&mut self, name: &str) -> (Reply, u64)
        requires means { IsMeant R.value_of self.old }
        requires sound { IsInOrder R.value_of self.old }
        ensures { IsAnswered O.picks R.value_of self.old (commands.Command.Core name.now)
            (answer_of result.0) result.1 self.new }
    {
        match self.names.find(name) {
            Some(cell) => self.core_of(cell, name),
            None => (Reply::Refused(Refusal::NoSuchCell), 0),
        }
    }

    /// Runs the network, and where it settles leaves out what premises it can.
    fn core_of(&mut self, cell: usize, name: &str) -> (Reply, u64)
        requires means { IsMeant R.value_of self.old }
        requires sound { IsInOrder R.value_of self.old }
        requires named { cell_named self.old.names name.now ≡ Some cell }
        ensures { IsAnswered O.picks R.value_of self.old (commands.Command.Core name.now)
            (answer_of result.0) result.1 self.new }
    {
        match self.run_network() {
            Ok(Ended { end, steps }) => self.core_reply(cell, name, &end, steps),
            Err(AllocError) => (Reply::Refused(Refusal::Memory), 0),
        }
    }

    /// The answer with a core where a run of so many steps ended so, and the steps that both take.
    fn core_reply(&mut self, cell: usize, name: &str, end: &Outcome, steps: u64) -> (Reply, u64)
        requires means { IsMeant R.value_of self.old }
        requires sound { IsInOrder R.value_of self.old }
        requires named { cell_named self.old.names name.now ≡ Some cell }
        requires run { HasRun R.value_of self.old end.now steps }
        ensures keeps { Keeps R.value_of self.old self.new }
        ensures state { state_of self.new ≡ state_of self.old }
        ensures says { MayAnswer R.value_of self.old (commands.Command.Core name.now) end.now
            result.1 (answer_of result.0) }
        ensures believed { end.now ≡ Outcome.Unsettled → SaysSoFar (state_of self.old)
            (work_of self.old) (commands.Command.Core name.now) (answer_of result.0) }
        ensures within { result.1 ≤ self.old.limit }
        ensures tried { end.now ≡ Outcome.Settled
            → CountsTries O.picks R.value_of self.old steps (answer_of result.0) result.1 self.new }
        ensures untried { end.now ≢ Outcome.Settled
            → (work_of self.new ≡ work_of self.old) × (result.1 ≡ steps) }
    {
        match end {
            Outcome::Settled => self.reduced(cell, name, steps),
            Outcome::Contradiction(premises) => {
                let reply = contradiction_reply(self.alloc, self.search.premises(), premises);
                (reply, steps)
            }
            Outcome::Unsettled => (self.unsettled(Question::Why(cell, name)), steps),
        }
    }

    /// What follows for a cell of a network that came to rest in so many steps, and for which
    /// premises, where as many are left out as the steps that are left allow; and how many steps
    /// that makes together.
    fn reduced(&mut self, cell: usize, name: &str, steps: u64) -> (Reply, u64)
        requires means { IsMeant R.value_of self.old }
        requires sound { IsInOrder R.value_of self.old }
        requires named { cell_named self.old.names name.now ≡ Some cell }
        requires rest { IsAtRest R.value_of self.old }
        requires within { steps ≤ self.old.limit }
        requires few { steps < lists_count
            (choices_in (state_of self.old))
            * (most_steps (problem_in (library_of R.value_of self.old) (state_of self.old)) + 1) }
        ensures keeps { Keeps R.value_of self.old self.new }
        ensures state { state_of self.new ≡ state_of self.old }
        ensures says { MayAnswer R.value_of self.old (commands.Command.Core name.now)
            Outcome.Settled result.1 (answer_of result.0) }
        ensures within { result.1 ≤ self.old.limit }
        ensures tried { CountsTries O.picks R.value_of self.old steps (answer_of result.0) result.1
            self.new }
    {
        let ended = reduce(
            &mut self.live,
            &mut self.order,
            self.search.worldview(),
            cell,
            self.limit - steps,
        );
        match ended {
            Ok(core) => (self.core_text(cell, name, &core.end), steps + core.steps),
            Err(AllocError) => (Reply::Refused(Refusal::Memory), 0),
        }
    }

    /// What a core says of a cell.
    fn core_text(&self, cell: usize, name: &str, core: &Core) -> Reply
        requires cell { cell < length self.now.live.network.cells.kinds }
        requires known { OfCore core.now (λ v s. All (λ p. p < length self.now.search.premises) s) }
        ensures least { IfLeast core.now
            (λ v s. SaysBecause (state_of self.now) cell name.now [] v s (answer_of result)) }
        ensures not_reduced { IfNotReduced core.now
            (λ v s. SaysBecause (state_of self.now) cell name.now (codes " not reduced") v s
            (answer_of result)) }
    {
        match core {
            Core::Least(why) => self.said_because(cell, name, "", why),
            Core::NotReduced(why) => self.said_because(cell, name, " not reduced", why),
        }
    }

    /// The nogoods that were learned.
    pub(crate) fn nogoods(&self) -> Reply
        requires sound { IsInOrder R.value_of self.now }
        ensures { IsAnswered O.picks R.value_of self.now commands.Command.Nogoods (answer_of result)
            0 self.now }
    {
        nogoods_reply(self.alloc, self.search.premises(), self.search.nogoods())
    }

    /// An information of a cell, with the mark behind it.
    fn value_of(&self, cell: usize, name: &str, info: Info, mark: &str) -> Reply
        requires { cell < length self.now.live.network.cells.kinds }
        ensures { Says (answer_of result)
            (equation name.now (text_at (state_of self.now) cell info) mark.now) }
    {
        let kind = self.live.network().data().kind(cell).kind;
        match self.words.print_value(self.alloc, kind, info) {
            Ok(value) => value_reply(self.alloc, name, &value, mark),
            Err(AllocError) => Reply::Refused(Refusal::Memory),
        }
    }

    /// What is believed of a cell in a worldview, the mark, and premises that are enough for it.
    fn explained(&self, worldview: &Worldview, cell: usize, name: &str, mark: &str) -> Reply
        requires sound { IsInOrder R.value_of self.now }
        requires cell { cell < length self.now.live.network.cells.kinds }
        ensures explained { Explained (library_of R.value_of self.now) (state_of self.now)
            (set_of worldview.now) cell
            (beliefs (set_of worldview.now) self.now.live.network.cells.contents cell) name.now
            mark.now (answer_of result) }
        ensures lean { (text : List ℕ) → answer_of result ≡ Text text
            → IsLeanExplanation (set_of worldview.now) self.now.live.network.cells
            (state_of self.now) cell name.now mark.now text }
    {
        let why = match self.live.network().explanation(cell, worldview) {
            Ok(why) => why,
            Err(AllocError) => return Reply::Refused(Refusal::Memory),
        };
        self.said_because(cell, name, mark, &why)
    }

    /// A value of a cell, the mark, and the premises that it rests on.
    fn said_because(&self, cell: usize, name: &str, mark: &str, why: &Supported<Info>) -> Reply
        requires cell { cell < length self.now.live.network.cells.kinds }
        requires known { All (λ p. p < length self.now.search.premises) why.now.support }
        ensures { SaysBecause (state_of self.now) cell name.now mark.now why.now.value
            why.now.support (answer_of result) }
    {
        match because(self.alloc, self.search.premises(), mark, &why.support) {
            Ok(mark) => self.value_of(cell, name, why.value, &mark),
            Err(AllocError) => Reply::Refused(Refusal::Memory),
        }
    }
}
