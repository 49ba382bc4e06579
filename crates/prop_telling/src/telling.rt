//! A session that tells what it does.
ghost use Rattle.std.specs.Prelude.{◌≡◌};
ghost use Rattle.prop_engine.specs.Answers.{answer_of};
ghost use Rattle.prop_notes.specs.Notes.{is_done};

use crate::asking::{is_how, is_list, is_step, may_declare};
use prop_amb::{Move, Step};
use prop_engine::Reply;
use prop_language::{Command, read_line};
use prop_lattice::Info;
use prop_notes::{Note, Notes, call_text, cell_text, moved_text, sides_text};
use prop_premises::{PremiseSet, Worldview};
use prop_procedures::Rule;
use prop_refusals::Refusal;
use prop_scheduler::Order;
use prop_texts::{because, print_set};
use prop_workbench::Session;
use std::alloc::{AllocError, Global};

/// Whether a line was carried out without a word.
fn is_done(reply: &Reply) -> bool
    ensures { result ≡ is_done (answer_of reply.now) }
{
    matches!(reply, Reply::Done)
}

/// A session that tells what it does, and what its lines declared.
#[derive(Drop)]
pub struct Teller<R, O> {
    pub(crate) session: Session<R, O>,
    pub(crate) notes: Notes,
}

impl<R: Rule + Drop, O: Order + Drop> Teller<R, O> {
    ghost use Rattle.std.specs.Prelude.{◌≡◌, ◌<◌, ◌+◌, ◌++◌, length, codes, All, IfOk, OnOk, OnErr};
    ghost use Rattle.std.specs.Prelude.{true, Some};
    ghost use Rattle.std.specs.Prelude.{string_bytes};
    ghost use Rattle.prop_numbers.specs.Sets.{set_of};
    ghost use Rattle.prop_engine.specs.Answers.{answer_of};
    ghost use Rattle.prop_texts.specs.Texts.{support_text, contradiction_text};
    ghost use Rattle.prop_workbench.specs.Engine.{standing_of, Works};
    ghost use Rattle.prop_workbench.specs.Sessions.{library_of, state_of, work_of};
    ghost use Rattle.prop_workbench.specs.Sessions.{IsSound, IsMeant};
    ghost use Rattle.prop_telling.specs.Telling.{telling, DoesAsSession, IsNoted, TellsStep};
    ghost use Rattle.prop_telling.specs.Telling.{SaysStep, SaysCall, SaysValue};
    ghost use Rattle.prop_notes.specs.Texts.{moved_text, sides_text};
    ghost use Rattle.prop_telling.specs.Texts.{says_text, two_lines, three_lines};
    ghost use Rattle.prop_telling.specs.inner.Telling.{IsNamed, LacksMemory, told_of};
    ghost use Rattle.prop_notes.specs.inner.Notes.{note_value};
    ghost use Rattle.prop_notes.specs.Notes.{no_notes, note_read};
    ghost use Rattle.prop_telling.specs.Asking.{may_declare};
    ghost use Rattle.prop_workbench.specs.Loading.{Loads};
    ghost use Rattle.std.specs.Prelude.{Err};
    ghost use Rattle.prop_refusals.specs.declared.refusal.Refusal.TheVariants.{Memory};
    ghost use Rattle.prop_language.specs.Said.{KeepsWords, Reads, words};
    ghost use Rattle.prop_language.specs.Tokens.{tokens};
    ghost use Rattle.prop_language.specs.inner.Lines.{without_return};
    ghost use Rattle.prop_language.specs.Reading.{AsRead, IsReading};
    ghost use Rattle.std.specs.Option.{option_map};

    /// A teller of a session.
    pub fn new(session: Session<R, O>) -> Teller<R, O>
        requires sound { IsSound R.value_of session }
        ensures session { result.session ≡ session }
        ensures notes { result.notes ≡ no_notes }
    {
        let notes = Notes::new(session.alloc());
        Teller { session, notes }
    }

    /// The session.
    pub fn session(&self) -> &Session<R, O>
        ensures { result.now ≡ self.now.session }
    {
        &self.session
    }

    /// Carries out a line: one of its own, or as its session does.
    pub fn command(&mut self, line: &[u8]) -> Reply
        requires means { IsMeant R.value_of self.old.session }
        requires sound { IsSound R.value_of self.old.session }
        ensures same { self.new.session.live.network.library
            ≡ self.old.session.live.network.library }
        ensures sound { IsSound R.value_of self.new.session }
        ensures tells { telling O.picks (library_of R.value_of self.old.session)
            (told_of self.old) line.now (answer_of result) (told_of self.new) }
    {
        if is_step(line) {
            return self.step();
        }
        if is_how(line) {
            return self.how(line);
        }
        if is_list(line) {
            return self.list();
        }
        if may_declare(line) {
            return self.declare(line);
        }
        self.pass(line)
    }

    /// Carries out a line as its session does, and notes nothing.
    fn pass(&mut self, line: &[u8]) -> Reply
        requires means { IsMeant R.value_of self.old.session }
        requires sound { IsSound R.value_of self.old.session }
        ensures same { self.new.session.live.network.library
            ≡ self.old.session.live.network.library }
        ensures sound { IsSound R.value_of self.new.session }
        ensures notes { self.new.notes ≡ self.old.notes }
        ensures works { Works O.picks (library_of R.value_of self.old.session)
            (standing_of self.old.session) line.now (answer_of result)
            (standing_of self.new.session) }
    {
        let read = read_line(self.session.alloc(), line);
        self.pass_read(line, read)
    }

    /// The same of a line that was read already.
    fn pass_read(&mut self, line: &[u8], read: Result<Command<'_>, Refusal>) -> Reply
        requires means { IsMeant R.value_of self.old.session }
        requires sound { IsSound R.value_of self.old.session }
        requires read { Reads read (IsReading line.now) }
        requires memory { (read ≡ Err Memory) → KeepsWords (tokens (without_return line.now)) }
        ensures same { self.new.session.live.network.library
            ≡ self.old.session.live.network.library }
        ensures sound { IsSound R.value_of self.new.session }
        ensures notes { self.new.notes ≡ self.old.notes }
        ensures works { Works O.picks (library_of R.value_of self.old.session)
            (standing_of self.old.session) line.now (answer_of result)
            (standing_of self.new.session) }
    {
        self.session.command_read(line, read)
    }

    /// What a line declares that was read already, if it is carried out.
    fn note(
        &self,
        line: &[u8],
        read: &Result<Command<'_>, Refusal>,
    ) -> Result<Option<Note>, AllocError>
        requires read { Reads read.now (IsReading line.now) }
        requires memory { (read.now ≡ Err Memory) → KeepsWords (tokens (without_return line.now)) }
        ensures ok { IfOk result (λ note. AsRead line.now (λ read. option_map note_value note
            ≡ note_read self.now.notes (length self.now.session.live.network.cells.kinds)
            (length self.now.session.live.network.cells.instances) read)) }
        ensures err { OnErr result (LacksMemory line.now) }
    {
        let alloc = self.session.alloc();
        let network = self.session.live().network();
        match read {
            Ok(command) => {
                let (cells, instances) = (network.cells(), network.instances());
                self.notes.note_of(alloc, command, cells, instances)
            }
            Err(refusal) => match refusal {
                Refusal::Memory => Err(AllocError),
                _ => Ok(None),
            },
        }
    }

    /// Carries out a line as its session does, and notes what it declares.
    fn declare(&mut self, line: &[u8]) -> Reply
        requires means { IsMeant R.value_of self.old.session }
        requires sound { IsSound R.value_of self.old.session }
        requires may { may_declare line.now ≡ true }
        ensures same { self.new.session.live.network.library
            ≡ self.old.session.live.network.library }
        ensures sound { IsSound R.value_of self.new.session }
        ensures does { DoesAsSession O.picks (library_of R.value_of self.old.session)
            (told_of self.old) line.now (answer_of result) (told_of self.new) }
    {
        let read = read_line(self.session.alloc(), line);
        match self.note(line, &read) {
            Ok(Some(note)) => self.declare_noted(line, read, note),
            Ok(None) => self.pass_read(line, read),
            Err(AllocError) => Reply::Refused(Refusal::Memory),
        }
    }

    /// Carries out a line as its session does, which was read already and declares this.
    fn declare_noted(
        &mut self,
        line: &[u8],
        read: Result<Command<'_>, Refusal>,
        note: Note,
    ) -> Reply
        requires means { IsMeant R.value_of self.old.session }
        requires sound { IsSound R.value_of self.old.session }
        requires read { Reads read (IsReading line.now) }
        requires memory { (read ≡ Err Memory) → KeepsWords (tokens (without_return line.now)) }
        requires may { may_declare line.now ≡ true }
        requires noted { AsRead line.now (λ read. Some (note_value note)
            ≡ note_read self.old.notes (length self.old.session.live.network.cells.kinds)
            (length self.old.session.live.network.cells.instances) read) }
        ensures same { self.new.session.live.network.library
            ≡ self.old.session.live.network.library }
        ensures sound { IsSound R.value_of self.new.session }
        ensures does { DoesAsSession O.picks (library_of R.value_of self.old.session)
            (told_of self.old) line.now (answer_of result) (told_of self.new) }
    {
        let (domains, definitions, uses) = self.notes.counts();
        match self.notes.add(note) {
            Ok(()) => {
                let reply = self.pass_read(line, read);
                if !is_done(&reply) {
                    self.notes.back(domains, definitions, uses);
                }
                reply
            }
            Err(AllocError) => Reply::Refused(Refusal::Memory),
        }
    }

    /// Carries out the lines of a prelude, in order. The first that is refused ends it with its
    /// refusal, and those before it stand.
    pub(crate) fn load_prelude(&mut self, lines: &[&str]) -> Result<(), Refusal>
        requires means { IsMeant R.value_of self.old.session }
        requires sound { IsSound R.value_of self.old.session }
        ensures same { self.new.session.live.network.library
            ≡ self.old.session.live.network.library }
        ensures sound { IsSound R.value_of self.new.session }
        ensures ok { OnOk result (Loads
            (telling O.picks (library_of R.value_of self.old.session)) (told_of self.old)
            (words lines.now) (told_of self.new)) }
    {
        for line in lines {
            if let Reply::Refused(refusal) = self.command(line.as_bytes()) {
                return Err(refusal);
            }
        }
        Ok(())
    }

    /// Takes one step of a run and tells it.
    fn step(&mut self) -> Reply
        requires means { IsMeant R.value_of self.old.session }
        requires sound { IsSound R.value_of self.old.session }
        ensures notes { self.new.notes ≡ self.old.notes }
        ensures same { self.new.session.live.network.library
            ≡ self.old.session.live.network.library }
        ensures sound { IsSound R.value_of self.new.session }
        ensures tells { TellsStep O.picks (library_of R.value_of self.old.session)
            (standing_of self.old.session) (answer_of result) (standing_of self.new.session) }
    {
        match self.session.step() {
            Ok(step) => {
                let text = self.told(&step);
                // One call in place of the drop of each part, which a proof would go through.
                drop(step);
                Reply::saying(text)
            }
            Err(AllocError) => Reply::Refused(Refusal::Memory),
        }
    }

    /// What is said of a step that was taken.
    fn told(&self, step: &Step) -> Result<String, AllocError>
        requires sound { IsSound R.value_of self.now.session }
        requires named { IsNamed (work_of self.now.session) step.now }
        ensures { IfOk result (λ text. SaysStep (library_of R.value_of self.now.session)
            (state_of self.now.session) (work_of self.now.session) step.now (string_bytes text)) }
    {
        match step {
            Step::Called(called) => self.call(*called),
            Step::Moved(by) => self.moved(by),
            Step::Settled => self.end("settled"),
            Step::Contradiction(premises) => self.contradiction(premises),
        }
    }

    /// What is said of a call.
    fn call(&self, called: usize) -> Result<String, AllocError>
        requires sound { IsSound R.value_of self.now.session }
        requires called { called < length self.now.session.live.network.cells.instances }
        ensures { IfOk result (λ text. SaysCall (library_of R.value_of self.now.session)
            (state_of self.now.session) (work_of self.now.session) called (string_bytes text)) }
    {
        let alloc = self.session.alloc();
        let network = self.session.live().network();
        let sides = self.sides(self.session.search().worldview())?;
        let call = call_text(alloc, self.session.names(), network, called)?;
        let value = self.value(network.output(called))?;
        format!(in alloc; "step 3\nsides:{sides}\n{call}\n{value}")
    }

    /// What is believed of a cell, and why.
    fn value(&self, cell: usize) -> Result<String, AllocError>
        requires sound { IsSound R.value_of self.now.session }
        requires cell { cell < length self.now.session.live.network.cells.kinds }
        ensures { IfOk result (λ text. SaysValue (state_of self.now.session)
            (work_of self.now.session) cell (string_bytes text)) }
    {
        let network = self.session.live().network();
        let why = network.explanation(cell, self.session.search().worldview())?;
        self.said(cell, why.value, &why.support)
    }

    /// What is said of a cell, and on which premises.
    pub(crate) fn said(
        &self,
        cell: usize,
        value: Info,
        support: &PremiseSet,
    ) -> Result<String, AllocError>
        requires cell { cell < length self.now.session.live.network.cells.kinds }
        requires known { All (λ p. p < length self.now.session.search.premises) support.now }
        ensures { IfOk result (λ text. string_bytes text ≡ says_text (state_of self.now.session)
            cell value support.now) }
    {
        let alloc = self.session.alloc();
        let name = cell_text(alloc, self.session.names(), cell)?;
        let kind = self.session.live().network().data().kind(cell).kind;
        let value = self.session.words().print_value(alloc, kind, value)?;
        let because = because(alloc, self.session.search().premises(), "", support)?;
        format!(in alloc; "{name} = {value}{because}")
    }

    /// The sides that are believed in a worldview.
    pub(crate) fn sides(&self, worldview: &Worldview) -> Result<String, AllocError>
        ensures { IfOk result (λ text. string_bytes text ≡ sides_text
            self.now.session.search.premises (set_of worldview.now)) }
    {
        sides_text(
            self.session.alloc(),
            self.session.search().premises(),
            worldview,
        )
    }

    /// What is said of a move.
    fn moved(&self, by: &Move) -> Result<String, AllocError>
        requires side { by.now.side < length self.now.session.search.premises }
        requires known { All (λ p. p < length self.now.session.search.premises) by.now.nogood }
        ensures { IfOk result (λ text. string_bytes text ≡ three_lines
            (sides_text self.now.session.search.premises (set_of by.now.before))
            (codes "moved:" ++ moved_text self.now.session.search.premises by.now.side)
            (codes "nogood:" ++ support_text self.now.session.search.premises by.now.nogood)) }
    {
        let alloc = self.session.alloc();
        let premises = self.session.search().premises();
        let sides = self.sides(&by.before)?;
        let labels = moved_text(alloc, premises, by.side)?;
        let nogood = print_set(alloc, premises, &by.nogood)?;
        format!(in alloc; "step 3\nsides:{sides}\nmoved:{labels}\nnogood:{nogood}")
    }

    /// What is said where no step is left, and every list is refuted.
    fn contradiction(&self, premises: &PremiseSet) -> Result<String, AllocError>
        requires { All (λ p. p < length self.now.session.search.premises) premises.now }
        ensures { IfOk result (λ text. string_bytes text ≡ two_lines
            (sides_text self.now.session.search.premises
            (set_of self.now.session.search.worldview))
            (contradiction_text self.now.session.search.premises premises.now)) }
    {
        let alloc = self.session.alloc();
        let names = print_set(alloc, self.session.search().premises(), premises)?;
        let end = format!(in alloc; "contradiction:{names}")?;
        self.end(&end)
    }

    /// What is said where no step is left.
    fn end(&self, end: &str) -> Result<String, AllocError>
        ensures { IfOk result (λ text. string_bytes text ≡ two_lines
            (sides_text self.now.session.search.premises
            (set_of self.now.session.search.worldview)) end.now) }
    {
        let sides = self.sides(self.session.search().worldview())?;
        format!(in self.session.alloc(); "step 2\nsides:{sides}\n{end}")
    }
}
