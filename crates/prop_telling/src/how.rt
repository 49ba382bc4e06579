//! What makes up a value, told.
ghost use Rattle.std.specs.Prelude.{◌≡◌, ℕ, List};
ghost use Rattle.std.specs.Borrow.{Bor};
ghost use Rattle.std.specs.Option.{option_map};
ghost use Rattle.prop_language.specs.Said.{said};
ghost use Rattle.prop_telling.specs.How.{asked, lines_for, parts_of};

use crate::asking::as_why;
use crate::telling::Teller;
use prop_engine::Reply;
use prop_language::{Command, read_line};
use prop_lattice::Info;
use prop_notes::call_text;
use prop_origins::{Composition, Origin, Part, origins};
use prop_premises::PremiseSet;
use prop_procedures::Rule;
use prop_refusals::Refusal;
use prop_scheduler::Order;
use prop_texts::print_set;
use prop_tms::Supported;
use std::alloc::{AllocError, Global};
use std::fmt::Write;

/// How often procedures are called at most to find what makes up a value.
const CALLS: u64 = 1_000_000;

/// The cell's name, where the command asks why.
fn asked<'a>(command: &Command<'a>) -> Option<&'a str>
    ensures { option_map (λ (name : Bor (List ℕ)). name.now) result ≡ asked (said command.now) }
{
    match command {
        Command::Why(name) => Some(name),
        _ => None,
    }
}

/// How many lines follow the first one.
fn lines_for(made: &Composition) -> u128
    ensures { result ≡ lines_for (parts_of made.now) }
{
    match made {
        Composition::Whole(parts) => 2 + 2 * parts.len() as u128,
        Composition::Cut => 3,
    }
}

impl<R: Rule + Drop, O: Order + Drop> Teller<R, O> {
    ghost use Rattle.std.specs.Prelude.{◌≡◌, ◌<◌, ◌⊎◌, ◌++◌, All, codes, length, IfOk};
    ghost use Rattle.std.specs.Prelude.{OnOk, string_bytes};
    ghost use Rattle.prop_numbers.specs.Sets.{set_of};
    ghost use Rattle.prop_origins.specs.Whole.{IfWhole};
    ghost use Rattle.prop_engine.specs.Answers.{answer_of, Refused};
    ghost use Rattle.prop_refusals.specs.declared.refusal.Refusal.TheVariants.{Memory};
    ghost use Rattle.prop_workbench.specs.Engine.{standing_of};
    ghost use Rattle.prop_workbench.specs.Sessions.{library_of, state_of, work_of};
    ghost use Rattle.prop_workbench.specs.Sessions.{IsSound, IsMeant};
    ghost use Rattle.prop_texts.specs.Texts.{premises_text};
    ghost use Rattle.prop_telling.specs.How.{TellsHow, AnswersTo, SaysHow};
    ghost use Rattle.prop_telling.specs.How.{origin_text, part_text, parts_text, made_text};
    ghost use Rattle.prop_telling.specs.How.{how_text};
    ghost use Rattle.prop_notes.specs.Texts.{sides_text};
    ghost use Rattle.prop_telling.specs.Texts.{says_text};
    ghost use Rattle.prop_telling.specs.inner.How.{IsThere};

    /// Tells what makes up the value of a cell, as it stands. The line is read as if it said `why`.
    pub(crate) fn how(&self, line: &[u8]) -> Reply
        requires means { IsMeant R.value_of self.now.session }
        requires sound { IsSound R.value_of self.now.session }
        ensures { TellsHow (library_of R.value_of self.now.session)
            (standing_of self.now.session) line.now (answer_of result)
            (standing_of self.now.session) }
    {
        let alloc = self.session.alloc();
        let Ok(line) = as_why(alloc, line) else {
            return Reply::Refused(Refusal::Memory);
        };
        match read_line(alloc, &line) {
            Ok(command) => {
                let name = asked(&command);
                drop(command);
                self.how_asked(name)
            }
            Err(refusal) => Reply::Refused(refusal),
        }
    }

    /// Tells what makes up the value of the cell with the name, where there is one.
    fn how_asked(&self, name: Option<&str>) -> Reply
        requires means { IsMeant R.value_of self.now.session }
        requires sound { IsSound R.value_of self.now.session }
        ensures { (answer_of result ≡ Refused Memory) ⊎ AnswersTo
            (library_of R.value_of self.now.session) (standing_of self.now.session)
            (option_map (λ (name : Bor (List ℕ)). name.now) name.entry) (answer_of result) }
    {
        let Some(name) = name else {
            return Reply::Refused(Refusal::WrongForm);
        };
        match self.session.names().find(name) {
            Some(cell) => Reply::saying(self.how_of(cell)),
            None => Reply::Refused(Refusal::NoSuchCell),
        }
    }

    /// What is believed of a cell, and what makes it up.
    fn how_of(&self, cell: usize) -> Result<String, AllocError>
        requires means { IsMeant R.value_of self.now.session }
        requires sound { IsSound R.value_of self.now.session }
        requires cell { cell < length self.now.session.live.network.cells.kinds }
        ensures { IfOk result (λ text. SaysHow (library_of R.value_of self.now.session)
            (state_of self.now.session) (work_of self.now.session) cell (string_bytes text)) }
    {
        let alloc = self.session.alloc();
        let network = self.session.live().network();
        let why = network.explanation(cell, self.session.search().worldview())?;
        let made = origins(alloc, network, cell, &why, CALLS)?;
        let text = self.how_text(cell, &why, &made);
        // One call in place of the drop of each part, which a proof would go through one by one.
        drop(made);
        drop(why);
        text
    }

    /// What is told of a value of a cell, and of what makes it up.
    fn how_text(
        &self,
        cell: usize,
        why: &Supported<Info>,
        made: &Composition,
    ) -> Result<String, AllocError>
        requires sound { IsSound R.value_of self.now.session }
        requires cell { cell < length self.now.session.live.network.cells.kinds }
        requires known { All (λ p. p < length self.now.session.search.premises) why.now.support }
        requires there { IfWhole made.now (All (IsThere self.now.session.live.network.cells
            (length self.now.session.search.premises))) }
        ensures { IfOk result (λ text. string_bytes text ≡ how_text (lines_for (parts_of made.now))
            (sides_text self.now.session.search.premises
            (set_of self.now.session.search.worldview))
            (says_text (state_of self.now.session) cell why.now.value why.now.support)
            (made_text (library_of R.value_of self.now.session) (state_of self.now.session)
            (parts_of made.now))) }
    {
        let sides = self.sides(self.session.search().worldview())?;
        let value = self.said(cell, why.value, &why.support)?;
        let lines = lines_for(made);
        let made = self.made_text(made)?;
        format!(in self.session.alloc(); "how {lines}\nsides:{sides}\n{value}{made}")
    }

    /// The parts, or that they are not known.
    fn made_text(&self, made: &Composition) -> Result<String, AllocError>
        requires sound { IsSound R.value_of self.now.session }
        requires there { IfWhole made.now (All (IsThere self.now.session.live.network.cells
            (length self.now.session.search.premises))) }
        ensures { IfOk result (λ text. string_bytes text ≡ made_text
            (library_of R.value_of self.now.session) (state_of self.now.session)
            (parts_of made.now)) }
    {
        match made {
            Composition::Whole(parts) => self.parts(parts),
            Composition::Cut => String::from_str(self.session.alloc(), "\ncut"),
        }
    }

    /// Parts, two lines each, with a line feed before each line.
    fn parts(&self, parts: &[Part]) -> Result<String, AllocError>
        requires sound { IsSound R.value_of self.now.session }
        requires there { All (IsThere self.now.session.live.network.cells
            (length self.now.session.search.premises)) parts.now }
        ensures { IfOk result (λ text. string_bytes text ≡ parts_text
            (library_of R.value_of self.now.session) (state_of self.now.session) parts.now) }
    {
        let mut text = String::new(self.session.alloc());
        for part in parts {
            self.push_part(&mut text, part)?;
        }
        Ok(text)
    }

    /// Writes a part behind the text.
    fn push_part(&self, text: &mut String, part: &Part) -> Result<(), AllocError>
        requires sound { IsSound R.value_of self.now.session }
        requires there { IsThere self.now.session.live.network.cells
            (length self.now.session.search.premises) part.now }
        ensures { OnOk result (string_bytes text.new ≡ string_bytes text.old ++ part_text
            (library_of R.value_of self.now.session) (state_of self.now.session) part.now) }
    {
        let origin = self.origin(part)?;
        let value = self.said(part.cell(), part.value(), part.support())?;
        write!(text, "\n{origin}\n{value}")
    }

    /// Where a part comes from: a statement with its premise, or a call.
    fn origin(&self, part: &Part) -> Result<String, AllocError>
        requires sound { IsSound R.value_of self.now.session }
        requires there { IsThere self.now.session.live.network.cells
            (length self.now.session.search.premises) part.now }
        ensures { IfOk result (λ text. string_bytes text ≡ origin_text
            (library_of R.value_of self.now.session) (state_of self.now.session)
            part.now.support part.now.origin) }
    {
        match part.origin() {
            Origin::Told(_) => self.told_text(part.support()),
            Origin::Called(number) => {
                let network = self.session.live().network();
                call_text(self.session.alloc(), self.session.names(), network, number)
            }
        }
    }

    /// A statement by its premise.
    fn told_text(&self, support: &PremiseSet) -> Result<String, AllocError>
        requires known { All (λ p. p < length self.now.session.search.premises) support.now }
        ensures { IfOk result (λ text. string_bytes text ≡ codes "told:"
            ++ premises_text self.now.session.search.premises support.now) }
    {
        let alloc = self.session.alloc();
        if support.is_empty() {
            return String::from_str(alloc, "told:");
        }
        let premises = print_set(alloc, self.session.search().premises(), support)?;
        format!(in alloc; "told:{premises}")
    }
}
