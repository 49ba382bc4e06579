//! Lines that define a cell as what an expression is worth: `let X = EXPR`.
ghost use Rattle.std.specs.Prelude.{◌≡◌, ◌⊎◌, IfErr, IfOk, IfSome, IsTrue, List, ℕ, Ok, Err, Some};
ghost use Rattle.std.specs.Prelude.{codes};
ghost use Rattle.prop_lattice.specs.declared.info.Info.TheVariants as infos;
ghost use Rattle.prop_language.specs.Commands as commands;
ghost use Rattle.prop_language.specs.Reading.{IsReading};
ghost use Rattle.prop_language.specs.Said.{kind_of, said};
ghost use Rattle.prop_compound.specs.Kinds.{kind_named};
ghost use Rattle.prop_vocabulary.specs.Said.{meant_of};
ghost use Rattle.prop_vocabulary.specs.Values as values;
ghost use Rattle.prop_vocabulary.specs.Values.{halves, span_value};
ghost use Rattle.prop_terms.specs.Terms as terms;
ghost use Rattle.prop_terms.specs.Terms.{term_of};
ghost use Rattle.prop_requiring.specs.Asking.{cell_line};
ghost use Rattle.prop_requiring.specs.inner.Puttings.{IsFixing, MayFix};

use crate::asking::{Defined, bare, read_definition, term_in};
use crate::domains::is_done;
use crate::requirer::Requirer;
use prop_compound::kind_named;
use prop_demands::foreseen;
use prop_engine::Reply;
use prop_guards::Guarded;
use prop_language::{Command, KindWord, Value, read_line};
use prop_lattice::{Info, Kind, Span};
use prop_meaning::{Foreseen, Known};
use prop_procedures::Kinded;
use prop_refusals::{Limit, Refusal};
use prop_scheduler::Order;
use prop_terms::{Infix, Sort, Term};
use prop_vocabulary::{Meant, Vocabulary, read_value};
use std::alloc::{AllocError, Global};

/// So many cells and instances are made beside those of the expression: the cell that is defined,
/// and whether it is what the expression is worth. And so many statements beside the constants: to
/// what the cell is fixed, and that it is the value.
const MORE_CELLS: usize = 2;

const MORE_INSTANCES: usize = 5;

const MORE_STATEMENTS: usize = 2;

/// What a definition does: the line that declares its cell, one that fixes it, and what is demanded
/// of it then.
#[derive(Drop)]
struct Prepared<'l> {
    declaring: Vec<u8>,
    fixing: Option<Vec<u8>>,
    equation: Term<'l>,
}

/// Whether a word stands in a term.
fn mentions(term: &Term<'_>, word: &[u8]) -> bool {
    match term {
        Term::Number(_) => false,
        Term::Name(name) => *name == word,
        Term::One(_, under) => mentions(under, word),
        Term::Braces(words) => mentions(words, word),
        Term::Two(_, left, right) => mentions(left, word) || mentions(right, word),
    }
}

/// The line that declares what stands before the equals sign, as a cell of this kind.
fn cell_line(alloc: Global, before: &[u8], kind: &[u8]) -> Result<Vec<u8>, AllocError>
    ensures { IfOk result (λ bytes. bytes.items ≡ cell_line before.now kind.now) }
{
    let mut bytes = Vec::from_slice(alloc, b"cell")?;
    bytes.extend_from_slice(before)?;
    bytes.push(b' ')?;
    bytes.extend_from_slice(kind)?;
    Ok(bytes)
}

/// Whether the bytes are the same.
fn is_same(bytes: &[u8], other: &[u8]) -> bool
    ensures { IsTrue result → (bytes.now ≡ other.now) }
{
    bytes == other
}

/// Whether the kinds are the same.
fn is_same_kind(kinded: Kinded, other: Kinded) -> bool
    ensures { IsTrue result → (kinded ≡ other) }
{
    kinded == other
}

/// Whether a word says this kind.
fn is_kind(words: &Vocabulary, word: KindWord, kinded: Kinded) -> bool
    ensures { IsTrue result → (kind_named words.now (kind_of word.entry) ≡ Some kinded) }
{
    match kind_named(words, word) {
        Some(named) => is_same_kind(named, kinded),
        None => false,
    }
}

/// Whether a command declares the cell with a name, of this kind.
fn declares(command: &Command, words: &Vocabulary, name: &[u8], kinded: Kinded) -> bool
    ensures { IsTrue result → (word : commands.KindWord)
        × (said command.now ≡ Some (commands.Command.Cell name.now word))
        × (kind_named words.now word ≡ Some kinded) }
{
    match command {
        Command::Cell(cell, word) if is_same(cell.as_bytes(), name) => {
            is_kind(words, *word, kinded)
        }
        _ => false,
    }
}

/// Whether a line does.
fn is_declaring(alloc: Global, words: &Vocabulary, line: &[u8], name: &[u8], kinded: Kinded) -> bool
    ensures { IsTrue result → (word : commands.KindWord)
        × IsReading line.now (Ok (Some (commands.Command.Cell name.now word)))
        × (kind_named words.now word ≡ Some kinded) }
{
    match read_line(alloc, line) {
        Ok(command) => declares(&command, words, name, kinded),
        Err(_) => false,
    }
}

/// The name that stands before the equals sign, as it is read where a cell of numbers is declared.
fn name_in(alloc: Global, before: &[u8]) -> Result<&[u8], Refusal>
    ensures { IfErr result (λ e. (e ≡ Refusal.Memory)
        ⊎ IsReading (cell_line before.now (codes "span")) (Err e)) }
{
    let Ok(line) = cell_line(alloc, before, b"span".as_slice()) else {
        return Err(Refusal::Memory);
    };
    match read_line(alloc, &line) {
        Ok(_) => Ok(bare(before)),
        Err(refusal) => Err(refusal),
    }
}

/// Whether the spans are the same.
fn is_same_span(span: Span, other: Span) -> bool
    ensures { IsTrue result → (span ≡ other) }
{
    span == other
}

/// The span that is meant, if one is.
fn span_meant(meant: &Meant) -> Option<Span>
    ensures { IfSome result (λ span. meant_of meant.now ≡ values.Known (infos.Span span)) }
{
    match meant {
        Meant::Known(Info::Span(span)) => Some(*span),
        _ => None,
    }
}

/// Whether a word says the numbers of a span.
fn says(words: &Vocabulary, word: &[u8], span: Span) -> bool
    ensures { IsTrue result → (span_value (halves word.now) ≡ Ok (infos.Span span)) }
{
    let Ok(meant) = read_value(&Value::Bare(word), Kind::Span, words.truth()) else {
        return false;
    };
    match span_meant(&meant) {
        Some(said) => is_same_span(said, span),
        None => false,
    }
}

/// Whether a command fixes the cell with a name to the numbers of a span.
fn fixes(command: &Command, words: &Vocabulary, name: &[u8], span: Span) -> bool
    ensures { IsTrue result → (word : List ℕ) × (span_value (halves word) ≡ Ok (infos.Span span))
        × (said command.now ≡ Some (commands.Command.Fix name.now (commands.Bare word))) }
{
    match command {
        Command::Fix(cell, Value::Bare(word)) if is_same(cell.as_bytes(), name) => {
            says(words, word, span)
        }
        _ => false,
    }
}

/// Whether a line does.
fn is_fixing(alloc: Global, words: &Vocabulary, line: &[u8], name: &[u8], span: Span) -> bool
    ensures { IsTrue result → IsFixing name.now span line.now }
{
    match read_line(alloc, line) {
        Ok(command) => fixes(&command, words, name, span),
        Err(_) => false,
    }
}

/// The line that fixes what stands before the equals sign to the numbers of a span.
fn fix_line(alloc: Global, before: &[u8], span: Span) -> Result<Vec<u8>, AllocError> {
    let (lo, hi) = (span.lo(), span.hi());
    let value = format!(in alloc; "{lo}..{hi}")?;
    let mut bytes = Vec::from_slice(alloc, b"fix")?;
    bytes.extend_from_slice(before)?;
    bytes.push(b' ')?;
    bytes.extend_from_slice(value.as_bytes())?;
    Ok(bytes)
}

/// The line that fixes the cell with a name to what is known of it, if that is a number, where
/// there is memory for it.
fn fixing(
    alloc: Global,
    words: &Vocabulary,
    before: &[u8],
    name: &[u8],
    known: Known,
) -> Option<Vec<u8>>
    ensures { MayFix name.now known.span result }
{
    let Kind::Span = known.kinded.kind else {
        return None;
    };
    let Ok(line) = fix_line(alloc, before, known.span) else {
        return None;
    };
    if is_fixing(alloc, words, &line, name, known.span) {
        Some(line)
    } else {
        None
    }
}

/// That what has a name is what a term is worth.
fn equation<'l>(alloc: Global, name: &'l [u8], term: Term<'l>) -> Result<Term<'l>, AllocError>
    ensures { IfOk result
        (λ t. term_of t ≡ terms.Two Infix.Equal (terms.Name name.now) (term_of term.entry)) }
{
    match (Box::new(alloc, Term::Name(name)), Box::new(alloc, term)) {
        (Ok(left), Ok(right)) => Ok(Term::Two(Infix::Equal, left, right)),
        _ => Err(AllocError),
    }
}

impl<R: Guarded + Drop, O: Order + Drop> Requirer<R, O> {
    ghost use Rattle.std.specs.Prelude.{◌≡◌, ◌⊎◌, ◌++◌, IfErr, IfOk, IfSome, List, ℕ, Ok, Some};
    ghost use Rattle.std.specs.Prelude.{codes, true};
    ghost use Rattle.prop_refusals.specs.declared.refusal.Limit.{Limit as Limits};
    ghost use Rattle.prop_language.specs.Commands as commands;
    ghost use Rattle.prop_language.specs.Reading.{IsReading};
    ghost use Rattle.prop_compound.specs.Kinds.{kind_named};
    ghost use Rattle.prop_engine.specs.Answers.{answer_of};
    ghost use Rattle.prop_workbench.specs.Sessions.{library_of, state_of};
    ghost use Rattle.prop_terms.specs.Terms.{term_of};
    ghost use Rattle.prop_terms.specs.Writing.{IsWritten};
    ghost use Rattle.prop_demands.specs.Foreseeing.{IsKnownIn};
    ghost use Rattle.prop_demands.specs.Refusing.{is_of_term};
    ghost use Rattle.prop_seeking.specs.inner.Seekers.{sought_of};
    ghost use Rattle.prop_requiring.specs.Asking.{cell_line};
    ghost use Rattle.prop_requiring.specs.Requiring.{Defines};
    ghost use Rattle.prop_requiring.specs.inner.Puttings.{Carries, IsHindered, MayPass, Prepares};
    ghost use Rattle.prop_requiring.specs.inner.Requirers.{IsReady};

    /// Why there is no room for what is made beside so much.
    fn no_room(&self, foreseen: Foreseen) -> Option<Limit> {
        let there = self.blamer.cells();
        let cells = foreseen.cells.saturating_add(MORE_CELLS);
        let instances = foreseen.acts.saturating_add(MORE_INSTANCES);
        let statements = foreseen.constants.saturating_add(MORE_STATEMENTS);
        if there.len().saturating_add(cells) > Limit::Cells.most() {
            Some(Limit::Cells)
        } else if there.instance_count().saturating_add(instances) > Limit::Instances.most() {
            Some(Limit::Instances)
        } else if there.statement_count().saturating_add(statements) > Limit::Statements.most() {
            Some(Limit::Statements)
        } else {
            None
        }
    }

    /// What is known of a term's value, where there is room for what it needs.
    fn known_of(&self, term: &Term<'_>) -> Result<Known, Refusal>
        requires ready { IsReady R.value_of self.now }
        ensures known { IfOk result (λ known. IsKnownIn
            (library_of R.value_of self.now.blamer.seeker.teller.session)
            (state_of self.now.blamer.seeker.teller.session) (term_of term.now) known.kinded
            known.span) }
        ensures refused { IfErr result (λ e. ((e ≡ Refusal.Memory) ⊎ (is_of_term e ≡ true))
            ⊎ ((limit : Limits) × (e ≡ Refusal.LimitReached limit))) }
    {
        let blamer = &self.blamer;
        let foreseen = match foreseen(
            blamer.alloc(),
            blamer.names(),
            blamer.words(),
            blamer.cells(),
            term,
        ) {
            Ok(foreseen) => foreseen,
            Err(refusal) => return Err(refusal),
        };
        match self.no_room(foreseen) {
            Some(limit) => Err(Refusal::LimitReached(limit)),
            None => Ok(foreseen.known),
        }
    }

    /// The line that declares what stands before the equals sign, as a cell with the name and of
    /// the kind, where there is memory for it.
    fn declaring(&self, before: &[u8], name: &[u8], kinded: Kinded) -> Option<Vec<u8>>
        ensures { IfSome result (λ line. (kind : List ℕ) × (word : commands.KindWord)
            × (line.items ≡ cell_line before.now kind)
            × IsReading line.items (Ok (Some (commands.Command.Cell name.now word)))
            × (kind_named self.now.blamer.seeker.teller.session.words word ≡ Some kinded)) }
    {
        let (alloc, words) = (self.blamer.alloc(), self.blamer.words());
        let kind = self.kind_word(kinded)?;
        let Ok(line) = cell_line(alloc, before, kind) else {
            return None;
        };
        if is_declaring(alloc, words, &line, name, kinded) {
            Some(line)
        } else {
            None
        }
    }

    /// What a definition does whose text says this term, of whose value this is known. Refused with
    /// 4 is a term in which the name stands.
    fn prepare_term<'l>(
        &self,
        parts: Defined<'l>,
        term: Term<'l>,
        known: Known,
    ) -> Result<Prepared<'l>, Refusal>
        requires writes { IsWritten Sort.Any parts.text.now (term_of term) }
        requires known { IsKnownIn (library_of R.value_of self.now.blamer.seeker.teller.session)
            (state_of self.now.blamer.seeker.teller.session) (term_of term) known.kinded
            known.span }
        ensures ok { IfOk result (λ p. Prepares
            (library_of R.value_of self.now.blamer.seeker.teller.session)
            (state_of self.now.blamer.seeker.teller.session) parts.entry.before.now
            parts.entry.text.now p.declaring.items p.fixing (term_of p.equation)) }
        ensures err { IfErr result (IsHindered parts.entry.before.now parts.entry.text.now) }
    {
        let alloc = self.blamer.alloc();
        let name = match name_in(alloc, parts.before) {
            Ok(name) => name,
            Err(refusal) => {
                drop(term);
                return Err(refusal);
            }
        };
        if mentions(&term, name) {
            drop(term);
            return Err(Refusal::WrongForm);
        }
        let Some(declaring) = self.declaring(parts.before, name, known.kinded) else {
            drop(term);
            return Err(Refusal::Memory);
        };
        let fixing = fixing(alloc, self.blamer.words(), parts.before, name, known);
        match equation(alloc, name, term) {
            Ok(equation) => Ok(Prepared {
                declaring,
                fixing,
                equation,
            }),
            Err(_) => Err(Refusal::Memory),
        }
    }

    /// What a definition does, where it is not refused before anything is made.
    fn prepare<'l>(&self, parts: Defined<'l>) -> Result<Prepared<'l>, Refusal>
        requires ready { IsReady R.value_of self.now }
        ensures ok { IfOk result (λ p. Prepares
            (library_of R.value_of self.now.blamer.seeker.teller.session)
            (state_of self.now.blamer.seeker.teller.session) parts.entry.before.now
            parts.entry.text.now p.declaring.items p.fixing (term_of p.equation)) }
        ensures err { IfErr result (IsHindered parts.entry.before.now parts.entry.text.now) }
    {
        let term = match term_in(self.blamer.alloc(), parts.text, Sort::Any) {
            Ok(term) => term,
            Err(refusal) => return Err(refusal),
        };
        match self.known_of(&term) {
            Ok(known) => self.prepare_term(parts, term, known),
            Err(refusal) => {
                drop(term);
                Err(refusal)
            }
        }
    }

    /// Carries out the line, if there is one, whatever is replied.
    fn fix(&mut self, line: &Option<Vec<u8>>)
        requires ready { IsReady R.value_of self.old }
        ensures same { self.new.blamer.seeker.teller.session.live.network.library
            ≡ self.old.blamer.seeker.teller.session.live.network.library }
        ensures ready { IsReady R.value_of self.new }
        ensures passes { MayPass O.picks
            (library_of R.value_of self.old.blamer.seeker.teller.session)
            (sought_of self.old.blamer.seeker) line.now
            (sought_of self.new.blamer.seeker) }
    {
        match line {
            Some(line) => drop(self.blamer.command(line)),
            None => {}
        }
    }

    /// Declares the cell of a definition, and fixes it, and has the equation hold then.
    fn declare(&mut self, prepared: &Prepared<'_>) -> Reply
        requires ready { IsReady R.value_of self.old }
        ensures same { self.new.blamer.seeker.teller.session.live.network.library
            ≡ self.old.blamer.seeker.teller.session.live.network.library }
        ensures ready { IsReady R.value_of self.new }
        ensures declares { Carries O.picks
            (library_of R.value_of self.old.blamer.seeker.teller.session)
            (sought_of self.old.blamer.seeker) prepared.now.declaring.items prepared.now.fixing
            (term_of prepared.now.equation) (answer_of result) (sought_of self.new.blamer.seeker) }
    {
        let reply = self.blamer.command(&prepared.declaring);
        if !is_done(&reply) {
            return reply;
        }
        drop(reply);
        self.fix(&prepared.fixing);
        // All else was looked at before the cell was declared.
        match self.put(&prepared.equation, None) {
            Ok(()) => Reply::Done,
            Err(_) => Reply::Refused(Refusal::Memory),
        }
    }

    /// Defines a cell by what a line says behind `let`.
    pub(crate) fn define(&mut self, behind: &[u8]) -> Reply
        requires ready { IsReady R.value_of self.old }
        ensures same { self.new.blamer.seeker.teller.session.live.network.library
            ≡ self.old.blamer.seeker.teller.session.live.network.library }
        ensures ready { IsReady R.value_of self.new }
        ensures defines { Defines O.picks
            (library_of R.value_of self.old.blamer.seeker.teller.session)
            (sought_of self.old.blamer.seeker) (codes "let" ++ behind.now) (answer_of result)
            (sought_of self.new.blamer.seeker) }
    {
        let parts = match read_definition(behind) {
            Ok(parts) => parts,
            Err(refusal) => return Reply::Refused(refusal),
        };
        match self.prepare(parts) {
            Ok(prepared) => self.declare(&prepared),
            Err(refusal) => Reply::Refused(refusal),
        }
    }
}
