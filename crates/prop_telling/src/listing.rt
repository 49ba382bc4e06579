//! What is there, line by line: `list`.
ghost use Rattle.std.specs.Prelude.{◌≡◌, ◌<◌, ◌++◌, ◌∷◌, length, map, flat_map, IfOk, OnOk};
ghost use Rattle.std.specs.Prelude.{string_bytes, IfSome, Some, slice_get};
ghost use Rattle.prop_procedures.specs.Kept.{stored_of};
ghost use Rattle.prop_cells.specs.Data.{IsKept};
ghost use Rattle.prop_cells.specs.Instances.{Instance as InstanceOf};
ghost use Rattle.prop_texts.specs.inner.Listed.{label_at};
ghost use Rattle.prop_telling.specs.Listing.{belief_text, begin_text};
ghost use Rattle.prop_telling.specs.Listing.{list_text, instance_text, refuted_lines};

use crate::telling::Teller;
use prop_cells::Network;
use prop_engine::Reply;
use prop_notes::{Made, Notes, kind_text, label_text, push_text, reason_text};
use prop_premises::{Choice, Premise, PremiseSet, Premises};
use prop_procedures::Rule;
use prop_scheduler::Order;
use prop_vocabulary::CellNames;
use std::alloc::{AllocError, Global};

/// How a statement under this premise begins: `fix`, or `tell` with the premise.
fn begin_text(
    alloc: Global,
    premises: &Premises,
    premise: Option<Premise>,
) -> Result<String, AllocError>
    requires { IfSome premise (λ p. p < length premises.now) }
    ensures { IfOk result (λ text. string_bytes text ≡ begin_text premises.now premise) }
{
    match premise {
        Some(premise) => {
            let label = label_text(alloc, premises, premise)?;
            format!(in alloc; "tell {label}")
        }
        None => String::from_str(alloc, "fix"),
    }
}

/// Whether what is told stands, as a word.
fn belief_text(is_in: bool) -> &'static str
    ensures { result.now ≡ belief_text is_in }
{
    if is_in { "in" } else { "out" }
}

/// A line for each side that a choice left, with the reason against it.
fn push_refuted(
    alloc: Global,
    premises: &Premises,
    choice: Choice,
    reasons: &[PremiseSet],
    lines: &mut Vec<String>,
) -> Result<(), AllocError>
    requires first { choice.first < length premises.now }
    ensures { OnOk result (map string_bytes lines.new.items ≡ map string_bytes
        lines.old.items ++ refuted_lines premises.now choice reasons.now) }
{
    let name = premises.name(choice.first);
    for number in 0..reasons.len() {
        let reason = reason_text(alloc, premises, &reasons[number])?;
        let side = number + 1;
        lines.push(format!(in alloc; "refuted {name}={side} because{reason}")?)?;
    }
    Ok(())
}

/// A reply of these lines, the first of which says how many follow.
fn lines_text(alloc: Global, lines: &[String]) -> Result<String, AllocError>
    ensures { IfOk result (λ text.
        string_bytes text ≡ list_text (map string_bytes lines.now)) }
{
    let count = lines.len();
    let mut text = format!(in alloc; "list {count}")?;
    for line in lines {
        push_text(&mut text, line)?;
    }
    Ok(text)
}

/// An instance by its number and the use that made it, with its procedure, its cells and what it
/// was given.
fn instance_text<R: Rule + Drop>(
    alloc: Global,
    notes: &Notes,
    names: &CellNames,
    network: &Network<R>,
    number: usize,
) -> Result<String, AllocError>
    requires number { number < length network.now.cells.instances }
    requires kept { IsKept (stored_of R.value_of network.now.library) network.now.cells }
    ensures { (x : InstanceOf) → slice_get network.now.cells.instances number ≡ Some x
        → IfOk result (λ text. string_bytes text ≡ instance_text notes.now
        (stored_of R.value_of network.now.library) names.now number x) }
{
    let instance = network.data().instance(number);
    let name = network.library().get(instance.procedure()).name();
    let Made { path, by } = notes.made_at(alloc, number)?;
    let inputs = notes.cell_names(alloc, names, instance.inputs())?;
    let output = notes.cell_name(alloc, names, instance.output())?;
    format!(in alloc; "instance {number} {path} {name}{inputs} {output}{by}")
}

impl<R: Rule + Drop, O: Order + Drop> Teller<R, O> {
    ghost use Rattle.std.specs.Prelude.{◌≡◌, ◌<◌, ◌++◌, length, map, flat_map, IfOk, OnOk};
    ghost use Rattle.std.specs.Prelude.{string_bytes, IsTrue, slice_index_or, []};
    ghost use Rattle.std.specs.List.{range_with_len};
    ghost use Rattle.prop_numbers.specs.Sets.{set_of};
    ghost use Rattle.prop_premises.specs.Origins.{is_user_at};
    ghost use Rattle.prop_engine.specs.Answers.{answer_of};
    ghost use Rattle.prop_workbench.specs.Engine.{standing_of};
    ghost use Rattle.prop_workbench.specs.Sessions.{library_of, state_of, work_of, IsSound};
    ghost use Rattle.prop_telling.specs.Listing.{cell_line, instance_line, statement_line};
    ghost use Rattle.prop_telling.specs.Listing.{premise_lines, choice_line, choice_lines};
    ghost use Rattle.prop_telling.specs.Listing.{lines_of, SaysList};
    ghost use Rattle.prop_telling.specs.Listing.{premise_line};

    /// Tells what is there.
    pub(crate) fn list(&self) -> Reply
        requires sound { IsSound R.value_of self.now.session }
        ensures { SaysList (library_of R.value_of self.now.session) self.now.notes
            (standing_of self.now.session) (answer_of result) }
    {
        Reply::saying(self.listed())
    }

    /// What is there.
    fn listed(&self) -> Result<String, AllocError>
        requires sound { IsSound R.value_of self.now.session }
        ensures { IfOk result (λ text. string_bytes text ≡ list_text (lines_of self.now.notes
            (library_of R.value_of self.now.session) (state_of self.now.session)
            (work_of self.now.session))) }
    {
        let alloc = self.session.alloc();
        let mut lines = Vec::new(alloc);
        self.push_cells(&mut lines)?;
        self.push_instances(&mut lines)?;
        self.push_statements(&mut lines)?;
        self.push_premises(&mut lines)?;
        self.push_choices(&mut lines)?;
        lines_text(alloc, &lines)
    }

    /// A line for each cell.
    fn push_cells(&self, lines: &mut Vec<String>) -> Result<(), AllocError>
        ensures { OnOk result (map string_bytes lines.new.items ≡ map string_bytes
            lines.old.items ++ map (cell_line self.now.notes (state_of self.now.session))
            (range_with_len 0 (length self.now.session.live.network.cells.kinds))) }
    {
        for cell in 0..self.session.live().network().cells() {
            lines.push(self.cell_line(cell)?)?;
        }
        Ok(())
    }

    /// A cell with its kind.
    fn cell_line(&self, cell: usize) -> Result<String, AllocError>
        requires cell { cell < length self.now.session.live.network.cells.kinds }
        ensures { IfOk result (λ text. string_bytes text ≡ cell_line self.now.notes
            (state_of self.now.session) cell) }
    {
        let alloc = self.session.alloc();
        let name = self.notes.cell_name(alloc, self.session.names(), cell)?;
        let kind = kind_text(
            &self.notes,
            self.session.live().network().data().kind(cell).kind,
        );
        format!(in alloc; "cell {name} {kind}")
    }

    /// A line for each instance.
    fn push_instances(&self, lines: &mut Vec<String>) -> Result<(), AllocError>
        requires sound { IsSound R.value_of self.now.session }
        ensures { OnOk result (map string_bytes lines.new.items ≡ map string_bytes
            lines.old.items ++ map (instance_line self.now.notes
            (library_of R.value_of self.now.session) (state_of self.now.session))
            (range_with_len 0 (length self.now.session.live.network.cells.instances))) }
    {
        let alloc = self.session.alloc();
        let names = self.session.names();
        let network = self.session.live().network();
        for number in 0..network.instances() {
            lines.push(instance_text(alloc, &self.notes, names, network, number)?)?;
        }
        Ok(())
    }

    /// A line for each statement.
    fn push_statements(&self, lines: &mut Vec<String>) -> Result<(), AllocError>
        requires sound { IsSound R.value_of self.now.session }
        ensures { OnOk result (map string_bytes lines.new.items ≡ map string_bytes
            lines.old.items ++ map (statement_line self.now.notes
            (state_of self.now.session))
            (range_with_len 0 (length self.now.session.live.network.cells.statements))) }
    {
        for number in 0..self.session.live().network().data().statement_count() {
            lines.push(self.statement_line(number)?)?;
        }
        Ok(())
    }

    /// A statement.
    fn statement_line(&self, number: usize) -> Result<String, AllocError>
        requires sound { IsSound R.value_of self.now.session }
        requires number { number < length self.now.session.live.network.cells.statements }
        ensures { IfOk result (λ text. string_bytes text ≡ statement_line self.now.notes
            (state_of self.now.session) number) }
    {
        let alloc = self.session.alloc();
        let data = self.session.live().network().data();
        let statement = data.statements()[number];
        let begin = begin_text(alloc, self.session.search().premises(), statement.premise)?;
        let name = self
            .notes
            .cell_name(alloc, self.session.names(), statement.cell)?;
        let kind = data.kind(statement.cell).kind;
        let value = self
            .session
            .words()
            .print_value(alloc, kind, statement.info)?;
        format!(in alloc; "{begin} {name} {value}")
    }

    /// A line for each premise of the user's.
    fn push_premises(&self, lines: &mut Vec<String>) -> Result<(), AllocError>
        ensures { OnOk result (map string_bytes lines.new.items ≡ map string_bytes
            lines.old.items ++ flat_map premise_lines self.now.session.search.premises) }
    {
        let premises = self.session.search().premises();
        for number in 0..premises.len() {
            let premise = number as Premise;
            if premises.side(premise).is_none() {
                lines.push(self.premise_line(premise)?)?;
            }
        }
        Ok(())
    }

    /// A premise of the user's, and whether it is believed.
    fn premise_line(&self, premise: Premise) -> Result<String, AllocError>
        requires premise { premise < length self.now.session.search.premises }
        ensures { IfOk result (λ text. string_bytes text
            ≡ premise_line self.now.session.search.premises premise) }
    {
        let alloc = self.session.alloc();
        let premises = self.session.search().premises();
        let name = premises.name(premise);
        let belief = belief_text(premises.is_in(premise));
        format!(in alloc; "premise {name} {belief}")
    }

    /// A line for each choice.
    fn push_choices(&self, lines: &mut Vec<String>) -> Result<(), AllocError>
        requires sound { IsSound R.value_of self.now.session }
        ensures { OnOk result (map string_bytes lines.new.items ≡ map string_bytes
            lines.old.items ++ flat_map (choice_lines self.now.session.search)
            (range_with_len 0 (length self.now.session.search.list))) }
    {
        for place in 0..self.session.search().list().len() {
            self.push_choice(place, lines)?;
        }
        Ok(())
    }

    /// A line for a choice, and one for each side that it left.
    fn push_choice(&self, place: usize, lines: &mut Vec<String>) -> Result<(), AllocError>
        requires sound { IsSound R.value_of self.now.session }
        requires place { place < length self.now.session.search.list }
        ensures { OnOk result (map string_bytes lines.new.items ≡ map string_bytes
            lines.old.items ++ choice_lines self.now.session.search place) }
    {
        let premises = self.session.search().premises();
        let choice = premises.choices()[place];
        lines.push(self.choice_line(place)?)?;
        push_refuted(
            self.session.alloc(),
            premises,
            choice,
            self.reasons_at(place),
            lines,
        )
    }

    /// The reasons against the sides that a choice left, in order.
    fn reasons_at(&self, place: usize) -> &[PremiseSet]
        requires place { place < length self.now.session.search.reasons }
        ensures { result.now ≡ slice_index_or self.now.session.search.reasons place [] }
    {
        self.session.search().reasons()[place].sets()
    }

    /// A choice, the side on which it stands, of how many, and whether that is believed.
    fn choice_line(&self, place: usize) -> Result<String, AllocError>
        requires sound { IsSound R.value_of self.now.session }
        requires place { place < length self.now.session.search.list }
        ensures { IfOk result (λ text. string_bytes text
            ≡ choice_line self.now.session.search.premises
            (set_of self.now.session.search.worldview) self.now.session.search.list place) }
    {
        let alloc = self.session.alloc();
        let search = self.session.search();
        let choice = search.premises().choices()[place];
        let side = search.list()[place];
        let name = search.premises().name(choice.first);
        let believed = choice.first + Premise::from(side - 1);
        let belief = belief_text(search.worldview().has(believed));
        let sides = choice.sides;
        format!(in alloc; "choice {name} {side} of {sides} {belief}")
    }
}
