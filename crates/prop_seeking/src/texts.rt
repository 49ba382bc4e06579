//! The texts of replies to questions for points. Each is the text that the specs state, or memory
//! was refused.
ghost use Rattle.std.specs.Prelude.{◌≡◌, ◌<◌, ◌++◌, ◌∷◌, ℕ, codes, length, map, zip, IfOk};
ghost use Rattle.std.specs.Prelude.{OnOk, string_bytes};
ghost use Rattle.std.specs.List.{join_by};
ghost use Rattle.prop_premises.specs.ChoiceLists.{hypothetical};
ghost use Rattle.prop_premises.specs.Origins.{choices_of};
ghost use Rattle.prop_premises.specs.declared.choice.Choice.{Choice as ChoiceOf};
ghost use Rattle.prop_texts.specs.inner.Listed.{label_at};
ghost use Rattle.prop_seeking.specs.inner.Pieces.{seen, lines_text, counted_text};

use crate::seeker::Seeker;
use prop_guards::Guarded;
use prop_lattice::{Info, Kind};
use prop_premises::{Choice, Premise, PremiseSet, Premises};
use prop_scheduler::Order;
use prop_solve::{Goal, Plan};
use prop_texts::print_set;
use std::alloc::{AllocError, Global};
use std::fmt::Write;

/// The symbol that stands for any that nobody named.
const UNNAMED: u32 = u32::MAX;

/// A symbol that nobody named stands for any, so nothing is said of it.
pub(crate) fn seen(info: Info) -> Info
    ensures { result ≡ seen info }
{
    match info {
        Info::Sym(UNNAMED) => Info::Nothing,
        _ => info,
    }
}

/// The label of a premise: a user's by its name, a side of a choice by the choice's name, `=` and
/// the side's number.
fn label_text(alloc: Global, premises: &Premises, premise: Premise) -> Result<String, AllocError>
    requires { premise < length premises.now }
    ensures { IfOk result (λ text. string_bytes text ≡ label_at premises.now premise) }
{
    let name = premises.name(premise);
    match premises.side(premise) {
        Some(side) => format!(in alloc; "{name}={side}"),
        None => String::from_str(alloc, name),
    }
}

/// The label of a side of a choice.
pub(crate) fn side_text(
    alloc: Global,
    premises: &Premises,
    choice: Choice,
    side: u8,
) -> Result<String, AllocError>
    ensures { IfOk result (λ text. string_bytes text
        ≡ label_at premises.now (hypothetical choice side)) }
{
    let number = usize::from(choice.first) + usize::from(side).saturating_sub(1);
    if number < premises.len() {
        label_text(alloc, premises, number as Premise)
    } else {
        Ok(String::new(alloc))
    }
}

/// A line for each choice, with the label of its side.
fn push_sides(
    alloc: Global,
    premises: &Premises,
    sides: &[u8],
    lines: &mut Vec<String>,
) -> Result<(), AllocError>
    ensures { OnOk result (map string_bytes lines.new.items ≡ map string_bytes lines.old.items
        ++ map (λ (c : ChoiceOf × ℕ). label_at premises.now (hypothetical c.0 c.1))
        (zip (choices_of premises.now) sides.now)) }
{
    for (choice, side) in premises.choices().iter().zip(sides) {
        lines.push(side_text(alloc, premises, *choice, *side)?)?;
    }
    Ok(())
}

/// Writes each line behind a line feed.
pub(crate) fn push_lines(text: &mut String, lines: &[String]) -> Result<(), AllocError>
    ensures { OnOk result (string_bytes text.new ≡ string_bytes
        text.old ++ lines_text (map string_bytes lines.now)) }
{
    for line in lines {
        write!(text, "\n{line}")?;
    }
    Ok(())
}

/// Lines behind a first one that says how many follow, and what else the mark does.
fn counted_text(alloc: Global, mark: &str, lines: &[String]) -> Result<String, AllocError>
    ensures { IfOk result (λ text.
        string_bytes text ≡ counted_text mark.now (map string_bytes lines.now)) }
{
    let count = lines.len();
    let mut text = format!(in alloc; "plan {count}{mark}")?;
    push_lines(&mut text, lines)?;
    Ok(text)
}

/// Writes texts on a line of their own, with one space between each two.
fn push_spaced(text: &mut String, texts: &[String]) -> Result<(), AllocError>
    ensures { OnOk result (string_bytes text.new ≡ string_bytes
        text.old ++ (10 ∷ join_by (λ text. text) (codes " ") (map string_bytes texts.now))) }
{
    let Some((first, others)) = texts.split_first() else {
        return write!(text, "\n");
    };
    write!(text, "\n{first}")?;
    for other in others {
        write!(text, " {other}")?;
    }
    Ok(())
}

impl<R: Guarded + Drop, O: Order + Drop> Seeker<R, O> {
    ghost use Rattle.std.specs.Prelude.{◌≡◌, ◌++◌, ◌∷◌, map, flat_map, length, codes};
    ghost use Rattle.std.specs.Prelude.{IfOk, IfSome, OnOk, string_bytes};
    ghost use Rattle.std.specs.Option.{option_map};
    ghost use Rattle.std.specs.List.{join_by, range_with_len};
    ghost use Rattle.prop_numbers.specs.Sets.{set_of, IsPart};
    ghost use Rattle.prop_premises.specs.Origins.{believed_in};
    ghost use Rattle.prop_procedures.specs.Fitting.{kind_at};
    ghost use Rattle.prop_texts.specs.Texts.{support_text};
    ghost use Rattle.prop_workbench.specs.Sessions.{state_of};
    ghost use Rattle.prop_seeking.specs.Texts.{value_text, cell_texts, plan_text, many_text};
    ghost use Rattle.prop_seeking.specs.inner.Pieces.{best_text, bound_text, bounded_text};
    ghost use Rattle.prop_seeking.specs.inner.Pieces.{end_text, others_text};
    ghost use Rattle.prop_seeking.specs.inner.Seekers.{plan_of};

    /// The kind of a cell.
    pub(crate) fn kind(&self, cell: usize) -> Kind
        ensures { result ≡ (kind_at self.now.teller.session.live.network.cells.kinds cell).kind }
    {
        let cells = self.teller.session().live().network().data();
        if cell < cells.len() {
            cells.kind(cell).kind
        } else {
            Kind::Span
        }
    }

    /// The value of a cell in a plan.
    fn value(&self, plan: &Plan, cell: usize) -> Result<String, AllocError>
        ensures { IfOk result (λ text. string_bytes text
            ≡ value_text (state_of self.now.teller.session) (plan_of plan.now) cell) }
    {
        let session = self.teller.session();
        let info = plan.values.get(cell).copied().unwrap_or(Info::Nothing);
        let kind = self.kind(cell);
        session
            .words()
            .print_value(session.alloc(), kind, seen(info))
    }

    /// A line for a cell with its value, where it has a name.
    fn push_cell(&self, plan: &Plan, cell: usize, lines: &mut Vec<String>) -> Result<(), AllocError>
        ensures { OnOk result (map string_bytes lines.new.items ≡ map string_bytes
            lines.old.items ++ cell_texts (state_of self.now.teller.session)
            (plan_of plan.now) cell) }
    {
        let session = self.teller.session();
        let Some(name) = session.names().name_of(cell) else {
            return Ok(());
        };
        let value = self.value(plan, cell)?;
        lines.push(format!(in session.alloc(); "{name} = {value}")?)?;
        Ok(())
    }

    /// A line for each cell that has a name.
    fn push_cells(&self, plan: &Plan, lines: &mut Vec<String>) -> Result<(), AllocError>
        ensures { OnOk result (map string_bytes lines.new.items ≡ map string_bytes
            lines.old.items ++ flat_map (cell_texts (state_of self.now.teller.session)
            (plan_of plan.now))
            (range_with_len 0 (length self.now.teller.session.live.network.cells.kinds))) }
    {
        for cell in 0..self.teller.session().live().network().cells() {
            self.push_cell(plan, cell, lines)?;
        }
        Ok(())
    }

    /// A plan, whose first line says how many lines follow.
    pub(crate) fn plan(&self, mark: &str, plan: &Plan) -> Result<String, AllocError>
        ensures { IfOk result (λ text. string_bytes text
            ≡ plan_text (state_of self.now.teller.session) mark.now (plan_of plan.now)) }
    {
        let session = self.teller.session();
        let alloc = session.alloc();
        let mut lines = Vec::new(alloc);
        self.push_cells(plan, &mut lines)?;
        push_sides(alloc, session.search().premises(), &plan.sides, &mut lines)?;
        counted_text(alloc, mark, &lines)
    }

    /// The names of believed premises, each behind a space. `AllocError` where memory is refused.
    pub fn premises(&self, by: &PremiseSet) -> Result<String, AllocError>
        requires { IsPart (set_of by.now) (believed_in self.now.teller.session.search.premises) }
        ensures { IfOk result (λ text. string_bytes text
            ≡ support_text self.now.teller.session.search.premises by.now) }
    {
        let session = self.teller.session();
        print_set(session.alloc(), session.search().premises(), by)
    }

    /// The word and the cell of an end.
    fn end(&self, goal: Goal, plan: &Plan) -> Result<String, AllocError>
        ensures { IfOk result (λ text. string_bytes text
            ≡ end_text (state_of self.now.teller.session) goal (plan_of plan.now)) }
    {
        let alloc = self.teller.session().alloc();
        match goal {
            Goal::Least(cell) => {
                let value = self.value(plan, cell)?;
                format!(in alloc; "least {value}")
            }
            Goal::Greatest(cell) => {
                let value = self.value(plan, cell)?;
                format!(in alloc; "greatest {value}")
            }
            _ => Ok(String::new(alloc)),
        }
    }

    /// The best points, and on which premises it rests that none are better.
    pub(crate) fn best(
        &self,
        goal: Goal,
        plan: &Plan,
        by: &PremiseSet,
    ) -> Result<String, AllocError>
        requires { IsPart (set_of by.now) (believed_in self.now.teller.session.search.premises) }
        ensures { IfOk result (λ text. string_bytes text
            ≡ best_text (state_of self.now.teller.session) goal (plan_of plan.now) by.now) }
    {
        let end = self.end(goal, plan)?;
        let premises = self.premises(by)?;
        let plan = self.plan("", plan)?;
        format!(in self.teller.session().alloc(); "{end}\nbecause{premises}\n{plan}")
    }

    /// The word and the number of how good others can still be.
    fn bound(&self, cell: usize, end: Info) -> Result<String, AllocError>
        ensures { IfOk result (λ text. string_bytes text
            ≡ bound_text (state_of self.now.teller.session) cell end) }
    {
        let session = self.teller.session();
        let alloc = session.alloc();
        let value = session.words().print_value(alloc, self.kind(cell), end)?;
        format!(in alloc; "bound {value}")
    }

    /// The best points so far, a number than which none is better, and on which premises that
    /// rests.
    pub(crate) fn bounded(
        &self,
        cell: usize,
        end: Info,
        plan: &Plan,
        by: &PremiseSet,
    ) -> Result<String, AllocError>
        requires { IsPart (set_of by.now) (believed_in self.now.teller.session.search.premises) }
        ensures { IfOk result (λ text. string_bytes text
            ≡ bounded_text (state_of self.now.teller.session) cell end (plan_of plan.now) by.now) }
    {
        let end = self.bound(cell, end)?;
        let premises = self.premises(by)?;
        let plan = self.plan(" unsettled", plan)?;
        format!(in self.teller.session().alloc(); "{end}\nbecause{premises}\n{plan}")
    }

    /// Writes the named cells with their values on a line of their own.
    fn push_row(&self, named: &[usize], plan: &Plan, text: &mut String) -> Result<(), AllocError>
        ensures { OnOk result (string_bytes text.new ≡ string_bytes text.old ++ (10
            ∷ join_by (λ text. text) (codes " ")
            (flat_map (cell_texts (state_of self.now.teller.session) (plan_of plan.now))
            named.now))) }
    {
        let mut texts = Vec::new(self.teller.session().alloc());
        for cell in named {
            self.push_cell(plan, *cell, &mut texts)?;
        }
        push_spaced(text, &texts)
    }

    /// What is known of others.
    fn others(&self, others: Option<&PremiseSet>) -> Result<String, AllocError>
        requires { IfSome others (λ by. IsPart (set_of by.now)
            (believed_in self.now.teller.session.search.premises)) }
        ensures { IfOk result (λ text. string_bytes text
            ≡ others_text (state_of self.now.teller.session)
            (option_map (λ by. by.now) others.entry)) }
    {
        let alloc = self.teller.session().alloc();
        match others {
            None => String::from_str(alloc, "others unknown"),
            Some(by) => {
                let premises = self.premises(by)?;
                format!(in alloc; "others none:{premises}")
            }
        }
    }

    /// Plans, and what is known of others.
    pub(crate) fn listing(
        &self,
        named: &[usize],
        plans: &[Plan],
        others: Option<&PremiseSet>,
    ) -> Result<String, AllocError>
        requires { IfSome others (λ by. IsPart (set_of by.now)
            (believed_in self.now.teller.session.search.premises)) }
        ensures { IfOk result (λ text. string_bytes text
            ≡ many_text (state_of self.now.teller.session) named.now (map plan_of plans.now)
            (option_map (λ by. by.now) others.entry)) }
    {
        let alloc = self.teller.session().alloc();
        let others = self.others(others)?;
        let count = plans.len();
        let mut text = format!(in alloc; "plans {count}")?;
        for plan in plans {
            self.push_row(named, plan, &mut text)?;
        }
        write!(text, "\n{others}")?;
        Ok(text)
    }

    /// That nothing fits.
    pub(crate) fn none(&self, by: &PremiseSet) -> Result<String, AllocError>
        requires { IsPart (set_of by.now) (believed_in self.now.teller.session.search.premises) }
        ensures { IfOk result (λ text. string_bytes text
            ≡ codes "none:" ++ support_text self.now.teller.session.search.premises by.now) }
    {
        let premises = self.premises(by)?;
        format!(in self.teller.session().alloc(); "none:{premises}")
    }

    /// That nothing is known by now.
    pub(crate) fn unsettled(&self) -> Result<String, AllocError>
        ensures { IfOk result (λ text. string_bytes text ≡ codes "unsettled") }
    {
        String::from_str(self.teller.session().alloc(), "unsettled")
    }
}
