//! The texts of what is told. Each is the text that the specs state, or memory was refused.
ghost use Rattle.std.specs.Prelude.{◌≡◌, ◌<◌, ◌++◌, ◌∷◌, ◌&&◌, is_some, IfOk, OnOk, length};
ghost use Rattle.std.specs.Prelude.{string_bytes, Some, slice_get};
ghost use Rattle.prop_numbers.specs.Sets.{set_of};
ghost use Rattle.prop_premises.specs.Origins.{side_at};
ghost use Rattle.prop_procedures.specs.Kept.{stored_of};
ghost use Rattle.prop_cells.specs.Data.{IsKept};
ghost use Rattle.prop_cells.specs.Instances.{Instance as InstanceOf};
ghost use Rattle.prop_texts.specs.Texts.{premises_text};
ghost use Rattle.prop_texts.specs.inner.Listed.{label_at};
ghost use Rattle.prop_notes.specs.Texts.{cell_text, cells_text, call_text, sides_text};
ghost use Rattle.prop_notes.specs.Texts.{moved_text};

use prop_cells::Network;
use prop_premises::{Premise, PremiseSet, Premises, Worldview};
use prop_procedures::Rule;
use prop_vocabulary::CellNames;
use std::alloc::{AllocError, Global};
use std::fmt::Write;

/// Writes a space and the cell behind the text: its name, or `#` and its number.
fn push_cell(text: &mut String, names: &CellNames, cell: usize) -> Result<(), AllocError>
    ensures { OnOk result (string_bytes text.new ≡ string_bytes
        text.old ++ (32 ∷ cell_text names.now cell)) }
{
    match names.name_of(cell) {
        Some(name) => write!(text, " {name}"),
        None => write!(text, " #{cell}"),
    }
}

/// The cells, each with one space before it.
fn cells_text(alloc: Global, names: &CellNames, cells: &[usize]) -> Result<String, AllocError>
    ensures { IfOk result (λ text. string_bytes text ≡ cells_text names.now cells.now) }
{
    let mut text = String::new(alloc);
    for cell in cells {
        push_cell(&mut text, names, *cell)?;
    }
    Ok(text)
}

/// The cell's name, or `#` and its number.
pub fn cell_text(alloc: Global, names: &CellNames, cell: usize) -> Result<String, AllocError>
    ensures { IfOk result (λ text. string_bytes text ≡ cell_text names.now cell) }
{
    match names.name_of(cell) {
        Some(name) => String::from_str(alloc, name),
        None => format!(in alloc; "#{cell}"),
    }
}

/// An instance by its number, with its procedure, its inputs and its output.
pub fn call_text<R: Rule + Drop>(
    alloc: Global,
    names: &CellNames,
    network: &Network<R>,
    called: usize,
) -> Result<String, AllocError>
    requires called { called < length network.now.cells.instances }
    requires kept { IsKept (stored_of R.value_of network.now.library) network.now.cells }
    ensures { (x : InstanceOf) → slice_get network.now.cells.instances called ≡ Some x
        → IfOk result (λ text. string_bytes text ≡ call_text names.now
        (stored_of R.value_of network.now.library) called x) }
{
    let instance = network.data().instance(called);
    let name = network.library().get(instance.procedure()).name();
    let inputs = cells_text(alloc, names, instance.inputs())?;
    let output = cell_text(alloc, names, instance.output())?;
    format!(in alloc; "called: {called} {name}{inputs} {output}")
}

/// Writes a space and the label of a premise behind the text: a user's premise by its name, a side
/// of a choice by the choice's name, `=` and the side's number.
fn push_label(text: &mut String, premises: &Premises, premise: Premise) -> Result<(), AllocError>
    requires { premise < length premises.now }
    ensures { OnOk result (string_bytes text.new ≡ string_bytes
        text.old ++ (32 ∷ label_at premises.now premise)) }
{
    let name = premises.name(premise);
    match premises.side(premise) {
        Some(side) => write!(text, " {name}={side}"),
        None => write!(text, " {name}"),
    }
}

/// The label of a premise.
pub fn label_text(
    alloc: Global,
    premises: &Premises,
    premise: Premise,
) -> Result<String, AllocError>
    requires { premise < length premises.now }
    ensures { IfOk result (λ text. string_bytes text ≡ label_at premises.now premise) }
{
    let name = premises.name(premise);
    match premises.side(premise) {
        Some(side) => format!(in alloc; "{name}={side}"),
        None => String::from_str(alloc, name),
    }
}

/// Writes a space and the label of a premise behind the text, and the space alone where there is no
/// such premise.
fn push_any(text: &mut String, premises: &Premises, premise: Premise) -> Result<(), AllocError>
    ensures { OnOk result (string_bytes text.new ≡ string_bytes
        text.old ++ (32 ∷ label_at premises.now premise)) }
{
    if usize::from(premise) < premises.len() {
        push_label(text, premises, premise)
    } else {
        write!(text, " ")
    }
}

/// The labels of the premises of a set, in order of number, each with one space before it.
pub fn reason_text(
    alloc: Global,
    premises: &Premises,
    reason: &PremiseSet,
) -> Result<String, AllocError>
    ensures { IfOk result (λ text. string_bytes text ≡ premises_text premises.now reason.now) }
{
    let mut text = String::new(alloc);
    for premise in reason.iter() {
        push_any(&mut text, premises, premise)?;
    }
    Ok(text)
}

/// Writes a line feed and a line behind the text.
pub fn push_text(text: &mut String, line: &str) -> Result<(), AllocError>
    ensures { OnOk result (string_bytes text.new ≡ string_bytes text.old ++ (10 ∷ line.now)) }
{
    write!(text, "\n{line}")
}

/// A side of a choice, and its next one, each with one space before it.
pub fn moved_text(alloc: Global, premises: &Premises, side: Premise) -> Result<String, AllocError>
    requires { side < length premises.now }
    ensures { IfOk result (λ text. string_bytes text ≡ moved_text premises.now side) }
{
    let name = premises.name(side);
    match premises.side(side) {
        Some(left) => {
            let next = u16::from(left) + 1;
            format!(in alloc; " {name}={left} {name}={next}")
        }
        None => Ok(String::new(alloc)),
    }
}

/// Whether a premise is believed and a side of a choice.
fn is_side_in(premises: &Premises, worldview: &Worldview, premise: Premise) -> bool
    requires { premise < length premises.now }
    ensures { result ≡ (set_of worldview.now premise && is_some (side_at premises.now premise)) }
{
    worldview.has(premise) && premises.side(premise).is_some()
}

/// The sides of choices that are believed, each with one space before it.
pub fn sides_text(
    alloc: Global,
    premises: &Premises,
    worldview: &Worldview,
) -> Result<String, AllocError>
    ensures { IfOk result (λ text.
        string_bytes text ≡ sides_text premises.now (set_of worldview.now)) }
{
    let mut text = String::new(alloc);
    for number in 0..premises.len() {
        let premise = number as Premise;
        if is_side_in(premises, worldview, premise) {
            push_label(&mut text, premises, premise)?;
        }
    }
    Ok(text)
}
