//! The labels of premises, as they stand in replies.
ghost use Rattle.std.specs.Prelude.{◌≡◌, ◌<◌, ◌++◌, ◌∷◌, All, IfOk, OnOk, length, string_bytes};
ghost use Rattle.std.specs.List.Sorted.{IsStrictlyIncreasing};
ghost use Rattle.prop_texts.specs.Texts.{premises_text, support_text, because};
ghost use Rattle.prop_texts.specs.inner.Listed.{label_at};

use prop_premises::{Premise, PremiseSet, Premises};
use std::alloc::{AllocError, Global};
use std::fmt::Write;

/// Writes a space and the label of a premise behind the text: a user's premise by its name, a side
/// of a choice by the choice's name, `=` and the side's number.
pub(crate) fn push_label(
    text: &mut String,
    premises: &Premises,
    premise: Premise,
) -> Result<(), AllocError>
    requires { premise < length premises.now }
    ensures { OnOk result (string_bytes text.new ≡ string_bytes
        text.old ++ (32 ∷ label_at premises.now premise)) }
{
    let name = premises.name(premise);
    match premises.side(premise) {
        Some(side) => write!(text, " {name}={side}"),
        None => write!(text, " {name}"),
    }
}

/// The labels of the premises of a set, in order of number, each with one space before it.
fn premises_text(alloc: Global, premises: &Premises, set: &PremiseSet) -> Result<String, AllocError>
    requires { All (λ p. p < length premises.now) set.now }
    ensures text { IfOk result (λ text. string_bytes text ≡ premises_text premises.now set.now) }
    ensures in_order { IsStrictlyIncreasing set.now }
{
    let mut text = String::new(alloc);
    for premise in set.iter() {
        push_label(&mut text, premises, premise)?;
    }
    Ok(text)
}

/// The labels of the premises that something rests on, each with one space before it; ` no premise`
/// where there are none. `AllocError` where memory is refused.
pub fn print_set(
    alloc: Global,
    premises: &Premises,
    support: &PremiseSet,
) -> Result<String, AllocError>
    requires { All (λ p. p < length premises.now) support.now }
    ensures text { IfOk result (λ text. string_bytes text ≡ support_text premises.now support.now) }
    ensures in_order { IsStrictlyIncreasing support.now }
{
    let text = premises_text(alloc, premises, support)?;
    if support.is_empty() {
        return String::from_str(alloc, " no premise");
    }
    Ok(text)
}

/// What stands behind a value to tell what it rests on: the mark, and the premises. `AllocError`
/// where memory is refused.
pub fn because(
    alloc: Global,
    premises: &Premises,
    mark: &str,
    support: &PremiseSet,
) -> Result<String, AllocError>
    requires { All (λ p. p < length premises.now) support.now }
    ensures text { IfOk result (λ text.
        string_bytes text ≡ because premises.now mark.now support.now) }
    ensures in_order { IsStrictlyIncreasing support.now }
{
    let names = print_set(alloc, premises, support)?;
    format!(in alloc; "{mark} because{names}")
}
