//! The texts of values and replies.
ghost use Rattle.std.specs.Prelude.{◌≡◌, ◌<◌, ℕ, not, if◌then◌else◌, All, IfOk, length};
ghost use Rattle.std.specs.Prelude.{string_bytes};
ghost use Rattle.std.specs.List.Sorted.{IsStrictlyIncreasing};
ghost use Rattle.prop_numbers.specs.Sets.{set_of};
ghost use Rattle.prop_texts.specs.Texts.{equation, contradiction_text, members_text};
ghost use Rattle.prop_texts.specs.inner.Listed.{is_listed};
ghost use Rattle.prop_texts.specs.Texts.{worldview_text};
ghost use Rattle.prop_engine.specs.Answers.{answer_of, Says};

use crate::labels::{print_set, push_label};
use prop_engine::Reply;
use prop_premises::{Premise, PremiseSet, Premises, Worldview};
use prop_refusals::Refusal;
use std::alloc::{AllocError, Global};

/// The reply of a text, or want of memory.
pub fn text_reply(alloc: Global, text: &str) -> Reply
    ensures { Says (answer_of result) text.now }
{
    Reply::saying(String::from_str(alloc, text))
}

/// The reply `X = V` with the mark behind it, or want of memory.
pub fn value_reply(alloc: Global, name: &str, value: &str, mark: &str) -> Reply
    ensures { Says (answer_of result) (equation name.now value.now mark.now) }
{
    Reply::saying(format!(in alloc; "{name} = {value}{mark}"))
}

/// The reply that names contradictory premises, or want of memory.
pub fn contradiction_reply(alloc: Global, premises: &Premises, support: &PremiseSet) -> Reply
    requires { All (λ p. p < length premises.now) support.now }
    ensures says { Says (answer_of result) (contradiction_text premises.now support.now) }
    ensures in_order { IsStrictlyIncreasing support.now }
{
    match print_set(alloc, premises, support) {
        Ok(names) => Reply::saying(format!(in alloc; "contradiction:{names}")),
        Err(AllocError) => Reply::Refused(Refusal::Memory),
    }
}

/// Whether a premise that is believed, or is not, is one of those asked for.
fn is_listed(is_in: bool, believed: bool) -> bool
    ensures { result ≡ (if believed then is_in else not is_in) }
{
    is_in == believed
}

/// The labels of the premises that are believed, or of those that are not, each with one space
/// before it.
fn listed(
    alloc: Global,
    premises: &Premises,
    worldview: &Worldview,
    believed: bool,
) -> Result<String, AllocError>
    ensures { IfOk result (λ text.
        string_bytes text ≡ members_text premises.now (is_listed believed (set_of worldview.now))) }
{
    let mut text = String::new(alloc);
    for number in 0..premises.len() {
        let premise = number as Premise;
        if is_listed(worldview.has(premise), believed) {
            push_label(&mut text, premises, premise)?;
        }
    }
    Ok(text)
}

/// Which premises are believed, and on a second line which are not.
fn worldview_text(
    alloc: Global,
    premises: &Premises,
    worldview: &Worldview,
) -> Result<String, AllocError>
    ensures { IfOk result (λ text.
        string_bytes text ≡ worldview_text premises.now (set_of worldview.now)) }
{
    let believed = listed(alloc, premises, worldview, true)?;
    let others = listed(alloc, premises, worldview, false)?;
    format!(in alloc; "in:{believed}\nout:{others}")
}

/// The reply that tells the worldview, or want of memory.
pub fn worldview_reply(alloc: Global, premises: &Premises, worldview: &Worldview) -> Reply
    ensures { Says (answer_of result) (worldview_text premises.now (set_of worldview.now)) }
{
    Reply::saying(worldview_text(alloc, premises, worldview))
}
