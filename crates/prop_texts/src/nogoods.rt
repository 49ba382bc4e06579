//! The reply that lists nogoods.
ghost use Rattle.std.specs.Prelude.{◌≡◌, ◌<◌, All, IfOk, length, string_bytes};
ghost use Rattle.std.specs.List.Sorted.{IsStrictlyIncreasing};
ghost use Rattle.prop_texts.specs.Texts.{nogoods_text};
ghost use Rattle.prop_engine.specs.Answers.{answer_of, Says};

use crate::labels::print_set;
use prop_engine::Reply;
use prop_nogoods::Store;
use prop_premises::Premises;
use std::alloc::{AllocError, Global};
use std::fmt::Write;

/// How many nogoods there are, and a line for each.
fn nogoods_text(alloc: Global, premises: &Premises, store: &Store) -> Result<String, AllocError>
    requires { All (λ nogood. All (λ p. p < length premises.now) nogood) store.now }
    ensures text { IfOk result (λ text. string_bytes text ≡ nogoods_text premises.now store.now) }
    ensures in_order { All IsStrictlyIncreasing store.now }
{
    let nogoods = store.iter();
    let mut text = format!(in alloc; "nogoods {}", store.len())?;
    for nogood in nogoods {
        let names = print_set(alloc, premises, nogood)?;
        write!(text, "\nnogood:{names}")?;
    }
    Ok(text)
}

/// The reply that lists the nogoods of a store, or want of memory.
pub fn nogoods_reply(alloc: Global, premises: &Premises, store: &Store) -> Reply
    requires { All (λ nogood. All (λ p. p < length premises.now) nogood) store.now }
    ensures says { Says (answer_of result) (nogoods_text premises.now store.now) }
    ensures in_order { All IsStrictlyIncreasing store.now }
{
    Reply::saying(nogoods_text(alloc, premises, store))
}
