//! The forms of the commands about choices: what is read from the bytes behind their words.
ghost use Rattle.std.specs.Prelude.{◌≡◌, ◌≢◌, ◌⊎◌, map, IfOk, IfErr, Ok, Err, None, Some};
ghost use Rattle.prop_language.specs.Tokens.{tokens};
ghost use Rattle.prop_language.specs.inner.Forms as forms;
ghost use Rattle.prop_language.specs.Commands as commands;
ghost use Rattle.prop_language.specs.inner.Parsing.{command_in_form};
ghost use Rattle.prop_language.specs.Said.{value_of};
ghost use Rattle.prop_language.specs.inner.Parts.{sides_in, few_sides_in, ReadsAs};

use crate::command::{Command, Value};
use crate::forms::{is_end, two_names, two_words, value};
use crate::steps::behind_word;
use prop_refusals::Refusal;
use std::alloc::Global;

/// How many values a choice has at least.
const FEWEST_SIDES: usize = 2;

/// How many values a choice has at most.
const MOST_SIDES: usize = 8;

/// Values, with the word `or` between each two.
fn sides<'a>(alloc: Global, bytes: &'a [u8]) -> Result<Vec<Value<'a>>, Refusal>
    ensures ok { IfOk result (λ found.
        sides_in (tokens bytes.now) ≡ Some (map value_of found.items)) }
    ensures err { IfErr result (λ refusal. (refusal ≡ Refusal.Memory)
        ⊎ ((refusal ≡ Refusal.WrongForm) × (sides_in (tokens bytes.now) ≡ None))) }
{
    let mut found = Vec::new(alloc);
    let mut left = bytes;
    loop {
        let (side, rest) = value(alloc, left)?;
        if found.push(side).is_err() {
            return Err(Refusal::Memory);
        }
        if is_end(rest) {
            return Ok(found);
        }
        let Some(behind) = behind_word(rest, b"or") else {
            return Err(Refusal::WrongForm);
        };
        left = behind;
    }
}

/// The same, where there are two to eight values.
fn few_sides<'a>(alloc: Global, bytes: &'a [u8]) -> Result<Vec<Value<'a>>, Refusal>
    ensures ok { IfOk result (λ found.
        few_sides_in (tokens bytes.now) ≡ Some (map value_of found.items)) }
    ensures err { IfErr result (λ refusal. (refusal ≡ Refusal.Memory)
        ⊎ ((refusal ≡ Refusal.WrongForm) × (few_sides_in (tokens bytes.now) ≡ None))) }
{
    let found = sides(alloc, bytes)?;
    if (FEWEST_SIDES..=MOST_SIDES).contains(&found.len()) {
        Ok(found)
    } else {
        Err(Refusal::WrongForm)
    }
}

/// `choose C X V or W ..`, behind its first word.
pub fn choose<'a>(alloc: Global, rest: &'a [u8]) -> Result<Command<'a>, Refusal>
    ensures { ReadsAs result (command_in_form (forms.choose (tokens rest.now))) }
{
    let ((choice, cell), rest) = two_words(rest)?;
    let values = few_sides(alloc, rest)?;
    let (choice, cell) = two_names(choice, cell)?;
    Ok(Command::Choose(choice, cell, values))
}

/// `nogoods`, behind its first word.
pub fn nogoods(rest: &[u8]) -> Result<Command<'_>, Refusal>
    ensures read { ReadsAs result
        (command_in_form (forms.bare commands.Command.Nogoods (tokens rest.now))) }
    ensures memory { result ≢ Err Refusal.Memory }
{
    if is_end(rest) {
        Ok(Command::Nogoods)
    } else {
        Err(Refusal::WrongForm)
    }
}
