//! The form of a definition: what is read from the bytes behind its word.
ghost use Rattle.std.specs.Prelude.{◌≡◌, ◌<◌, ◌∷◌, ◌++◌, [], ◌⊎◌, List, length, codes, IfSome};
ghost use Rattle.std.specs.Prelude.{IfOk, IfErr, OnOk, Ok, Err, Some, None};
ghost use Rattle.std.specs.Option.{option_map};
ghost use Rattle.prop_language.specs.Tokens as words;
ghost use Rattle.prop_language.specs.Tokens.{tokens, Word};
ghost use Rattle.prop_language.specs.inner.Forms as forms;
ghost use Rattle.prop_language.specs.Commands as commands;
ghost use Rattle.prop_language.specs.inner.Parsing.{command_in_form};
ghost use Rattle.prop_language.specs.Said.{step_of, passed_of};
ghost use Rattle.prop_language.specs.inner.Parts.{behind_word, front_words, given, passed_said};
ghost use Rattle.prop_language.specs.inner.Parts.{passed_in_range, step_in_form, steps_in_range};
ghost use Rattle.prop_language.specs.inner.Parts.{body, Says, ReadsAs, steps_said};

use crate::command::{Command, Passed, Step};
use crate::forms::{
    behind_by, is_end, listed_names, named_kind, only_two_words, only_word, parameter, two_names,
    two_words, used_names, word,
};
use crate::tokens::{Token, next_token};
use prop_refusals::Refusal;
use std::alloc::Global;

/// What stands behind a step's `by`: nothing or a word, which is not judged yet, as in a command,
/// or the star.
#[derive(Clone, Copy)]
enum Given<'a> {
    Said(Option<&'a [u8]>),
    Own,
}

/// What stands behind this word, where the bytes begin with it.
pub(crate) fn behind_word<'a>(bytes: &'a [u8], wanted: &[u8]) -> Option<&'a [u8]>
    ensures found { option_map (λ rest. tokens rest.now) result ≡ behind_word wanted.now
        (tokens bytes.now) }
    ensures shorter { IfSome result (λ rest. length rest.now < length bytes.now) }
{
    match next_token(bytes) {
        Some((Token::Word(word), rest)) if word == wanted => Some(rest),
        _ => None,
    }
}

/// The words of the two names, where behind `local` stands `n like p`.
fn like_words(bytes: &[u8]) -> Option<(&[u8], &[u8])>
    ensures { option_map (λ found. commands.Step.Like found.0.now found.1.now)
        result ≡ forms.local_like (Word (codes "local") ∷ tokens bytes.now) }
{
    match two_words(bytes) {
        Ok(((local, word), rest)) if word == b"like".as_slice() => {
            let like = only_word(rest).ok()?;
            Some((local, like))
        }
        _ => None,
    }
}

/// The word or the star behind the first `by`, if there is a `by`. Before it stand words alone, and
/// behind it nothing more.
fn given_behind_by(bytes: &[u8]) -> Result<Given<'_>, Refusal>
    ensures ok { IfOk result (λ found.
        given forms.passed_form (tokens bytes.now) ≡ Some (passed_said found)) }
    ensures err { IfErr result (λ refusal. (refusal ≡ Refusal.WrongForm)
        × (given forms.passed_form (tokens bytes.now) ≡ None)) }
{
    let Some(rest) = behind_by(bytes)? else {
        return Ok(Given::Said(None));
    };
    match next_token(rest) {
        Some((Token::Star, rest)) if is_end(rest) => Ok(Given::Own),
        _ => Ok(Given::Said(Some(only_word(rest)?))),
    }
}

/// A step that is a use: `M a.. [by P]`.
fn use_step<'a>(alloc: Global, bytes: &'a [u8]) -> Result<Step<'a>, Refusal>
    ensures ok { IfOk result (λ step.
        step_in_form (forms.use_step (tokens bytes.now)) ≡ Ok (step_of step)) }
    ensures err { IfErr result (λ refusal. (refusal ≡ Refusal.Memory)
        ⊎ (step_in_form (forms.use_step (tokens bytes.now)) ≡ Err refusal)) }
{
    let (front, rest) = two_words(bytes)?;
    let given = given_behind_by(rest)?;
    let (used, cells) = used_names(alloc, front, rest)?;
    let passed = match given {
        Given::Said(word) => Passed::Said(parameter(word)?),
        Given::Own => Passed::Own,
    };
    Ok(Step::Use(used, cells, passed))
}

/// One step: a local where it has one of the two forms, and else a use.
fn step<'a>(alloc: Global, bytes: &'a [u8]) -> Result<Step<'a>, Refusal>
    ensures ok { IfOk result (λ step.
        step_in_form (forms.step (tokens bytes.now)) ≡ Ok (step_of step)) }
    ensures err { IfErr result (λ refusal. (refusal ≡ Refusal.Memory)
        ⊎ (step_in_form (forms.step (tokens bytes.now)) ≡ Err refusal)) }
{
    if let Some(rest) = behind_word(bytes, b"local") {
        if let Ok((local, kind)) = only_two_words(rest) {
            let (local, kind) = named_kind(local, kind)?;
            return Ok(Step::Local(local, kind));
        }
        if let Some((local, like)) = like_words(rest) {
            let (local, like) = two_names(local, like)?;
            return Ok(Step::Like(local, like));
        }
    }
    use_step(alloc, bytes)
}

/// The steps that were read, and why they are refused, if they are: a word that is no name comes
/// before a number out of range.
#[derive(Drop)]
struct Steps<'a> {
    read: Vec<Step<'a>>,
    refused: Option<Refusal>,
}

/// Adds the step that the bytes are.
fn add_step<'a>(alloc: Global, steps: &mut Steps<'a>, bytes: &'a [u8]) -> Result<(), Refusal>
    ensures ok { OnOk result ((parts : List (List words.Token))
        → Says parts steps.old.read.items steps.old.refused
        → Says (parts ++ tokens bytes.now ∷ []) steps.new.read.items steps.new.refused) }
    ensures err { IfErr result (λ refusal. (refusal ≡ Refusal.Memory)
        ⊎ ((refusal ≡ Refusal.WrongForm) × (forms.step (tokens bytes.now) ≡ None))) }
{
    match step(alloc, bytes) {
        Ok(step) => {
            if steps.read.push(step).is_err() {
                return Err(Refusal::Memory);
            }
        }
        Err(refusal) => match refusal {
            Refusal::NotAName => steps.refused = Some(refusal),
            Refusal::NotANumber => steps.refused = steps.refused.or(Some(refusal)),
            _ => return Err(refusal),
        },
    }
    Ok(())
}

/// All steps, of which each has a form. A semicolon stands between each two.
fn read_steps<'a>(alloc: Global, bytes: &'a [u8]) -> Result<Steps<'a>, Refusal>
    ensures ok { IfOk result (λ steps.
        option_map steps_in_range (forms.steps (tokens bytes.now)) ≡ Some
        (steps_said steps.read.items steps.refused)) }
    ensures err { IfErr result (λ refusal. (refusal ≡ Refusal.Memory)
        ⊎ ((refusal ≡ Refusal.WrongForm) × (forms.steps (tokens bytes.now) ≡ None))) }
{
    let mut steps = Steps {
        read: Vec::new(alloc),
        refused: None,
    };
    for part in bytes.split(|byte| *byte == b';') {
        add_step(alloc, &mut steps, part)?;
    }
    Ok(steps)
}

/// A definition's word, the bytes from its first parameter on, and what stands behind the first
/// equals sign. Before that stand words alone.
fn definition_words(bytes: &[u8]) -> Result<(&[u8], &[u8], &[u8]), Refusal>
    ensures ok { IfOk result (λ found.
        forms.define (tokens bytes.now) ≡ option_map
        (commands.Command.Define found.0.now (front_words (tokens found.1.now)))
        (forms.steps (tokens found.2.now))) }
    ensures err { IfErr result (λ refusal. (refusal ≡ Refusal.WrongForm)
        × (forms.define (tokens bytes.now) ≡ None)) }
{
    let (defined, params) = word(bytes)?;
    let (_first, mut left) = word(params)?;
    loop {
        match next_token(left) {
            Some((Token::Word(_), rest)) => left = rest,
            Some((Token::Equals, rest)) => return Ok((defined, params, rest)),
            _ => return Err(Refusal::WrongForm),
        }
    }
}

/// `define N p.. = step ; step ..`, behind its first word. Over all steps a wrong form comes before
/// a word that is no name, and such a word before a number out of range.
pub fn define<'a>(alloc: Global, rest: &'a [u8]) -> Result<Command<'a>, Refusal>
    ensures { ReadsAs result (command_in_form (forms.define (tokens rest.now))) }
{
    let (defined, params, body) = definition_words(rest)?;
    let steps = read_steps(alloc, body)?;
    let (defined, params) = listed_names(alloc, defined, params)?;
    match steps.refused {
        None => Ok(Command::Define(defined, params, steps.read)),
        Some(refusal) => Err(refusal),
    }
}
