//! The form of each command: what is read from the bytes behind its word.
ghost use Rattle.std.specs.Prelude.{◌≡◌, ◌≢◌, ◌<◌, ◌∷◌, ◌++◌, [], ◌⊎◌, ◌↔◌, MatchOption, IsTrue};
ghost use Rattle.std.specs.Prelude.{IfOk, IfErr, OnOk, true, false, Contains, Ok, Err, None, Some};
ghost use Rattle.std.specs.Prelude.{IfSome, length};
ghost use Rattle.std.specs.List.{list_all};
ghost use Rattle.std.specs.Option.{option_map, option_and_then};
ghost use Rattle.prop_language.specs.Tokens.{tokens, Word, Open, Equals};
ghost use Rattle.prop_language.specs.Names.{is_name};
ghost use Rattle.prop_language.specs.inner.Forms as forms;
ghost use Rattle.prop_language.specs.Commands as commands;
ghost use Rattle.prop_language.specs.inner.Grammar.{kind_names};
ghost use Rattle.prop_language.specs.inner.Parsing.{command_in_form};
ghost use Rattle.prop_language.specs.Said.{words, pairs_of, kind_of, by_of, value_of};
ghost use Rattle.prop_language.specs.inner.Parts.{front, one_word, are_words, front_words};
ghost use Rattle.prop_language.specs.inner.Parts.{behind_by, given, parameter_said, before_by};
ghost use Rattle.prop_language.specs.inner.Parts.{by_in_range, some_values, BeginsOpen, ReadsAs};

use crate::command::{By, Command, KindWord, Value};
use crate::names::name;
use crate::numbers::{looks_like_number, natural_in, number_in};
use crate::tokens::{Token, next_token};
use prop_refusals::{MOST_SCALE, Refusal};
use std::alloc::Global;

/// The highest limit of the steps that a running command may take.
pub const MOST_STEPS: u64 = 1_000_000_000_000_000;

/// The word that the bytes begin with, and what stands behind it.
pub(crate) fn word(bytes: &[u8]) -> Result<(&[u8], &[u8]), Refusal>
    ensures ok { IfOk result (λ found. tokens bytes.now ≡ Word found.0.now ∷ tokens found.1.now) }
    ensures err { IfErr result (λ refusal. (refusal ≡ Refusal.WrongForm)
        × (front (tokens bytes.now) ≡ None)) }
    ensures shorter { IfOk result (λ found. length found.1.now < length bytes.now) }
{
    match next_token(bytes) {
        Some((Token::Word(word), rest)) => Ok((word, rest)),
        _ => Err(Refusal::WrongForm),
    }
}

/// Whether there is nothing but spaces and tabs.
pub(crate) fn is_end(bytes: &[u8]) -> bool
    ensures { IsTrue result ↔ (tokens bytes.now ≡ []) }
{
    next_token(bytes).is_none()
}

/// One word and no more.
pub(crate) fn only_word(bytes: &[u8]) -> Result<&[u8], Refusal>
    ensures ok { IfOk result (λ word. tokens bytes.now ≡ Word word.now ∷ []) }
    ensures err { IfErr result (λ refusal. (refusal ≡ Refusal.WrongForm)
        × (one_word (tokens bytes.now) ≡ None)) }
{
    match word(bytes) {
        Ok((word, rest)) if is_end(rest) => Ok(word),
        _ => Err(Refusal::WrongForm),
    }
}

/// The first two words, and what stands behind them.
pub(crate) fn two_words(bytes: &[u8]) -> Result<((&[u8], &[u8]), &[u8]), Refusal>
    ensures ok { IfOk result (λ found.
        tokens bytes.now ≡ Word found.0.0.now ∷ Word found.0.1.now ∷ tokens found.1.now) }
    ensures err { IfErr result (λ refusal. (refusal ≡ Refusal.WrongForm)
        × (option_and_then (λ found. front found.1) (front (tokens bytes.now)) ≡ None)) }
    ensures shorter { IfOk result (λ found. length found.1.now < length bytes.now) }
{
    let (first, rest) = word(bytes)?;
    let (second, rest) = word(rest)?;
    Ok(((first, second), rest))
}

/// Two words and no more.
pub(crate) fn only_two_words(bytes: &[u8]) -> Result<(&[u8], &[u8]), Refusal>
    ensures ok { IfOk result (λ found.
        tokens bytes.now ≡ Word found.0.now ∷ Word found.1.now ∷ []) }
    ensures err { IfErr result (λ refusal. (refusal ≡ Refusal.WrongForm)
        × (forms.cell (tokens bytes.now) ≡ None)) }
{
    match two_words(bytes) {
        Ok((words, rest)) if is_end(rest) => Ok(words),
        _ => Err(Refusal::WrongForm),
    }
}

/// One name and no more.
pub fn only_name(bytes: &[u8]) -> Result<&str, Refusal>
    ensures ok { IfOk result (λ name. (tokens bytes.now ≡ Word name.now ∷ [])
        × (is_name name.now ≡ true)) }
    ensures err { IfErr result (λ refusal.
        ((refusal ≡ Refusal.WrongForm) × (one_word (tokens bytes.now) ≡ None))
        ⊎ ((refusal ≡ Refusal.NotAName)
        × (option_map is_name (one_word (tokens bytes.now)) ≡ Some false))) }
{
    name(only_word(bytes)?)
}

/// The names that two words are.
pub(crate) fn two_names<'a>(
    first: &'a [u8],
    second: &'a [u8],
) -> Result<(&'a str, &'a str), Refusal>
    ensures ok { IfOk result (λ names. (names.0.now ≡ first.now) × (names.1.now ≡ second.now)
        × (list_all is_name (first.now ∷ second.now ∷ []) ≡ true)) }
    ensures err { IfErr result (λ refusal. (refusal ≡ Refusal.NotAName)
        × (list_all is_name (first.now ∷ second.now ∷ []) ≡ false)) }
{
    Ok((name(first)?, name(second)?))
}

/// Adds the name that the word is.
fn push_name<'a>(names: &mut Vec<&'a str>, word: &'a [u8]) -> Result<(), Refusal>
    ensures ok { OnOk result ((words names.new.items ≡ words names.old.items ++ word.now ∷ [])
        × (is_name word.now ≡ true)) }
    ensures err { IfErr result (λ refusal. (refusal ≡ Refusal.Memory)
        ⊎ ((refusal ≡ Refusal.NotAName) × (is_name word.now ≡ false))) }
{
    match names.push(name(word)?) {
        Ok(()) => Ok(()),
        Err(_) => Err(Refusal::Memory),
    }
}

/// The words up to a mark, which are to be names.
pub(crate) fn names_of<'a>(alloc: Global, bytes: &'a [u8]) -> Result<Vec<&'a str>, Refusal>
    ensures ok { IfOk result (λ found. (words found.items ≡ front_words (tokens bytes.now))
        × (list_all is_name (front_words (tokens bytes.now)) ≡ true)) }
    ensures err { IfErr result (λ refusal. (refusal ≡ Refusal.Memory)
        ⊎ ((refusal ≡ Refusal.NotAName)
        × (list_all is_name (front_words (tokens bytes.now)) ≡ false))) }
{
    let mut found = Vec::new(alloc);
    let mut left = bytes;
    while let Some((Token::Word(word), rest)) = next_token(left) {
        push_name(&mut found, word)?;
        left = rest;
    }
    Ok(found)
}

/// The name that the word is, and those that the words up to a mark are.
pub(crate) fn listed_names<'a>(
    alloc: Global,
    word: &'a [u8],
    bytes: &'a [u8],
) -> Result<(&'a str, Vec<&'a str>), Refusal>
    ensures ok { IfOk result (λ found. (found.0.now ≡ word.now)
        × (words found.1.items ≡ front_words (tokens bytes.now))
        × (list_all is_name (word.now ∷ front_words (tokens bytes.now)) ≡ true)) }
    ensures err { IfErr result (λ refusal. (refusal ≡ Refusal.Memory)
        ⊎ ((refusal ≡ Refusal.NotAName)
        × (list_all is_name (word.now ∷ front_words (tokens bytes.now)) ≡ false))) }
{
    let first = name(word)?;
    Ok((first, names_of(alloc, bytes)?))
}

/// The word of a domain, and its elements: words and no marks, of which there is at least one.
fn domain_words(bytes: &[u8]) -> Result<(&[u8], &[u8]), Refusal>
    ensures ok { IfOk result (λ found.
        forms.domain (tokens bytes.now) ≡ Some
        (commands.Command.Domain found.0.now (front_words (tokens found.1.now)))) }
    ensures err { IfErr result (λ refusal. (refusal ≡ Refusal.WrongForm)
        × (forms.domain (tokens bytes.now) ≡ None)) }
{
    let (domain, elements) = word(bytes)?;
    let (_first, mut left) = word(elements)?;
    while let Some((token, rest)) = next_token(left) {
        let Token::Word(_) = token else {
            return Err(Refusal::WrongForm);
        };
        left = rest;
    }
    Ok((domain, elements))
}

/// `domain D e ..`, behind its first word.
pub fn domain<'a>(alloc: Global, rest: &'a [u8]) -> Result<Command<'a>, Refusal>
    ensures { ReadsAs result (command_in_form (forms.domain (tokens rest.now))) }
{
    let (domain, elements) = domain_words(rest)?;
    let (domain, elements) = listed_names(alloc, domain, elements)?;
    Ok(Command::Domain(domain, elements))
}

/// Pairs of words, with a semicolon between each two pairs.
fn pairs<'a>(alloc: Global, bytes: &'a [u8]) -> Result<Vec<(&'a [u8], &'a [u8])>, Refusal>
    ensures ok { IfOk result (λ found.
        forms.pairs (tokens bytes.now) ≡ Some (pairs_of found.items)) }
    ensures err { IfErr result (λ refusal. (refusal ≡ Refusal.Memory)
        ⊎ ((refusal ≡ Refusal.WrongForm) × (forms.pairs (tokens bytes.now) ≡ None))) }
{
    let mut found = Vec::new(alloc);
    let mut left = bytes;
    loop {
        let (pair, rest) = two_words(left)?;
        if found.push(pair).is_err() {
            return Err(Refusal::Memory);
        }
        match next_token(rest) {
            None => return Ok(found),
            Some((Token::Semicolon, rest)) => left = rest,
            _ => return Err(Refusal::WrongForm),
        }
    }
}

/// The words of a relation and its two domains, and what stands behind the equals sign.
fn relation_words(bytes: &[u8]) -> Result<(&[u8], (&[u8], &[u8]), &[u8]), Refusal>
    ensures ok { IfOk result (λ found.
        tokens bytes.now ≡ Word found.0.now ∷ Word found.1.0.now ∷ Word
        found.1.1.now ∷ Equals ∷ tokens found.2.now) }
    ensures err { IfErr result (λ refusal. (refusal ≡ Refusal.WrongForm)
        × (forms.relation (tokens bytes.now) ≡ None)) }
{
    let (relation, rest) = word(bytes)?;
    let (domains, rest) = two_words(rest)?;
    match next_token(rest) {
        Some((Token::Equals, rest)) => Ok((relation, domains, rest)),
        _ => Err(Refusal::WrongForm),
    }
}

/// `relation R D E = a b ; c d ..`, behind its first word.
pub fn relation<'a>(alloc: Global, rest: &'a [u8]) -> Result<Command<'a>, Refusal>
    ensures { ReadsAs result (command_in_form (forms.relation (tokens rest.now))) }
{
    let (relation, domains, rest) = relation_words(rest)?;
    let pairs = pairs(alloc, rest)?;
    let relation = name(relation)?;
    let (from, to) = two_names(domains.0, domains.1)?;
    Ok(Command::Relation(relation, from, to, pairs))
}

/// The kind that the word stands for: one of three with words of their own, and else the domain of
/// that name.
pub(crate) fn kind_word(word: &[u8]) -> Result<KindWord<'_>, Refusal>
    ensures ok { IfOk result (λ kind. (forms.kind_word word.now ≡ kind_of kind)
        × (list_all is_name (kind_names (kind_of kind)) ≡ true)) }
    ensures err { IfErr result (λ refusal. (refusal ≡ Refusal.NotAName)
        × (list_all is_name (kind_names (forms.kind_word word.now)) ≡ false)) }
{
    if word == b"span".as_slice() {
        Ok(KindWord::Spans)
    } else if word == b"truth".as_slice() {
        Ok(KindWord::Truths)
    } else if word == b"symbol".as_slice() {
        Ok(KindWord::Symbols)
    } else {
        Ok(KindWord::Named(name(word)?))
    }
}

/// The name and the kind that two words are.
pub(crate) fn named_kind<'a>(
    word: &'a [u8],
    kind: &'a [u8],
) -> Result<(&'a str, KindWord<'a>), Refusal>
    ensures ok { IfOk result (λ found. (found.0.now ≡ word.now)
        × (forms.kind_word kind.now ≡ kind_of found.1)
        × (list_all is_name (word.now ∷ kind_names (kind_of found.1)) ≡ true)) }
    ensures err { IfErr result (λ refusal. (refusal ≡ Refusal.NotAName)
        × (list_all is_name (word.now ∷ kind_names (forms.kind_word kind.now)) ≡ false)) }
{
    Ok((name(word)?, kind_word(kind)?))
}

/// `cell X KIND`, behind its first word.
pub fn cell(rest: &[u8]) -> Result<Command<'_>, Refusal>
    ensures read { ReadsAs result (command_in_form (forms.cell (tokens rest.now))) }
    ensures memory { result ≢ Err Refusal.Memory }
{
    let (cell, kind) = only_two_words(rest)?;
    let (cell, kind) = named_kind(cell, kind)?;
    Ok(Command::Cell(cell, kind))
}

/// `limit N`, behind its first word: a number from 0 to 1,000,000,000,000,000.
pub fn limit(rest: &[u8]) -> Result<Command<'_>, Refusal>
    ensures read { ReadsAs result
        (command_in_form (forms.on_word forms.limit_of (tokens rest.now))) }
    ensures memory { result ≢ Err Refusal.Memory }
{
    match natural_in(MOST_STEPS, only_word(rest)?) {
        Some(steps) => Ok(Command::Limit(steps)),
        None => Err(Refusal::NotANumber),
    }
}

/// `settle`, behind its first word.
pub fn settle(rest: &[u8]) -> Result<Command<'_>, Refusal>
    ensures read { ReadsAs result
        (command_in_form (forms.bare commands.Command.Settle (tokens rest.now))) }
    ensures memory { result ≢ Err Refusal.Memory }
{
    if is_end(rest) {
        Ok(Command::Settle)
    } else {
        Err(Refusal::WrongForm)
    }
}

/// `worldview`, behind its first word.
pub fn worldview(rest: &[u8]) -> Result<Command<'_>, Refusal>
    ensures read { ReadsAs result
        (command_in_form (forms.bare commands.Command.Worldview (tokens rest.now))) }
    ensures memory { result ≢ Err Refusal.Memory }
{
    if is_end(rest) {
        Ok(Command::Worldview)
    } else {
        Err(Refusal::WrongForm)
    }
}

/// What stands behind the first `by`, if there is a `by`. Before it stand words alone.
pub(crate) fn behind_by(bytes: &[u8]) -> Result<Option<&[u8]>, Refusal>
    ensures ok { IfOk result (λ behind.
        behind_by (tokens bytes.now) ≡ Some (option_map (λ rest. tokens rest.now) behind)) }
    ensures err { IfErr result (λ refusal. (refusal ≡ Refusal.WrongForm)
        × (behind_by (tokens bytes.now) ≡ None)) }
{
    let mut left = bytes;
    while let Some((token, rest)) = next_token(left) {
        let Token::Word(word) = token else {
            return Err(Refusal::WrongForm);
        };
        if word == b"by".as_slice() {
            return Ok(Some(rest));
        }
        left = rest;
    }
    Ok(None)
}

/// The word behind the first `by`, if there is a `by`. Before it stand words alone, and behind it
/// that one word.
fn word_behind_by(bytes: &[u8]) -> Result<Option<&[u8]>, Refusal>
    ensures ok { IfOk result (λ word.
        given forms.by_form (tokens bytes.now) ≡ Some (parameter_said word)) }
    ensures err { IfErr result (λ refusal. (refusal ≡ Refusal.WrongForm)
        × (given forms.by_form (tokens bytes.now) ≡ None)) }
{
    match behind_by(bytes)? {
        Some(rest) => Ok(Some(only_word(rest)?)),
        None => Ok(None),
    }
}

/// The first word and those up to a `by`, which are to be names.
pub(crate) fn names_before_by<'a>(
    alloc: Global,
    first: &'a [u8],
    rest: &'a [u8],
) -> Result<Vec<&'a str>, Refusal>
    ensures ok { IfOk result (λ names. (words names.items ≡ first.now ∷ before_by (tokens rest.now))
        × (list_all is_name (first.now ∷ before_by (tokens rest.now)) ≡ true)) }
    ensures err { IfErr result (λ refusal. (refusal ≡ Refusal.Memory)
        ⊎ ((refusal ≡ Refusal.NotAName)
        × (list_all is_name (first.now ∷ before_by (tokens rest.now)) ≡ false))) }
{
    let mut names = Vec::new(alloc);
    push_name(&mut names, first)?;
    let mut left = rest;
    while let Some((Token::Word(word), rest)) = next_token(left) {
        if word == b"by".as_slice() {
            break;
        }
        push_name(&mut names, word)?;
        left = rest;
    }
    Ok(names)
}

/// The name of what is used, and those of the cells that it is used on, up to a `by`.
pub(crate) fn used_names<'a>(
    alloc: Global,
    first_two: (&'a [u8], &'a [u8]),
    rest: &'a [u8],
) -> Result<(&'a str, Vec<&'a str>), Refusal>
    ensures ok { IfOk result (λ found. (found.0.now ≡ first_two.entry.0.now)
        × (words found.1.items ≡ first_two.entry.1.now ∷ before_by (tokens rest.now))
        × (list_all is_name (first_two.entry.0.now ∷ first_two.entry.1.now ∷ before_by
        (tokens rest.now)) ≡ true)) }
    ensures err { IfErr result (λ refusal. (refusal ≡ Refusal.Memory)
        ⊎ ((refusal ≡ Refusal.NotAName)
        × (list_all is_name (first_two.entry.0.now ∷ first_two.entry.1.now ∷ before_by
        (tokens rest.now)) ≡ false))) }
{
    let used = name(first_two.0)?;
    Ok((used, names_before_by(alloc, first_two.1, rest)?))
}

/// The parameter that a word behind `by` is: a number from 1 to 1,000,000,000 where it begins as
/// one, and else a name.
pub(crate) fn parameter(word: Option<&[u8]>) -> Result<By<'_>, Refusal>
    ensures ok { IfOk result (λ by. by_in_range (parameter_said word.entry) ≡ Ok (by_of by)) }
    ensures err { IfErr result (λ refusal. by_in_range (parameter_said word.entry) ≡ Err refusal) }
{
    match word {
        None => Ok(By::Nothing),
        Some(word) if looks_like_number(word) => {
            let number = number_in(1, MOST_SCALE, word).ok_or(Refusal::NotANumber)?;
            Ok(By::Number(number))
        }
        Some(word) => Ok(By::Relation(name(word)?)),
    }
}

/// `attach N X.. [by P]`, behind its first word.
pub fn attach<'a>(alloc: Global, rest: &'a [u8]) -> Result<Command<'a>, Refusal>
    ensures { ReadsAs result (command_in_form (forms.attach (tokens rest.now))) }
{
    let (front, rest) = two_words(rest)?;
    let by = word_behind_by(rest)?;
    let (procedure, cells) = used_names(alloc, front, rest)?;
    Ok(Command::Attach(procedure, cells, parameter(by)?))
}

/// The words up to a closing brace, and what stands behind it.
fn braces<'a>(alloc: Global, bytes: &'a [u8]) -> Result<(Value<'a>, &'a [u8]), Refusal>
    ensures ok { IfOk result (λ found.
        forms.in_braces [] (tokens bytes.now) ≡ forms.join (Some (value_of found.0))
        (forms.values (tokens found.1.now))) }
    ensures err { IfErr result (λ refusal. (refusal ≡ Refusal.Memory)
        ⊎ ((refusal ≡ Refusal.WrongForm) × (forms.in_braces [] (tokens bytes.now) ≡ None))) }
    ensures shorter { IfOk result (λ found. length found.1.now < length bytes.now) }
{
    let mut words = Vec::new(alloc);
    let mut left = bytes;
    loop {
        match next_token(left) {
            Some((Token::Word(word), rest)) => {
                if words.push(word).is_err() {
                    return Err(Refusal::Memory);
                }
                left = rest;
            }
            Some((Token::Close, rest)) => return Ok((Value::Braces(words), rest)),
            _ => return Err(Refusal::WrongForm),
        }
    }
}

/// The value that the bytes begin with, and what stands behind it.
pub(crate) fn value<'a>(alloc: Global, bytes: &'a [u8]) -> Result<(Value<'a>, &'a [u8]), Refusal>
    ensures ok { IfOk result (λ found.
        forms.values (tokens bytes.now) ≡ forms.join (Some (value_of found.0))
        (forms.values (tokens found.1.now))) }
    ensures err { IfErr result (λ refusal. (refusal ≡ Refusal.Memory)
        ⊎ ((refusal ≡ Refusal.WrongForm) × (some_values (tokens bytes.now) ≡ None))) }
    ensures shorter { IfOk result (λ found. length found.1.now < length bytes.now) }
    ensures memory { (result ≡ Err Refusal.Memory) → BeginsOpen (tokens bytes.now) }
{
    match next_token(bytes) {
        Some((Token::Word(word), rest)) => Ok((Value::Bare(word), rest)),
        Some((Token::Open, rest)) => braces(alloc, rest),
        _ => Err(Refusal::WrongForm),
    }
}

/// One value and no more.
fn only_value<'a>(alloc: Global, bytes: &'a [u8]) -> Result<Value<'a>, Refusal>
    ensures ok { IfOk result (λ value.
        forms.only_value (tokens bytes.now) ≡ Some (value_of value)) }
    ensures err { IfErr result (λ refusal. (refusal ≡ Refusal.Memory)
        ⊎ ((refusal ≡ Refusal.WrongForm) × (forms.only_value (tokens bytes.now) ≡ None))) }
    ensures memory { (result ≡ Err Refusal.Memory) → BeginsOpen (tokens bytes.now) }
{
    let (value, rest) = value(alloc, bytes)?;
    if is_end(rest) {
        Ok(value)
    } else {
        Err(Refusal::WrongForm)
    }
}

/// `fix X V`, behind its first word.
pub fn fix<'a>(alloc: Global, rest: &'a [u8]) -> Result<Command<'a>, Refusal>
    ensures read { ReadsAs result (command_in_form (forms.fix (tokens rest.now))) }
    ensures memory { (result ≡ Err Refusal.Memory) → Contains (tokens rest.now) Open }
{
    let (cell, rest) = word(rest)?;
    let value = only_value(alloc, rest)?;
    Ok(Command::Fix(name(cell)?, value))
}

/// `tell P X V`, behind its first word.
pub fn tell<'a>(alloc: Global, rest: &'a [u8]) -> Result<Command<'a>, Refusal>
    ensures read { ReadsAs result (command_in_form (forms.tell (tokens rest.now))) }
    ensures memory { (result ≡ Err Refusal.Memory) → Contains (tokens rest.now) Open }
{
    let ((premise, cell), rest) = two_words(rest)?;
    let value = only_value(alloc, rest)?;
    let (premise, cell) = two_names(premise, cell)?;
    Ok(Command::Tell(premise, cell, value))
}
