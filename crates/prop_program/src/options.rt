//! The options of a program.
ghost use Rattle.std.specs.Prelude.{◌≡◌, ◌⊎◌, ℕ, List, false, IfOk, IfErr, OnErr, map};
ghost use Rattle.std.specs.Prelude.{string_bytes};
ghost use Rattle.clap.specs.Words.{app_of, found_of, kind_of, rule_of};
ghost use Rattle.prop_program.specs.Program.{program, versioned, value_rule, number_given};
ghost use Rattle.prop_program.specs.Program.{order_given, AreChosen, AreWrong, AreGiven};
ghost use Rattle.prop_program.specs.Program.{AreOutOfRange, AreTaken, IsReason, IsWantOfMemory};
ghost use Rattle.prop_program.specs.inner.Program.{word_of};

use crate::chosen::{Options, Pick};
use clap::error::ErrorKind;
use clap::{Arg, ArgAction, ArgMatches, Command, Error};
use prop_language::{MOST_STEPS, natural_in};
use std::alloc::{AllocError, Global};

/// The steps of a running command where no limit is given.
const STEPS: u64 = 1_000_000_000;

/// What a program says of itself.
#[derive(Clone, Copy)]
pub struct Said {
    /// Its name, which a fault begins with.
    pub name: &'static str,
    /// Its version, and the toolchain that proves it.
    pub version: &'static str,
    /// What it is for.
    pub about: &'static str,
    /// The commands that it reads, and where they are described.
    pub commands: &'static str,
}

/// The options that the words give, the first of which is the program's name. The error is the
/// option reader's own, or that a value is none of its option's, or want of memory.
pub fn options(alloc: Global, said: Said, words: &[String]) -> Result<Options, Error>
    ensures ok { IfOk result (AreGiven said.name.now (map string_bytes words.now)) }
    ensures err { IfErr result (λ e. AreTaken said.name.now (map string_bytes words.now)
        → IsWantOfMemory e ⊎ AreOutOfRange said.name.now (map string_bytes words.now)) }
    ensures why { IfErr result (λ e. IsReason said.name.now (map string_bytes words.now)
        (kind_of e)) }
{
    let mut command = program(alloc, said)?;
    let options = read(&mut command, words);
    // One call in place of the drop of each part, which a proof would go through one by one.
    drop(command);
    options
}

/// The options that the words give, by the program as the option reader sees it.
fn read<'a>(command: &mut Command<'a>, words: &'a [String]) -> Result<Options, Error>
    ensures ok { (name : List ℕ) → app_of command.old ≡ program name
        → IfOk result (AreGiven name (map string_bytes words.now)) }
    ensures err { (name : List ℕ) → app_of command.old ≡ program name
        → IfErr result (λ e. AreTaken name (map string_bytes words.now)
        → IsWantOfMemory e ⊎ AreOutOfRange name (map string_bytes words.now)) }
    ensures why { (name : List ℕ) → app_of command.old ≡ program name
        → IfErr result (λ e. IsReason name (map string_bytes words.now) (kind_of e)) }
{
    let matches = command.try_get_matches_from_mut(words)?;
    let chosen = chosen(&matches);
    drop(matches);
    match chosen {
        Ok(options) => Ok(options),
        Err(text) => Err(command.error(ErrorKind::ValueValidation, text)?),
    }
}

/// The program's name and version, and what its help says beside the options.
fn named<'a>(alloc: Global, said: Said) -> Command<'a>
    ensures { app_of result ≡ versioned said.name.now }
{
    Command::new(alloc, said.name)
        .version(said.version)
        .about(said.about)
        .after_help(said.commands)
}

/// The program as the option reader sees it.
fn program<'a>(alloc: Global, said: Said) -> Result<Command<'a>, AllocError>
    ensures { IfOk result (λ command. app_of command ≡ program said.name.now) }
{
    let limit = "Steps per running command, 0 to 1000000000000000 [default: 1000000000]";
    let order = "Which waiting procedure comes next: fifo, lifo or mixed [default: fifo]";
    let seed = "What mixed begins with, 0 to 18446744073709551615 [default: 0]";
    named(alloc, said)
        .arg(value(alloc, "limit", "N").help(limit))?
        .arg(value(alloc, "order", "ORDER").help(order))?
        .arg(value(alloc, "seed", "N").help(seed))
}

/// An option with this name, which takes one value.
fn value<'a>(alloc: Global, name: &'a str, said: &'a str) -> Arg<'a>
    ensures rule { rule_of result ≡ value_rule name.now }
    ensures here { result.global ≡ false }
{
    Arg::new(alloc, name)
        .long(name)
        .action(ArgAction::Set)
        .value_name(said)
}

/// What the entries choose, or what to say of a value that is none of its option's.
fn chosen(matches: &ArgMatches<'_>) -> Result<Options, &'static str>
    ensures ok { IfOk result (AreChosen (found_of matches.now)) }
    ensures err { OnErr result (AreWrong (found_of matches.now)) }
{
    let Some(limit) = number(matches.get_str("limit"), STEPS, MOST_STEPS) else {
        return Err("the limit is not a number from 0 to 1000000000000000");
    };
    let Some(order) = order(matches.get_str("order")) else {
        return Err("the order is none of fifo, lifo and mixed");
    };
    let Some(seed) = number(matches.get_str("seed"), 0, u64::MAX) else {
        return Err("the seed is not a number from 0 to 18446744073709551615");
    };
    Ok(Options { limit, order, seed })
}

/// The number that the word is, where it is one from 0 to `high`, and the program's own where there
/// is no word.
fn number(word: Option<&str>, own: u64, high: u64) -> Option<u64>
    ensures { result ≡ number_given own high (word_of word.entry) }
{
    match word {
        Some(word) => natural_in(high, word.as_bytes()),
        None => Some(own),
    }
}

/// The order that the word names, and the program's own where there is no word.
fn order(word: Option<&str>) -> Option<Pick>
    ensures { result ≡ order_given (word_of word.entry) }
{
    match word {
        None => Some(Pick::Fifo),
        Some(word) if word == "fifo" => Some(Pick::Fifo),
        Some(word) if word == "lifo" => Some(Pick::Lifo),
        Some(word) if word == "mixed" => Some(Pick::Mixed),
        Some(_) => None,
    }
}
