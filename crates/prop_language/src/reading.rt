//! What a line asks for.
ghost use Rattle.std.specs.Prelude.{◌≡◌, List, map, find, bytes_eq, IfSome, IsTrue};
ghost use Rattle.std.specs.List.{list_all};
ghost use Rattle.prop_language.specs.Tokens as words;
ghost use Rattle.prop_language.specs.Tokens.{tokens};
ghost use Rattle.prop_language.specs.Reading.{is_silent, IsReading, HaveOneReading};
ghost use Rattle.prop_language.specs.inner.Lines.{without_return};
ghost use Rattle.prop_language.specs.inner.Parsing.{reading_of, command_of, by_form_of};
ghost use Rattle.prop_language.specs.inner.Parsing.{command_in_form};
ghost use Rattle.prop_language.specs.inner.Parts.{form_of, form_entry, read_by, word_of, is_worded};
ghost use Rattle.prop_language.specs.inner.Parts.{KeepsWordsOf, ReadsAs};
ghost use Rattle.prop_language.specs.Said.{Reads, KeepsWords};

use crate::command::Command;
use crate::tokens::{Token, is_blank, next_token};
use crate::{choices, forms, steps};
use prop_refusals::Refusal;
use std::alloc::Global;

/// How many bytes a line may have.
pub const MOST_BYTES: usize = 4096;

/// The bytes but for one carriage return at their end.
fn without_return(line: &[u8]) -> &[u8]
    ensures { result.now ≡ without_return line.now }
{
    let Some((last, front)) = line.split_last() else {
        return line;
    };
    if *last == b'\r' { front } else { line }
}

/// Whether the line gets no reply: it has spaces and tabs alone, or a number sign as its first
/// other byte.
fn is_silent(text: &[u8]) -> bool
    ensures { result ≡ is_silent text.now }
{
    for byte in text {
        if !is_blank(*byte) {
            return *byte == b'#';
        }
    }
    true
}

/// The first word of a command.
#[derive(Clone, Copy)]
enum CommandWord {
    Domain,
    Relation,
    Cell,
    Define,
    Attach,
    Fix,
    Tell,
    Choose,
    Kick,
    Bring,
    Forget,
    Limit,
    Settle,
    Ask,
    Why,
    Core,
    Worldview,
    Nogoods,
}

/// The commands by their first words.
const COMMANDS: [(&[u8], CommandWord); 18] = [
    (b"domain", CommandWord::Domain),
    (b"relation", CommandWord::Relation),
    (b"cell", CommandWord::Cell),
    (b"define", CommandWord::Define),
    (b"attach", CommandWord::Attach),
    (b"fix", CommandWord::Fix),
    (b"tell", CommandWord::Tell),
    (b"choose", CommandWord::Choose),
    (b"kick", CommandWord::Kick),
    (b"bring", CommandWord::Bring),
    (b"forget", CommandWord::Forget),
    (b"limit", CommandWord::Limit),
    (b"settle", CommandWord::Settle),
    (b"ask", CommandWord::Ask),
    (b"why", CommandWord::Why),
    (b"core", CommandWord::Core),
    (b"worldview", CommandWord::Worldview),
    (b"nogoods", CommandWord::Nogoods),
];

/// The first of these commands that has this word.
fn find_command(commands: &[(&[u8], CommandWord)], word: &[u8]) -> Option<CommandWord>
    ensures read { (ts : List words.Token)
        → by_form_of (find (λ form. bytes_eq form.0 word.now) (map form_entry commands.now))
        ts ≡ read_by result ts }
    ensures word { IfSome result (λ command. IsTrue (list_all is_worded commands.now)
        → word.now ≡ word_of command) }
{
    for (known, command) in commands {
        if *known == word {
            return Some(*command);
        }
    }
    None
}

/// The command that begins with this word, by what stands behind the word.
fn read_form<'a>(
    alloc: Global,
    command: CommandWord,
    rest: &'a [u8],
) -> Result<Command<'a>, Refusal>
    ensures read { ReadsAs result (command_in_form (form_of command (tokens rest.now))) }
    ensures memory { (result ≡ Err Refusal.Memory) → KeepsWordsOf command (tokens rest.now) }
{
    match command {
        CommandWord::Domain => forms::domain(alloc, rest),
        CommandWord::Relation => forms::relation(alloc, rest),
        CommandWord::Cell => forms::cell(rest),
        CommandWord::Define => steps::define(alloc, rest),
        CommandWord::Attach => forms::attach(alloc, rest),
        CommandWord::Fix => forms::fix(alloc, rest),
        CommandWord::Tell => forms::tell(alloc, rest),
        CommandWord::Choose => choices::choose(alloc, rest),
        CommandWord::Kick => Ok(Command::Kick(forms::only_name(rest)?)),
        CommandWord::Bring => Ok(Command::Bring(forms::only_name(rest)?)),
        CommandWord::Forget => Ok(Command::Forget(forms::only_name(rest)?)),
        CommandWord::Limit => forms::limit(rest),
        CommandWord::Settle => forms::settle(rest),
        CommandWord::Ask => Ok(Command::Ask(forms::only_name(rest)?)),
        CommandWord::Why => Ok(Command::Why(forms::only_name(rest)?)),
        CommandWord::Core => Ok(Command::Core(forms::only_name(rest)?)),
        CommandWord::Worldview => forms::worldview(rest),
        CommandWord::Nogoods => choices::nogoods(rest),
    }
}

/// The command of a line that gets a reply, by its first word.
fn read_command<'a>(alloc: Global, text: &'a [u8]) -> Result<Command<'a>, Refusal>
    ensures read { ReadsAs result (command_of (tokens text.now)) }
    ensures memory { (result ≡ Err Refusal.Memory) → KeepsWords (tokens text.now) }
{
    let Some((Token::Word(word), rest)) = next_token(text) else {
        return Err(Refusal::UnknownCommand);
    };
    match find_command(&COMMANDS, word) {
        Some(command) => read_form(alloc, command, rest),
        None => Err(Refusal::UnknownCommand),
    }
}

fn read_text<'a>(alloc: Global, text: &'a [u8]) -> Result<Command<'a>, Refusal>
    ensures read { ReadsAs result (reading_of text.now) }
    ensures memory { (result ≡ Err Refusal.Memory) → KeepsWords (tokens text.now) }
{
    match str::from_utf8(text) {
        Err(_) => Err(Refusal::NotUtf8),
        Ok(_) if is_silent(text) => Ok(Command::Silent),
        Ok(_) => read_command(alloc, text),
    }
}

/// What a line, without its line feed, asks for.
///
/// The refusal is the first that applies: the line is too long, is not UTF-8, begins with no
/// command, has another form than its command's, has a word in a name's place that is no name, or a
/// number out of its range. Or it is `Refusal::Memory`, where there was no memory for the words.
pub fn read_line<'a>(alloc: Global, line: &'a [u8]) -> Result<Command<'a>, Refusal>
    ensures read { Reads result (IsReading line.now) }
    ensures memory { (result ≡ Err Refusal.Memory) → KeepsWords (tokens (without_return line.now)) }
{
    if line.len() > MOST_BYTES {
        return Err(Refusal::LineTooLong);
    }
    read_text(alloc, without_return(line))
}

/// Each line asks for one thing and no other: it has one reading.
pub fn lines_have_one_reading()
    ensures { HaveOneReading }
{}
