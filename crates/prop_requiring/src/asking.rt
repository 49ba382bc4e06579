//! Which lines require something or define a cell, and what they say.
ghost use Rattle.std.specs.Prelude.{◌≡◌, ◌<◌, ◌⊎◌, ◌++◌, ◌∷◌, ◌≤◌, ◌==◌, List, ℕ, Ok, false, true};
ghost use Rattle.std.specs.Prelude.{IfErr, IfOk, MatchOption, codes, length};
ghost use Rattle.std.specs.Option.{option_map};
ghost use Rattle.prop_language.specs.Names.{is_name};
ghost use Rattle.prop_workbench.specs.inner.Effects.{name_of};
ghost use Rattle.prop_terms.specs.Terms.{term_of};
ghost use Rattle.prop_terms.specs.Writing.{IsWritten};
ghost use Rattle.prop_demands.specs.Refusing.{IsRefused};
ghost use Rattle.prop_requiring.specs.Asking.{HasNoEquals, IsAsked, IsDefined, IsMisread};
ghost use Rattle.prop_requiring.specs.Asking.{is_definition, is_requirement, is_space};
ghost use Rattle.prop_requiring.specs.inner.Parts.{before_under, cut, trimmed, under_word};

use prop_language::name;
use prop_refusals::Refusal;
use prop_seeking::begins;
use prop_terms::{Sort, Term, read};
use std::alloc::Global;

/// How many bytes a line may have behind `require`, and behind `let`, so that it has 4,096 at the
/// most.
const MOST_BYTES: usize = 4089;

const MOST_DEFINING: usize = 4093;

/// What stands behind `require` in a line that requires something.
pub(crate) fn required(line: &[u8]) -> Option<&[u8]>
    ensures { MatchOption result (is_requirement line.now ≡ false)
        (λ rest. (is_requirement line.now ≡ true) × (line.now ≡ codes "require" ++ rest.now)) }
{
    if !begins(b"require".as_slice(), line) {
        return None;
    }
    line.strip_prefix(b"require".as_slice())
}

/// What stands behind `let` in a line that defines a cell.
pub(crate) fn behind_let(line: &[u8]) -> Option<&[u8]>
    ensures { MatchOption result (is_definition line.now ≡ false)
        (λ rest. (is_definition line.now ≡ true) × (line.now ≡ codes "let" ++ rest.now)) }
{
    if !begins(b"let".as_slice(), line) {
        return None;
    }
    line.strip_prefix(b"let".as_slice())
}

/// What a line says: a text, and the name of the premise under which it is required.
#[derive(Clone, Copy)]
pub(crate) struct Said<'l> {
    pub(crate) text: &'l [u8],
    pub(crate) premise: Option<&'l str>,
}

/// Whether the byte is a space, a tab or a carriage return.
fn is_space(byte: u8) -> bool
    ensures { result ≡ is_space byte }
{
    byte == b' ' || byte == b'\t' || byte == b'\r'
}

/// The bytes without spaces at their end.
fn trimmed(bytes: &[u8]) -> &[u8]
    ensures { result.now ≡ trimmed bytes.now }
{
    for k in (0..bytes.len()).rev() {
        if !is_space(bytes[k]) {
            return &bytes[..k + 1];
        }
    }
    &bytes[..0]
}

/// The bytes without spaces at both ends.
pub(crate) fn bare(bytes: &[u8]) -> &[u8] {
    for k in 0..bytes.len() {
        if !is_space(bytes[k]) {
            return trimmed(&bytes[k..]);
        }
    }
    &bytes[..0]
}

/// What stands before a space, and what behind.
#[derive(Clone, Copy)]
struct Cut<'l> {
    before: &'l [u8],
    word: &'l [u8],
}

/// Cuts the bytes at the last space.
fn cut_at_space(bytes: &[u8]) -> Option<Cut<'_>>
    ensures { option_map (λ parts. (parts.before.now, parts.word.now)) result ≡ cut bytes.now }
{
    for k in (0..bytes.len()).rev() {
        if is_space(bytes[k]) {
            return Some(Cut {
                before: &bytes[..k],
                word: &bytes[k + 1..],
            });
        }
    }
    None
}

/// What stands before the last word, where that is `under`.
fn before_under(bytes: &[u8]) -> Option<&[u8]>
    ensures { name_of result ≡ before_under bytes.now }
{
    let Some(parts) = cut_at_space(trimmed(bytes)) else {
        return None;
    };
    if parts.word == b"under".as_slice() {
        Some(parts.before)
    } else {
        None
    }
}

/// What stands before `under` and the last word, and that word, where the bytes end so.
fn under_word(bytes: &[u8]) -> Option<Cut<'_>>
    ensures { option_map (λ parts. (parts.before.now, parts.word.now)) result
        ≡ under_word bytes.now }
{
    let Some(parts) = cut_at_space(trimmed(bytes)) else {
        return None;
    };
    match before_under(parts.before) {
        Some(before) => Some(Cut {
            before,
            word: parts.word,
        }),
        None => None,
    }
}

/// What a line says by what stands behind `require`. Refused with 1 where it is too long, and
/// with 5 where behind `under` stands no name.
pub(crate) fn read_line(behind: &[u8]) -> Result<Said<'_>, Refusal>
    ensures ok { IfOk result
        (λ said. IsAsked (codes "require" ++ behind.now) said.text.now (name_of said.premise)) }
    ensures err { IfErr result (λ e. IsMisread (codes "require" ++ behind.now) e) }
{
    if behind.len() > MOST_BYTES {
        return Err(Refusal::LineTooLong);
    }
    let Some(parts) = under_word(behind) else {
        return Ok(Said {
            text: trimmed(behind),
            premise: None,
        });
    };
    match name(parts.word) {
        Ok(premise) => Ok(Said {
            text: parts.before,
            premise: Some(premise),
        }),
        Err(refusal) => Err(refusal),
    }
}

/// What a line defines: what stands before its first equals sign, and the text behind that.
#[derive(Clone, Copy)]
pub(crate) struct Defined<'l> {
    pub(crate) before: &'l [u8],
    pub(crate) text: &'l [u8],
}

/// Whether the byte is an equals sign.
fn is_equals(byte: u8) -> bool
    ensures { result ≡ (byte == 61) }
{
    byte == b'='
}

/// What stands before the first equals sign, and what behind; nothing where there is none.
fn at_equals(bytes: &[u8]) -> Option<Defined<'_>>
    ensures { MatchOption result (HasNoEquals bytes.now) (λ parts. HasNoEquals parts.before.now
        × (bytes.now ≡ parts.before.now ++ 61 ∷ parts.text.now)) }
{
    for k in 0..bytes.len() {
        if is_equals(bytes[k]) {
            return Some(Defined {
                before: &bytes[..k],
                text: &bytes[k + 1..],
            });
        }
    }
    None
}

/// What a line defines by what stands behind `let`. Refused with 1 where it is too long, and with 4
/// where it has no equals sign.
pub(crate) fn read_definition(behind: &[u8]) -> Result<Defined<'_>, Refusal>
    ensures ok { IfOk result
        (λ parts. IsDefined (codes "let" ++ behind.now) parts.before.now parts.text.now) }
    ensures err { IfErr result (λ e. ((e ≡ Refusal.LineTooLong)
        × (4_096 < length (codes "let" ++ behind.now)))
        ⊎ ((e ≡ Refusal.WrongForm) × (length (codes "let" ++ behind.now) ≤ 4_096)
        × HasNoEquals (codes "let" ++ behind.now))) }
{
    if behind.len() > MOST_DEFINING {
        return Err(Refusal::LineTooLong);
    }
    match at_equals(behind) {
        Some(parts) => Ok(Defined {
            before: parts.before,
            text: trimmed(parts.text),
        }),
        None => Err(Refusal::WrongForm),
    }
}

/// The term that a text writes, where one of the sort is wanted.
pub(crate) fn term_in<'l>(alloc: Global, text: &'l [u8], sort: Sort) -> Result<Term<'l>, Refusal>
    ensures ok { IfOk result (λ term. IsWritten sort text.now (term_of term)) }
    ensures err { IfErr result (IsRefused sort text.now) }
{
    match read(alloc, text, sort) {
        Ok(term) => Ok(term),
        Err(fault) => Err(fault.refusal),
    }
}
