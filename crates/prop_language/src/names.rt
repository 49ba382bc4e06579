//! What can be a name.
ghost use Rattle.std.specs.Prelude.{◌≡◌, ◌<◌, ◌==◌, ◌||◌, not, chars, map, true, false, None};
ghost use Rattle.std.specs.Prelude.{IsTrue, IfOk, IfErr, IfSome};
ghost use Rattle.std.specs.List.{list_all};
ghost use Rattle.std.specs.Str.{IsAscii};
ghost use Rattle.unicode_ident.specs.Ident.{is_xid_start, is_xid_continue};
ghost use Rattle.prop_language.specs.Names.{is_name, is_identifier, is_among, reserved_words};

use prop_refusals::Refusal;
use unicode_ident::{is_xid_continue, is_xid_start};

/// The words that are never names.
const RESERVED: [&[u8]; 9] = [
    b"by",
    b"local",
    b"span",
    b"symbol",
    b"truth",
    b"yes",
    b"no",
    b"nothing",
    b"contradiction",
];

/// Whether the word is one of these.
pub fn is_among(words: &[&[u8]], word: &[u8]) -> bool
    ensures { result ≡ is_among (map (λ w. w.now) words.now) word.now }
{
    for known in words {
        if *known == word {
            return true;
        }
    }
    false
}

fn is_reserved(word: &[u8]) -> bool
    ensures { result ≡ is_among reserved_words word.now }
{
    is_among(&RESERVED, word)
}

fn continues(text: &str) -> bool
    ensures { result ≡ list_all is_xid_continue (chars text.now) }
{
    text.chars().all(is_xid_continue)
}

fn is_identifier(text: &str) -> bool
    ensures { result ≡ is_identifier (chars text.now) }
{
    let mut characters = text.chars();
    let Some(first) = characters.next() else {
        return false;
    };
    (is_xid_start(first) || first == '_') && continues(characters.as_str())
}

/// Whether the byte is an ASCII character that begins an identifier.
fn begins_plain(byte: u8) -> bool
    ensures { IsTrue result → (byte < 128)
        × ((is_xid_start byte || (byte == 95)) ≡ true) }
{
    byte < 128 && (is_xid_start(byte as char) || byte == b'_')
}

/// Whether the byte is an ASCII character that continues an identifier.
fn continues_plain(byte: u8) -> bool
    ensures { IsTrue result → (byte < 128) × (is_xid_continue byte ≡ true) }
{
    byte < 128 && is_xid_continue(byte as char)
}

/// Whether the word is an identifier of ASCII characters.
fn is_plain(word: &[u8]) -> bool
    ensures { IsTrue result → IsAscii word.now × (is_identifier word.now ≡ true) }
{
    let Some((first, rest)) = word.split_first() else {
        return false;
    };
    if !begins_plain(*first) {
        return false;
    }
    for byte in rest {
        if !continues_plain(*byte) {
            return false;
        }
    }
    true
}

/// The identifier that the word is. One of ASCII characters is UTF-8 and is not tested for it.
fn identifier(word: &[u8]) -> Option<&str>
    ensures some { IfSome result (λ text. (text.now ≡ word.now)
        × (is_name word.now ≡ not (is_among reserved_words word.now))) }
    ensures none { result ≡ None → is_name word.now ≡ false }
{
    if is_plain(word) {
        return Some(unsafe { str::from_utf8_unchecked(word) });
    }
    match str::from_utf8(word) {
        Ok(text) if is_identifier(text) => Some(text),
        _ => None,
    }
}

/// The name that the word is.
pub fn name(word: &[u8]) -> Result<&str, Refusal>
    ensures ok { IfOk result (λ name. (name.now ≡ word.now) × (is_name word.now ≡ true)) }
    ensures err { IfErr result (λ refusal. (refusal ≡ Refusal.NotAName)
        × (is_name word.now ≡ false)) }
{
    match identifier(word) {
        Some(text) if !is_reserved(word) => Ok(text),
        _ => Err(Refusal::NotAName),
    }
}
