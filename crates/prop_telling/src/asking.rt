//! Which lines are the layer's own.
ghost use Rattle.std.specs.Prelude.{◌≡◌, IfOk};
ghost use Rattle.prop_telling.specs.Asking.{is_step, is_apart, is_how, as_why, is_list, byte_at};
ghost use Rattle.prop_telling.specs.Asking.{may_declare};

use std::alloc::{AllocError, Global};

/// Whether the line asks for a step: it is that word, and maybe a carriage return.
pub(crate) fn is_step(line: &[u8]) -> bool
    ensures { result ≡ is_step line.now }
{
    line == b"step".as_slice() || line == b"step\r".as_slice()
}

/// Whether a word ends before these bytes: there is none, or a blank or a return is the first.
pub fn is_apart(rest: &[u8]) -> bool
    ensures { result ≡ is_apart rest.now }
{
    matches!(rest, [] | [b' ' | b'\t' | b'\r', ..])
}

/// Whether the line asks what makes up a value: `how` is its first word.
pub(crate) fn is_how(line: &[u8]) -> bool
    ensures { result ≡ is_how line.now }
{
    match line {
        [b'h', b'o', b'w', rest @ ..] => is_apart(rest),
        _ => false,
    }
}

/// The line with `why` in place of its first three bytes.
pub(crate) fn as_why(alloc: Global, line: &[u8]) -> Result<Vec<u8>, AllocError>
    ensures { IfOk result (λ bytes. bytes.items ≡ as_why line.now) }
{
    let mut bytes = Vec::from_slice(alloc, b"why")?;
    if let [_, _, _, rest @ ..] = line {
        bytes.extend_from_slice(rest)?;
    }
    Ok(bytes)
}

/// Whether the line asks what is there: it is that word, and maybe a carriage return.
pub(crate) fn is_list(line: &[u8]) -> bool
    ensures { result ≡ is_list line.now }
{
    line == b"list".as_slice() || line == b"list\r".as_slice()
}

/// The byte at a place, 0 behind the end.
fn byte_at(line: &[u8], place: usize) -> u8
    ensures { result ≡ byte_at line.now place }
{
    line.get(place).copied().unwrap_or(0)
}

/// Whether the line may declare something: it begins as `attach`, `define` and `domain` do, or
/// with a blank.
pub(crate) fn may_declare(line: &[u8]) -> bool
    ensures { result ≡ may_declare line.now }
{
    let first = byte_at(line, 0);
    if first == b'a' {
        return byte_at(line, 1) == b't';
    }
    first == b'd' || first == b' ' || first == b'\t'
}
