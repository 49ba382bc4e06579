//! Which lines ask for points.
ghost use Rattle.std.specs.Prelude.{◌≡◌, codes, IfOk};
ghost use Rattle.std.specs.Str.Lines.{strip_carriage_return};
ghost use Rattle.prop_telling.specs.Asking.{is_step};
ghost use Rattle.prop_seeking.specs.Asking.{as_value, begins, is_question};

use prop_telling::is_apart;
use std::alloc::{AllocError, Global};

/// Whether this is the line's first word, from its first byte on.
pub fn begins(word: &[u8], line: &[u8]) -> bool
    ensures { result ≡ begins word.now line.now }
{
    match line.strip_prefix(word) {
        Some(rest) => is_apart(rest),
        None => false,
    }
}

/// Whether the line sets the limit, where it is carried out.
pub(crate) fn is_limit(line: &[u8]) -> bool
    ensures { result ≡ begins (codes "limit") line.now }
{
    begins(b"limit".as_slice(), line)
}

/// Whether the line asks for a step: it is that word, and maybe a carriage return.
pub(crate) fn is_step(line: &[u8]) -> bool
    ensures { result ≡ is_step line.now }
{
    line == b"step".as_slice() || line == b"step\r".as_slice()
}

/// Whether the line asks for points.
pub(crate) fn is_question(line: &[u8]) -> bool
    ensures { result ≡ is_question line.now }
{
    begins(b"solve".as_slice(), line)
        || begins(b"least".as_slice(), line)
        || begins(b"greatest".as_slice(), line)
        || begins(b"plans".as_slice(), line)
}

/// The line without a return at its end.
fn without_return(line: &[u8]) -> &[u8]
    ensures { result.now ≡ strip_carriage_return line.now }
{
    let Some((last, front)) = line.split_last() else {
        return line;
    };
    if *last == b'\r' { front } else { line }
}

/// The line's words as the elements of a value, so that they are read as those are. `AllocError`
/// where memory is refused.
pub fn as_value(alloc: Global, line: &[u8]) -> Result<Vec<u8>, AllocError>
    ensures { IfOk result (λ bytes. bytes.items ≡ as_value line.now) }
{
    let mut bytes = Vec::from_slice(alloc, b"fix at {")?;
    bytes.extend_from_slice(without_return(line))?;
    bytes.push(b'}')?;
    Ok(bytes)
}
