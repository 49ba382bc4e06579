//! The words and marks of a text.
ghost use Rattle.std.specs.Prelude.{◌≡◌, ◌≤◌, ◌<◌, ◌∷◌, [], false, MatchOption, IfSome, length};
ghost use Rattle.std.specs.Prelude.{take, drop};
ghost use Rattle.std.specs.List.{AllByRecursion};
ghost use Rattle.prop_terms.specs.Tokens.{pieces, is_blank, is_mark, is_pair};
ghost use Rattle.prop_terms.specs.inner.Parts.{IsInWord, StartsPast, EndsWord};

/// Whether the byte is a space or a tab.
fn is_blank(byte: u8) -> bool
    ensures { result ≡ is_blank byte }
{
    byte == b' ' || byte == b'\t'
}

/// Whether the byte is a mark, or a part of one.
fn is_mark(byte: u8) -> bool
    ensures { result ≡ is_mark byte }
{
    matches!(
        byte,
        b'(' | b')'
            | b'{'
            | b'}'
            | b','
            | b';'
            | b':'
            | b'+'
            | b'-'
            | b'*'
            | b'%'
            | b'<'
            | b'>'
            | b'='
            | b'!'
            | b'/'
            | b'.'
    )
}

/// Whether the two bytes are one mark.
fn is_pair(first: u8, second: u8) -> bool
    ensures { result ≡ is_pair first second }
{
    (second == b'=' && matches!(first, b'=' | b'!' | b'<' | b'>'))
        || (first == second && matches!(first, b'/' | b'*' | b'.'))
}

/// The bytes from the first on that is neither a space nor a tab.
fn skip_blanks(bytes: &[u8]) -> &[u8]
    ensures same { pieces result.now ≡ pieces bytes.now }
    ensures front { StartsPast is_blank result.now }
    ensures length { length result.now ≤ length bytes.now }
{
    for (i, byte) in bytes.iter().enumerate() {
        if !is_blank(*byte) {
            return &bytes[i..];
        }
    }
    &[]
}

/// How many bytes the word that the bytes begin with has.
fn word_len(bytes: &[u8]) -> usize
    ensures within { result ≤ length bytes.now }
    ensures word { AllByRecursion IsInWord (take result bytes.now) }
    ensures end { EndsWord (drop result bytes.now) }
{
    for (i, byte) in bytes.iter().enumerate() {
        if is_blank(*byte) || is_mark(*byte) {
            return i;
        }
    }
    bytes.len()
}

/// How many bytes the piece has that the bytes begin with, of which the first is no blank.
fn piece_len(first: u8, rest: &[u8]) -> usize
    requires { is_blank first ≡ false }
    ensures within { result ≤ length rest.now }
    ensures piece { pieces (first ∷ rest.now)
        ≡ (first ∷ take result rest.now) ∷ pieces (drop result rest.now) }
{
    if !is_mark(first) {
        return word_len(rest);
    }
    let Some((second, _)) = rest.split_first() else {
        return 0;
    };
    if is_pair(first, *second) { 1 } else { 0 }
}

/// The next piece and the bytes after it.
pub fn next_piece(bytes: &[u8]) -> Option<(&[u8], &[u8])>
    ensures found { MatchOption result (pieces bytes.now ≡ [])
        (λ found. pieces bytes.now ≡ found.0.now ∷ pieces found.1.now) }
    ensures shorter { IfSome result (λ found. length found.1.now < length bytes.now) }
{
    let bytes = skip_blanks(bytes);
    let (first, rest) = bytes.split_first()?;
    Some(bytes.split_at(piece_len(*first, rest) + 1))
}
