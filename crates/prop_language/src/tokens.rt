//! The words and marks of a line.
ghost use Rattle.std.specs.Prelude.{◌≡◌, ◌≤◌, ◌<◌, ◌∷◌, [], MatchOption, IfSome, length, take};
ghost use Rattle.std.specs.Prelude.{drop};
ghost use Rattle.std.specs.List.{AllByRecursion};
ghost use Rattle.std.specs.Option.{option_map};
ghost use Rattle.prop_language.specs.Tokens.{tokens, is_blank, mark_of};
ghost use Rattle.prop_language.specs.inner.Parts.{token_of, IsInWord, StartsPast, EndsWord};

/// A word or a mark.
#[derive(Clone, Copy)]
pub enum Token<'a> {
    Word(&'a [u8]),
    Open,
    Close,
    Semicolon,
    Equals,
    Star,
}

/// Whether the byte is a space or a tab.
pub fn is_blank(byte: u8) -> bool
    ensures { result ≡ is_blank byte }
{
    byte == b' ' || byte == b'\t'
}

/// The mark that the byte is.
fn mark_of<'a>(byte: u8) -> Option<Token<'a>>
    ensures { option_map token_of result ≡ mark_of byte }
{
    match byte {
        b'{' => Some(Token::Open),
        b'}' => Some(Token::Close),
        b';' => Some(Token::Semicolon),
        b'=' => Some(Token::Equals),
        b'*' => Some(Token::Star),
        _ => None,
    }
}

/// The bytes from the first on that is neither a space nor a tab.
fn skip_blanks(bytes: &[u8]) -> &[u8]
    ensures same { tokens result.now ≡ tokens bytes.now }
    ensures front { StartsPast is_blank result.now }
    ensures length { length result.now ≤ length bytes.now }
{
    for (i, byte) in bytes.iter().enumerate() {
        if !is_blank(*byte) {
            return &bytes[i..];
        }
    }
    &[]
}

/// How many bytes the word that the bytes begin with has.
fn word_len(bytes: &[u8]) -> usize
    ensures within { result ≤ length bytes.now }
    ensures some { result ≡ 0 → EndsWord bytes.now }
    ensures word { AllByRecursion IsInWord (take result bytes.now) }
    ensures end { EndsWord (drop result bytes.now) }
{
    for (i, byte) in bytes.iter().enumerate() {
        if is_blank(*byte) || mark_of(*byte).is_some() {
            return i;
        }
    }
    bytes.len()
}

/// The next token and the bytes after it.
pub fn next_token(bytes: &[u8]) -> Option<(Token<'_>, &[u8])>
    ensures found { MatchOption result (tokens bytes.now ≡ [])
        (λ found. tokens bytes.now ≡ token_of found.0 ∷ tokens found.1.now) }
    ensures shorter { IfSome result (λ found. length found.1.now < length bytes.now) }
{
    let bytes = skip_blanks(bytes);
    let (first, rest) = bytes.split_first()?;
    if let Some(mark) = mark_of(*first) {
        return Some((mark, rest));
    }
    let (word, rest) = bytes.split_at(word_len(bytes));
    Some((Token::Word(word), rest))
}
