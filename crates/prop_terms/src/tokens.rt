//! What a piece of a text is.
ghost use Rattle.std.specs.Prelude.{◌≡◌, map, find, bytes_eq};
ghost use Rattle.prop_language.specs.Names.{looks_like_number};
ghost use Rattle.std.specs.Option.{option_map};
ghost use Rattle.prop_terms.specs.Tokens as words;
ghost use Rattle.prop_terms.specs.Tokens.{is_leaf, before_quote, unquoted, own_word};
ghost use Rattle.prop_terms.specs.inner.Parts.{token_said, entry_said};

use crate::operators::{Infix, Prefix};
use prop_language::natural_in;

/// The largest whole number that is written.
const MOST: u64 = 1_000_000_000_000_000_000;

/// Which brackets.
#[derive(Clone, Copy)]
pub enum Shape {
    Round,
    Curly,
}

/// What a term is written with. `Unknown` is what no term has.
#[derive(Clone, Copy)]
pub enum Token<'a> {
    Numeral(u64),
    Word(&'a [u8]),
    Before(Prefix),
    Between(Infix),
    Open(Shape),
    Close(Shape),
    Unknown,
}

/// The marks and words of expressions.
const VOCABULARY: [(&[u8], Token<'static>); 41] = [
    (b"(", Token::Open(Shape::Round)),
    (b")", Token::Close(Shape::Round)),
    (b"{", Token::Open(Shape::Curly)),
    (b"}", Token::Close(Shape::Curly)),
    (b",", Token::Between(Infix::Comma)),
    (b"+", Token::Between(Infix::Plus)),
    (b"-", Token::Between(Infix::Minus)),
    (b"*", Token::Between(Infix::Times)),
    (b"//", Token::Between(Infix::Over)),
    (b"%", Token::Between(Infix::Remainder)),
    (b"**", Token::Between(Infix::Power)),
    (b"==", Token::Between(Infix::Equal)),
    (b"!=", Token::Between(Infix::Unequal)),
    (b"<", Token::Between(Infix::Less)),
    (b"<=", Token::Between(Infix::AtMost)),
    (b">", Token::Between(Infix::Greater)),
    (b">=", Token::Between(Infix::AtLeast)),
    (b"..", Token::Between(Infix::UpTo)),
    (b";", Token::Between(Infix::Semicolon)),
    (b":", Token::Between(Infix::Colon)),
    (b"=", Token::Unknown),
    (b"!", Token::Unknown),
    (b"/", Token::Unknown),
    (b".", Token::Unknown),
    (b"and", Token::Between(Infix::And)),
    (b"or", Token::Between(Infix::Or)),
    (b"not", Token::Before(Prefix::Not)),
    (b"xor", Token::Between(Infix::Xor)),
    (b"implies", Token::Between(Infix::Implies)),
    (b"iff", Token::Between(Infix::Iff)),
    (b"in", Token::Between(Infix::In)),
    (b"if", Token::Before(Prefix::If)),
    (b"then", Token::Between(Infix::Then)),
    (b"else", Token::Between(Infix::Else)),
    (b"abs", Token::Before(Prefix::Abs)),
    (b"max", Token::Before(Prefix::Max)),
    (b"min", Token::Before(Prefix::Min)),
    (b"sum", Token::Before(Prefix::Sum)),
    (b"count", Token::Before(Prefix::Count)),
    (b"different", Token::Before(Prefix::Different)),
    (b"element", Token::Before(Prefix::Element)),
];

impl<'a> Token<'a> {
    /// Whether it is a number or a name.
    pub fn is_leaf(self) -> bool
        ensures { result ≡ is_leaf (token_said self.entry) }
    {
        matches!(self, Token::Numeral(_) | Token::Word(_))
    }
}

/// The first of these that is spelled so.
fn known<'a>(vocabulary: &[(&[u8], Token<'a>)], piece: &[u8]) -> Option<Token<'a>>
    ensures { option_map token_said result ≡ option_map (λ entry. entry.1)
        (find (λ entry. bytes_eq entry.0 piece.now) (map entry_said vocabulary.now)) }
{
    for (text, token) in vocabulary {
        if *text == piece {
            return Some(*token);
        }
    }
    None
}

/// What stands between quotes.
fn unquoted(piece: &[u8]) -> Option<&[u8]>
    ensures { option_map (λ word. word.now) result ≡ unquoted piece.now }
{
    let (first, rest) = piece.split_first()?;
    let (last, word) = rest.split_last()?;
    if *first != b'\'' {
        return None;
    }
    if *last == b'\'' { Some(word) } else { None }
}

/// Whether the piece begins as a number does.
fn looks_like_number(piece: &[u8]) -> bool
    ensures { result ≡ looks_like_number piece.now }
{
    matches!(piece.first(), Some(b'-' | b'0'..=b'9'))
}

/// A word that is not of expressions.
fn own_word(piece: &[u8]) -> Token<'_>
    ensures { token_said result ≡ own_word piece.now }
{
    if let Some(word) = unquoted(piece) {
        return Token::Word(word);
    }
    if !looks_like_number(piece) {
        return Token::Word(piece);
    }
    match natural_in(MOST, piece) {
        Some(number) => Token::Numeral(number),
        None => Token::Unknown,
    }
}

/// What a piece is.
pub fn token_of(piece: &[u8]) -> Token<'_>
    ensures { token_said result ≡ words.token_of piece.now }
{
    match known(&VOCABULARY, piece) {
        Some(token) => token,
        None => own_word(piece),
    }
}
