//! What a value says at a cell.
ghost use Rattle.std.specs.Prelude.{◌≡◌, IfOk, IfErr, Some, None, Ok, Err};
ghost use Rattle.std.specs.Option.{option_map};
ghost use Rattle.prop_vocabulary.specs.Values.{halves, bounded_number, span_value, set_value};
ghost use Rattle.prop_vocabulary.specs.Values.{value_said};
ghost use Rattle.prop_vocabulary.specs.Said.{meant_of};
ghost use Rattle.prop_language.specs.Said.{words, value_of};

use prop_language::{Value, name, number_in};
use prop_lattice::span::B;
use prop_lattice::{Info, Kind, Refusal};
use prop_sets::Domain;

/// What a value says at a cell: an information, or of a symbol its name, whose number the caller
/// knows.
#[derive(Clone, Copy, PartialEq, Eq)]
pub enum Meant<'a> {
    Known(Info),
    Name(&'a str),
}

/// What stands before the first two dots in a row, and what behind them, if there are any.
fn halves(word: &[u8]) -> (&[u8], Option<&[u8]>)
    ensures { halves word.now ≡ (result.0.now, option_map (λ right. right.now) result.1) }
{
    for i in 1..word.len() {
        if word[i - 1] == b'.' && word[i] == b'.' {
            return (&word[..i - 1], Some(&word[i + 1..]));
        }
    }
    (word, None)
}

/// A number of the largest magnitude at most.
fn bounded_number(word: &[u8]) -> Result<i64, Refusal>
    ensures ok { IfOk result (λ number. bounded_number word.now ≡ Some number) }
    ensures err { IfErr result (λ refusal. (refusal ≡ Refusal.NotANumber)
        × (bounded_number word.now ≡ None)) }
{
    number_in(-B, B, word).ok_or(Refusal::NotANumber)
}

/// The numbers that a word leaves: `A` alone, or those from `A` to `B` in `A..B`.
fn read_span(word: &[u8]) -> Result<Info, Refusal>
    ensures { result ≡ span_value (halves word.now) }
{
    let (left, right) = halves(word);
    let low = bounded_number(left)?;
    let high = match right {
        Some(right) => bounded_number(right)?,
        None => low,
    };
    if high < low {
        return Err(Refusal::EmptyValue);
    }
    Ok(Info::between(low, high))
}

/// The set of the elements that the words name.
fn read_set(domain: &Domain, chosen: &[&[u8]]) -> Result<Info, Refusal>
    ensures { result ≡ set_value domain.now (words chosen.now) }
{
    if chosen.is_empty() {
        return Err(Refusal::EmptyValue);
    }
    let mut bits: u64 = 0;
    for word in chosen {
        let Some(element) = domain.index_of(word) else {
            return Err(Refusal::NotInTheDomain);
        };
        prove!(element < domain.size());
        bits |= 1 << element;
    }
    Ok(Info::from_bits(bits))
}

/// What a value says at a cell of this kind. `domain` is the one that a set is of, for a truth that
/// of `yes` and `no`; it counts for a set alone.
///
/// Refused are a value of another kind's form, and of the right form: at a span an end that is no
/// number of the largest magnitude at most and then ends that leave no number, at a set a word that
/// is no element and then braces without a word, at a symbol a word that is no name.
pub fn read_value<'a>(value: &Value<'a>, kind: Kind, domain: &Domain) -> Result<Meant<'a>, Refusal>
    ensures ok { IfOk result (λ meant.
        value_said kind domain.now (value_of value.now) ≡ Ok (meant_of meant)) }
    ensures err { IfErr result (λ refusal.
        value_said kind domain.now (value_of value.now) ≡ Err refusal) }
{
    match value {
        Value::Bare(word) => match kind {
            Kind::Span => Ok(Meant::Known(read_span(word)?)),
            Kind::Set(_) => Ok(Meant::Known(read_set(domain, &[*word])?)),
            Kind::Symbol => Ok(Meant::Name(name(word)?)),
        },
        Value::Braces(words) => match kind {
            Kind::Set(_) => Ok(Meant::Known(read_set(domain, words)?)),
            _ => Err(Refusal::WrongKind),
        },
    }
}
