//! Cells of constants, and those that words name.
ghost use Rattle.std.specs.Prelude.{◌≡◌, ◌<◌, IfOk, OnOk};
ghost use Rattle.prop_lattice.specs.Points.{Element, Number};
ghost use Rattle.prop_terms.specs.Terms as terms;
ghost use Rattle.prop_meaning.specs.inner.Drafts.{IsElement, IsSound, Grown, Makes, Names};
ghost use Rattle.prop_meaning.specs.inner.Drafts.{Shows, number_kind};

use crate::draft::{Made, placed};
use crate::fault::Why;
use crate::known::Known;
use crate::making::{NUMBER, is_same_kind};
use crate::steps::Step;
use crate::words::Words;
use prop_lattice::{Kind, Span};
use prop_procedures::Kinded;

/// The cell of a number.
pub(crate) fn number<W: Words>(words: &W, made: &mut Vec<Made>, z: i64) -> Result<usize, Why>
    requires sound { IsSound (W.lexicon words.now) made.old.items }
    ensures grown { OnOk result (Grown (W.lexicon words.now) made.old.items made.new.items) }
    ensures makes { IfOk result
        (Makes (W.lexicon words.now) made.new.items number_kind (λ a. Number z)) }
{
    let Some(span) = Span::new(z, z) else {
        return Err(Why::OutOfRange);
    };
    let known = Known {
        kinded: NUMBER,
        span,
    };
    let step = Step::Number(z);
    placed(words, made, Made { step, known })
}

/// What is known of a constant of another kind.
fn constant(kinded: Kinded) -> Result<Known, Why>
    ensures { IfOk result (λ k. k.kinded ≡ kinded) }
{
    match Span::new(0, 0) {
        Some(span) => Ok(Known { kinded, span }),
        None => Err(Why::OutOfRange),
    }
}

/// The cell of an element of this kind.
pub(crate) fn element_at<W: Words>(
    words: &W,
    made: &mut Vec<Made>,
    kinded: Kinded,
    i: u8,
) -> Result<usize, Why>
    requires sound { IsSound (W.lexicon words.now) made.old.items }
    requires few { i < 64 }
    requires there { IsElement (W.lexicon words.now) kinded i }
    ensures grown { OnOk result (Grown (W.lexicon words.now) made.old.items made.new.items) }
    ensures makes { IfOk result
        (Makes (W.lexicon words.now) made.new.items kinded (λ a. Element i)) }
{
    let known = constant(kinded)?;
    let step = Step::Element(i);
    placed(words, made, Made { step, known })
}

/// The cell of an element that has this name.
fn element<W: Words>(
    words: &W,
    made: &mut Vec<Made>,
    kinded: Kinded,
    word: &[u8],
) -> Result<usize, Why>
    requires sound { IsSound (W.lexicon words.now) made.old.items }
    ensures grown { OnOk result (Grown (W.lexicon words.now) made.old.items made.new.items) }
    ensures names { IfOk result
        (Names (W.lexicon words.now) made.new.items kinded word.now) }
{
    let Kind::Set(domain) = kinded.kind else {
        return Err(Why::WrongKind);
    };
    let Some(i) = words.element(domain, word) else {
        return Err(Why::NotInDomain);
    };
    if i >= kinded.size || i >= 64 {
        return Err(Why::NotInDomain);
    }
    let known = constant(kinded)?;
    let step = Step::Element(i);
    placed(words, made, Made { step, known })
}

/// The cell of the symbol that has this name.
fn symbol<W: Words>(
    words: &W,
    made: &mut Vec<Made>,
    kinded: Kinded,
    word: &[u8],
) -> Result<usize, Why>
    requires sound { IsSound (W.lexicon words.now) made.old.items }
    ensures grown { OnOk result (Grown (W.lexicon words.now) made.old.items made.new.items) }
    ensures names { IfOk result
        (Names (W.lexicon words.now) made.new.items kinded word.now) }
{
    let Kind::Symbol = kinded.kind else {
        return Err(Why::WrongKind);
    };
    let Some(n) = words.symbol(word) else {
        return Err(Why::NotInDomain);
    };
    let known = constant(kinded)?;
    let step = Step::Symbol(n);
    placed(words, made, Made { step, known })
}

/// The cell of what a word is of this kind.
pub(crate) fn label<W: Words>(
    words: &W,
    made: &mut Vec<Made>,
    kinded: Kinded,
    word: &[u8],
) -> Result<usize, Why>
    requires sound { IsSound (W.lexicon words.now) made.old.items }
    ensures grown { OnOk result (Grown (W.lexicon words.now) made.old.items made.new.items) }
    ensures names { IfOk result
        (Names (W.lexicon words.now) made.new.items kinded word.now) }
{
    match kinded.kind {
        Kind::Set(_) => element(words, made, kinded, word),
        Kind::Symbol => symbol(words, made, kinded, word),
        Kind::Span => Err(Why::NoSuchCell),
    }
}

/// Whether the word is also one of the kind's own.
fn is_label<W: Words>(words: &W, kinded: Kinded, word: &[u8]) -> bool {
    match kinded.kind {
        Kind::Set(domain) => words.element(domain, word).is_some(),
        Kind::Symbol => words.symbol(word).is_some(),
        Kind::Span => false,
    }
}

/// The cell that a word names, or of what it is of this kind.
pub(crate) fn name<W: Words>(
    words: &W,
    made: &mut Vec<Made>,
    kinded: Kinded,
    word: &[u8],
) -> Result<usize, Why>
    requires sound { IsSound (W.lexicon words.now) made.old.items }
    ensures grown { OnOk result (Grown (W.lexicon words.now) made.old.items made.new.items) }
    ensures shows { IfOk result
        (Shows (W.lexicon words.now) made.new.items kinded (terms.Name word.now)) }
{
    let Some(place) = words.cell(word) else {
        return label(words, made, kinded, word);
    };
    if !is_same_kind(words.known(place).kinded, kinded) {
        return Err(Why::WrongKind);
    }
    if is_label(words, kinded, word) {
        return Err(Why::TwoReadings);
    }
    Ok(place)
}
