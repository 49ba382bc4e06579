//! Fresh cells, each found among those that there are, or made.
ghost use Rattle.std.specs.Prelude.{◌≡◌, ◌+◌, length, slice_get, IfSome, IsSomeAnd, IfOk, OnOk};
ghost use Rattle.std.specs.Prelude.{IsTrue};
ghost use Rattle.prop_meaning.specs.inner.Drafts.{known_at, IsSound, IsGood, Grown, Makes};
ghost use Rattle.prop_meaning.specs.inner.Steps.{made_by};

use crate::fault::Why;
use crate::known::Known;
use crate::steps::Step;
use crate::words::Words;

/// A fresh cell: of what it is made, and what is known of it.
#[derive(Clone, Copy)]
pub struct Made {
    pub step: Step,
    pub known: Known,
}

/// Whether the steps are the same.
fn is_same(step: Step, other: Step) -> bool
    ensures { IsTrue result → (step ≡ other) }
{
    step == other
}

/// Whether two fresh cells are made of the same, and of one kind.
fn is_alike(made: &Made, other: &Made) -> bool
    ensures { IsTrue result → (made.now.step ≡ other.now.step)
        × (made.now.known.kinded ≡ other.now.known.kinded) }
{
    is_same(made.step, other.step) && made.known.kinded == other.known.kinded
}

/// What is known of the cell at a place.
pub(crate) fn known_at<W: Words>(words: &W, made: &[Made], place: usize) -> Option<Known>
    ensures { result ≡ known_at (W.lexicon words.now) made.now place }
{
    let count = words.count();
    if place < count {
        return Some(words.known(place));
    }
    match made.get(place - count) {
        Some(made) => Some(made.known),
        None => None,
    }
}

/// The number of a fresh cell that is made of the same, and of the same kind.
fn find(made: &[Made], new: &Made) -> Option<usize>
    ensures { IfSome result (λ k. IsSomeAnd (slice_get made.now k)
        (λ m. (m.step ≡ new.now.step) × (m.known.kinded ≡ new.now.known.kinded))) }
{
    for (k, cell) in made.iter().enumerate() {
        if is_alike(cell, new) {
            return Some(k);
        }
    }
    None
}

/// The place of the cell that is made of this.
pub(crate) fn placed<W: Words>(words: &W, made: &mut Vec<Made>, new: Made) -> Result<usize, Why>
    requires sound { IsSound (W.lexicon words.now) made.old.items }
    requires good { IsGood (W.lexicon words.now) made.old.items
        ((W.lexicon words.now).count + length made.old.items) new }
    ensures grown { OnOk result (Grown (W.lexicon words.now) made.old.items made.new.items) }
    ensures makes { IfOk result
        (Makes (W.lexicon words.now) made.new.items new.known.kinded (made_by new.step)) }
{
    let count = words.count();
    if let Some(k) = find(made, &new) {
        return Ok(count + k);
    }
    let k = made.len();
    match made.push(new) {
        Ok(()) => Ok(count + k),
        Err(_) => Err(Why::Memory),
    }
}
