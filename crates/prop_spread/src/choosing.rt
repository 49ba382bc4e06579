//! Which place is decided next, and how.

use crate::present::Present;
use prop_facts::Fact;
use prop_lattice::{Elements, Info, Span};
use prop_learned::weights::Weights;
use prop_trail::Trail;

/// How many numbers are left at the most where the first is tried.
const FEW: i64 = 1_000_000;

/// How many numbers are left at the most where single ones may be out between them.
const WITH_HOLES: u64 = 256;

/// As few values as are left of a place that is open.
const FEWEST: u64 = 2;

/// A place that is open, by how many values are left of it for what it weighs.
#[derive(Clone, Copy)]
struct Candidate {
    place: usize,
    values: u64,
    weight: u64,
    /// No place that weighs no more than this is before it, however few values are left there.
    least: u64,
}

impl Candidate {
    /// A place of which so many values are left, two at the least.
    fn new(place: usize, values: u64, weight: u64) -> Candidate {
        let least = weight.saturating_mul(FEWEST).checked_div(values);
        Candidate {
            place,
            values,
            weight,
            least: least.unwrap_or(0),
        }
    }

    /// Whether fewer values are left for the weight.
    fn is_before(&self, other: &Candidate) -> bool {
        u128::from(self.values) * u128::from(other.weight)
            < u128::from(other.values) * u128::from(self.weight)
    }
}

/// How many values are left of a place; none where there is no such place. Where single numbers may
/// be out the trail counts them.
fn values_left(trail: &Trail, present: &Present, place: usize) -> u64 {
    if place >= trail.places() {
        return 0;
    }
    let info = present.info(place);
    if let Info::Set(elements) = info {
        return elements.bits().count_ones() as u64;
    }
    if let Info::Span(span) = info {
        let count = span.count();
        if count > WITH_HOLES {
            return count;
        }
    }
    trail.values(place)
}

/// The place where it is open.
fn open_place(
    trail: &Trail,
    present: &Present,
    place: usize,
    weights: &Weights,
) -> Option<Candidate> {
    let values = values_left(trail, present, place);
    if values < 2 || values == u64::MAX {
        return None;
    }
    Some(Candidate::new(place, values, weights.of(place)))
}

/// Whether a place of this weight may be before the best one.
fn is_in_reach(best: Option<Candidate>, weight: u64) -> bool {
    match best {
        Some(found) => weight > found.least,
        None => true,
    }
}

/// The one of which less is left for what it weighs; the first where both are alike.
fn better(best: Option<Candidate>, other: Option<Candidate>) -> Option<Candidate> {
    match (best, other) {
        (Some(one), Some(two)) if !two.is_before(&one) => Some(one),
        (one, None) => one,
        (_, two) => two,
    }
}

/// Of these places one that is open: of which least is left for what it weighs.
fn best_named(
    trail: &Trail,
    present: &Present,
    named: &[usize],
    weights: &Weights,
) -> Option<Candidate> {
    let mut best = None;
    for place in named {
        if present.is_open(*place) {
            best = better(best, open_place(trail, present, *place, weights));
        }
    }
    best
}

/// Of these places one that is open: of which least is left for what it weighs.
pub(crate) fn pick_named(
    trail: &Trail,
    present: &Present,
    named: &[usize],
    weights: &Weights,
) -> Option<usize> {
    match best_named(trail, present, named, weights) {
        Some(found) => Some(found.place),
        None => None,
    }
}

/// Of all places one that is open: of which least is left for what it weighs. Of several the first
/// of the named ones is taken.
pub(crate) fn pick(
    trail: &Trail,
    present: &Present,
    named: &[usize],
    weights: &Weights,
) -> Option<usize> {
    let mut best = best_named(trail, present, named, weights);
    for word in 0..present.words() {
        let mut left = present.open_among(word);
        for _ in 0..left.count_ones() {
            let place = word
                .saturating_mul(64)
                .saturating_add(left.trailing_zeros() as usize);
            // (most places are passed over by their weight, before their values are counted)
            if is_in_reach(best, weights.of(place)) {
                best = better(best, open_place(trail, present, place, weights));
            }
            left &= left.wrapping_sub(1);
        }
    }
    match best {
        Some(found) => Some(found.place),
        None => None,
    }
}

/// What is supposed of a place before anything else.
#[derive(Clone, Copy, Debug, PartialEq, Eq)]
pub enum First {
    /// Its least value.
    Least,
    /// Its greatest number, or its first element.
    Greatest,
    /// Its least number, or the element that it had when last all was decided.
    Kept,
    /// Its least number, or the element that it was decided to be last, since the last restart.
    Decided,
    /// The value that it had when last all was decided.
    Again,
}

/// That a number is no more than one that it had, or no less where it is no more anyway; none where
/// it can't be that one any longer.
fn again(span: Span, kept: Info) -> Option<Fact> {
    let Info::Span(before) = kept else {
        return None;
    };
    let number = before.lo();
    if number != before.hi() || number < span.lo() || span.hi() < number {
        return None;
    }
    if number == span.hi() {
        return Some(Fact::AtLeast(number));
    }
    Some(Fact::AtMost(number))
}

/// What is supposed first of a place, of which this was kept; where very many numbers are left it
/// is the lower half.
pub(crate) fn first_try(info: Info, kept: Info, first: First) -> Option<Fact> {
    match info {
        Info::Span(span) => {
            let (low, high) = (span.lo(), span.hi());
            if first == First::Greatest {
                return Some(Fact::AtLeast(high));
            }
            if first == First::Again {
                if let Some(fact) = again(span, kept) {
                    return Some(fact);
                }
            }
            let room = high.saturating_sub(low);
            if room > FEW {
                return Some(Fact::AtMost(low.saturating_add(room / 2)));
            }
            Some(Fact::AtMost(low))
        }
        Info::Set(elements) => {
            let is_kept = matches!(first, First::Kept | First::Decided | First::Again);
            let kept = if is_kept { kept } else { info };
            let element = first_element(elements, kept)?;
            Some(Fact::Among(element))
        }
        _ => None,
    }
}

/// Of these elements the first that was kept too, or the first at all where none was.
fn first_element(elements: Elements, kept: Info) -> Option<Elements> {
    let mut bits = elements.bits();
    if let Info::Set(before) = kept {
        let again = bits & before.bits();
        if again != 0 {
            bits = again;
        }
    }
    Elements::new(bits & bits.wrapping_neg())
}
