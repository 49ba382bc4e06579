//! A nogood that is kept, and which of its literals are watched.
ghost use Rattle.std.specs.Prelude.{◌≡◌, ◌≢◌, ◌<◌, ℕ, IfSome, IsTrue, None, Some, length};
ghost use Rattle.std.specs.Prelude.{slice_get};
ghost use Rattle.prop_facts.specs.declared.fact.Literal.{Literal as LiteralOf};
ghost use Rattle.prop_refuting.specs.Nogoods.{Nogood as NogoodOf};
ghost use Rattle.prop_trail.specs.Sayings.{Says};
ghost use Rattle.prop_learned.specs.Stores.{LeavesOne};
ghost use Rattle.prop_learned.specs.inner.Slots.{IfDenies};

use crate::reading::{is_barred, is_so};
use prop_facts::Literal;
use prop_refuting::Nogood;
use prop_trail::Trail;

/// Two literals of a nogood, by their numbers.
#[derive(Clone, Copy)]
pub(crate) struct Watched {
    pub(crate) first: usize,
    pub(crate) second: usize,
}

/// What comes of a nogood that was looked at.
#[derive(Clone, Copy)]
pub(crate) enum Turn {
    /// It isn't watched at the place.
    Leaves,
    /// Nothing.
    Silent,
    /// All its literals but this one are so.
    Denies(Literal),
    /// It is to be watched at these two: at the first, `beside`, as before, and at the second,
    /// `to`, from now on.
    Moves {
        watched: Watched,
        to: Literal,
        beside: Literal,
    },
}

/// Room for a nogood.
#[derive(Drop)]
pub(crate) struct Slot {
    pub(crate) nogood: Option<Nogood>,
    pub(crate) watched: Option<Watched>,
    /// It is let go only by name, and never for its length.
    pub(crate) stays: bool,
}

/// The literals with these numbers, where both are of the nogood and differ.
pub(crate) fn watched_of(nogood: &Nogood, watched: (usize, usize)) -> Option<Watched> {
    let (first, second) = watched;
    let count = nogood.literals().len();
    if first == second || first >= count || second >= count {
        return None;
    }
    Some(Watched { first, second })
}

/// Whether the literal with this number is at the place.
fn is_at(literals: &[Literal], number: usize, place: usize) -> bool {
    match literals.get(number) {
        Some(literal) => literal.place == place,
        None => false,
    }
}

/// Whether the literal with this number is so.
fn is_so_at(trail: &Trail, literals: &[Literal], number: usize) -> bool
    ensures { IsTrue result
        → (x : LiteralOf) → slice_get literals.now number ≡ Some x → Says trail.now x }
{
    match literals.get(number) {
        Some(literal) => is_so(trail, *literal),
        None => false,
    }
}

/// The number of a literal that isn't so, other than these two.
fn open_but(trail: &Trail, literals: &[Literal], watched: Watched) -> Option<usize>
    ensures within { IfSome result (λ number. number < length literals.now) }
    ensures none { result ≡ None → (k : ℕ) (x : LiteralOf) → k ≢ watched.first → k ≢ watched.second
        → slice_get literals.now k ≡ Some x → Says trail.now x }
{
    for number in 0..literals.len() {
        if number != watched.first && number != watched.second && !is_so(trail, literals[number]) {
            return Some(number);
        }
    }
    None
}

/// The same two, with one as the second that is at the place and so.
fn turned(trail: &Trail, literals: &[Literal], watched: Watched, place: usize) -> Option<Watched>
    ensures { IfSome result (λ w. (x : LiteralOf) → slice_get literals.now w.second ≡ Some x
        → Says trail.now x) }
{
    let Watched { first, second } = watched;
    if is_at(literals, second, place) && is_so_at(trail, literals, second) {
        Some(watched)
    } else if is_at(literals, first, place) && is_so_at(trail, literals, first) {
        Some(Watched {
            first: second,
            second: first,
        })
    } else {
        None
    }
}

/// What comes of these literals where the second that is watched is so.
fn turn_of(trail: &Trail, literals: &[Literal], watched: Watched) -> Turn
    requires { (x : LiteralOf) → slice_get literals.now watched.second ≡ Some x → Says trail.now x }
    ensures { IfDenies (LeavesOne trail.now literals.now) result }
{
    let Some(first) = literals.get(watched.first) else {
        return Turn::Silent;
    };
    if is_barred(trail, *first) {
        return Turn::Silent;
    }
    let Some(open) = open_but(trail, literals, watched) else {
        return Turn::Denies(*first);
    };
    Turn::Moves {
        watched: Watched {
            first: watched.first,
            second: open,
        },
        to: literals[open],
        beside: *first,
    }
}

impl Slot {
    /// No nogood.
    pub(crate) fn empty() -> Slot
        ensures { result.nogood ≡ None }
    {
        Slot {
            nogood: None,
            watched: None,
            stays: false,
        }
    }

    /// What comes of its nogood where something was said of the place.
    pub(crate) fn turn(&self, trail: &Trail, place: usize) -> Turn
        ensures { IfDenies (λ x. (g : NogoodOf) × (self.now.nogood ≡ Some g)
            × LeavesOne trail.now g.literals x) result }
    {
        let Some(nogood) = &self.nogood else {
            return Turn::Leaves;
        };
        let Some(watched) = self.watched else {
            return Turn::Leaves;
        };
        let literals = nogood.literals();
        if !is_at(literals, watched.first, place) && !is_at(literals, watched.second, place) {
            return Turn::Leaves;
        }
        match turned(trail, literals, watched, place) {
            Some(watched) => turn_of(trail, literals, watched),
            None => Turn::Silent,
        }
    }

    /// The literals of its nogood that are watched.
    pub(crate) fn watched_literals(&self) -> Option<(Literal, Literal)> {
        let nogood = self.nogood.as_ref()?;
        let watched = self.watched?;
        let literals = nogood.literals();
        let first = literals.get(watched.first)?;
        let second = literals.get(watched.second)?;
        Some((*first, *second))
    }

    /// How many literals its nogood has, where it has one that needn't stay.
    pub(crate) fn length(&self) -> Option<usize> {
        if self.stays {
            return None;
        }
        let nogood = self.nogood.as_ref()?;
        Some(nogood.literals().len())
    }
}
