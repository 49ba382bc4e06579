//! What was said of a place and can't be.

use crate::bits::{BITS, among, mask};
use crate::reason::Reason;
use prop_facts::Fact;
use prop_lattice::{B, Elements, Info, Span};
use prop_trail::Source;

/// What was said of a place and can't be, with what is believed of it.
#[derive(Clone, Copy, Debug, PartialEq, Eq)]
pub struct Clash {
    /// The place.
    pub place: usize,
    /// What was said; nothing where a number was ruled out.
    pub said: Info,
    /// The number that was ruled out, where it is that.
    pub out: Option<i64>,
    /// Who said it.
    pub by: Source,
}

/// Two facts about one place.
#[derive(Clone, Copy)]
pub(crate) struct Pair {
    pub(crate) one: Fact,
    pub(crate) other: Fact,
}

impl Clash {
    /// The reason that it gives for what can't be, where this is believed of its place, and so many
    /// entries are on the trail.
    pub(crate) fn reason(&self, was: Info, before: usize) -> Reason {
        Reason {
            was,
            said: self.said,
            out: self.out,
            by: self.by,
            before,
        }
    }

    /// Two facts that can't both be so: one that what was said says, and one that what is believed
    /// says. `size` is how many elements the domain of the place has. None where none are seen.
    pub(crate) fn facts(&self, was: Info, size: u8) -> Option<Pair> {
        if let Some(n) = self.out {
            return both(Some(Fact::Other(n)), Some(Fact::Is(n)));
        }
        match (was, self.said) {
            (Info::Span(was), Info::Span(said)) => apart(was, said),
            (Info::Span(_), Info::Contradiction) => {
                both(Some(Fact::AtMost(-B - 1)), Some(Fact::AtLeast(-B)))
            }
            (Info::Set(_), Info::Contradiction) if size < BITS => both(
                among(1 << 63),
                among(mask(size)),
            ),
            (Info::Set(was), _) => but(was, size),
            (Info::Sym(was), Info::Sym(said)) => both(
                Some(Fact::Same(said)),
                Some(Fact::Same(was)),
            ),
            (Info::Sym(was), Info::Contradiction) => both(
                Some(Fact::Same(was ^ 1)),
                Some(Fact::Same(was)),
            ),
            // (of a symbol alone nothing may be known)
            (Info::Nothing, Info::Contradiction) => both(Some(Fact::Same(1)), Some(Fact::Same(0))),
            _ => None,
        }
    }
}

fn both(one: Option<Fact>, other: Option<Fact>) -> Option<Pair> {
    Some(Pair {
        one: one?,
        other: other?,
    })
}

/// That a number lies where the second span does, and that it lies where the first one does. Where
/// they meet, all that they share was ruled out: then that it lies above, and that it doesn't.
fn apart(was: Span, said: Span) -> Option<Pair> {
    if said.hi() < was.lo() {
        let below = was.lo().checked_sub(1)?;
        return both(Some(Fact::AtMost(below)), Some(Fact::AtLeast(was.lo())));
    }
    let high = was.hi().min(said.hi());
    let above = high.checked_add(1)?;
    both(Some(Fact::AtLeast(above)), Some(Fact::AtMost(high)))
}

/// That it is none of these elements, and that it is one.
fn but(these: Elements, size: u8) -> Option<Pair> {
    both(among(!these.bits() & mask(size)), among(these.bits()))
}
