//! The functions of truth, on informations. Truth is the set kind over the domain 0: element 0 is
//! `yes`, element 1 is `no`.
ghost use Rattle.std.specs.Prelude.{◌≡◌, ◌↔◌, ◌⊎◌, ◌+◌, ◌*◌, ◌<◌, ◌||◌, cond, true, IsTrue};
ghost use Rattle.prop_sets.specs.inner.Words.{is_set};
ghost use Rattle.prop_sets.specs.Promises.{IsMonotoneInOne, IsMonotoneInTwo, IsSoundInOne};
ghost use Rattle.prop_sets.specs.Promises.{IsSoundInTwo};
ghost use Rattle.prop_sets.specs.Truth.{IsAnd, IsOr, IsNot, IsLeftByOne, IsLeftByTwo, LeavesJust};
ghost use Rattle.prop_sets.specs.Truth.{leaves, is_nothing, and_of, and_back_of, or_of};
ghost use Rattle.prop_sets.specs.inner.Truths.{told};
ghost use Rattle.prop_sets.specs.Truth.{or_back_of, not_of};

use prop_lattice::{Elements, Info};

/// Some of the two truths.
#[derive(Clone, Copy)]
struct Truths {
    yes: bool,
    no: bool,
}

/// Whether an element is in the set.
fn has(elements: Elements, element: u8) -> bool
    requires { element < 64 }
    ensures { result ≡ is_set elements.bits element }
{
    elements.bits() >> element & 1 == 1
}

/// The truths that an information leaves: nothing leaves both, and what is no set leaves neither.
fn truths_left(info: Info) -> Truths
    ensures yes { result.yes ≡ leaves info 0 }
    ensures no { result.no ≡ leaves info 1 }
{
    match info {
        Info::Nothing => Truths {
            yes: true,
            no: true,
        },
        Info::Set(elements) => Truths {
            yes: has(elements, 0),
            no: has(elements, 1),
        },
        Info::Span(_) | Info::Sym(_) | Info::Contradiction => Truths {
            yes: false,
            no: false,
        },
    }
}

/// Whether nothing is known.
fn is_unknown(info: Info) -> bool
    ensures { result ≡ is_nothing info }
{
    matches!(&info, Info::Nothing)
}

/// The truths as an information, a contradiction where there are none. Both of them say nothing
/// where an input is unknown.
fn told(truths: Truths, unknown: bool) -> Info
    ensures { result ≡ told unknown (cond truths.yes 1 0 + 2 * cond truths.no 1 0) }
{
    match (truths.yes, truths.no) {
        (true, true) if unknown => Info::Nothing,
        (true, true) => Info::from_bits(3),
        (true, false) => Info::from_bits(1),
        (false, true) => Info::from_bits(2),
        (false, false) => Info::from_bits(0),
    }
}

/// What `x` and `y` tell of `x and y`.
pub fn and3(x: Info, y: Info) -> Info
    ensures value { result ≡ and_of x y }
    ensures left { LeavesJust (IsLeftByTwo IsAnd x y) result }
{
    let (a, b) = (truths_left(x), truths_left(y));
    let truths = Truths {
        yes: a.yes & b.yes,
        no: a.no & (b.yes | b.no) | a.yes & b.no,
    };
    told(truths, is_unknown(x) | is_unknown(y))
}

/// What `z`, which is `x and y`, and `y` tell of `x`.
pub fn and_back(z: Info, y: Info) -> Info
    ensures value { result ≡ and_back_of z y }
    ensures left { LeavesJust (IsLeftByTwo (λ c b a. IsAnd a b c) z y) result }
{
    let (c, b) = (truths_left(z), truths_left(y));
    let truths = Truths {
        yes: c.yes & b.yes | c.no & b.no,
        no: c.no & (b.yes | b.no),
    };
    told(truths, is_unknown(z) | is_unknown(y))
}

/// What `x` and `y` tell of `x or y`.
pub fn or3(x: Info, y: Info) -> Info
    ensures value { result ≡ or_of x y }
    ensures left { LeavesJust (IsLeftByTwo IsOr x y) result }
{
    let (a, b) = (truths_left(x), truths_left(y));
    let truths = Truths {
        yes: a.yes & (b.yes | b.no) | a.no & b.yes,
        no: a.no & b.no,
    };
    told(truths, is_unknown(x) | is_unknown(y))
}

/// What `z`, which is `x or y`, and `y` tell of `x`.
pub fn or_back(z: Info, y: Info) -> Info
    ensures value { result ≡ or_back_of z y }
    ensures left { LeavesJust (IsLeftByTwo (λ c b a. IsOr a b c) z y) result }
{
    let (c, b) = (truths_left(z), truths_left(y));
    let truths = Truths {
        yes: c.yes & (b.yes | b.no),
        no: c.yes & b.yes | c.no & b.no,
    };
    told(truths, is_unknown(z) | is_unknown(y))
}

/// What `x` tells of `not x`.
pub fn not2(x: Info) -> Info
    ensures value { result ≡ not_of x }
    ensures left { LeavesJust (IsLeftByOne IsNot x) result }
{
    let a = truths_left(x);
    let truths = Truths {
        yes: a.no,
        no: a.yes,
    };
    told(truths, is_unknown(x))
}

/// A law: who knows more is answered more.
pub fn truths_are_monotone()
    ensures and { IsMonotoneInTwo and_of }
    ensures and_back { IsMonotoneInTwo and_back_of }
    ensures or { IsMonotoneInTwo or_of }
    ensures or_back { IsMonotoneInTwo or_back_of }
    ensures not { IsMonotoneInOne not_of }
{}

/// A law: each truth that belongs to truths of the arguments is in the answer.
pub fn truths_are_sound()
    ensures and { IsSoundInTwo IsAnd and_of }
    ensures and_back { IsSoundInTwo (λ z y x. IsAnd x y z) and_back_of }
    ensures or { IsSoundInTwo IsOr or_of }
    ensures or_back { IsSoundInTwo (λ z y x. IsOr x y z) or_back_of }
    ensures not { IsSoundInOne IsNot not_of }
{}
