//! Hulls, which hold the points of several informations, and informations without those points.
ghost use Rattle.std.specs.Prelude.{◌≡◌, ◌≤◌};
ghost use Rattle.prop_hall.specs.Hulls.{all_bits, hull_of_two, points_in, without_of};
ghost use Rattle.prop_hall.specs.Hulls.{first_without, last_without, is_between};

use prop_lattice::{Info, Kind, Span};

/// What both informations say: the smallest that holds the points of both.
pub(crate) fn hull(a: Info, b: Info) -> Info
    ensures { result ≡ hull_of_two a b }
{
    match (a, b) {
        (Info::Contradiction, known) | (known, Info::Contradiction) => known,
        (Info::Span(a), Info::Span(b)) => Info::between(a.lo().min(b.lo()), a.hi().max(b.hi())),
        (Info::Set(a), Info::Set(b)) => Info::from_bits(a.bits() | b.bits()),
        (Info::Sym(a), Info::Sym(b)) if a == b => Info::Sym(a),
        _ => Info::Nothing,
    }
}

/// How many points an information leaves, for nothing one more than for any span.
pub(crate) fn points_in(info: Info) -> u64
    ensures { result ≡ points_in info }
{
    info.rank(Kind::Span, 0)
}

/// The bits of all elements of a domain that has so many.
pub(crate) fn all_bits(size: u8) -> u64
    requires { size ≤ 64 }
    ensures { result ≡ all_bits size }
{
    if size < 64 { (1 << size) - 1 } else { u64::MAX }
}

/// Whether a number lies in the span.
fn is_between(span: Span, number: i64) -> bool
    ensures { result ≡ is_between span number }
{
    span.lo() <= number && number <= span.hi()
}

/// The first number of `y` outside of `hull`, past its end where there is none.
fn first_without(y: Span, hull: Span) -> i64
    ensures { result ≡ first_without y hull }
{
    if is_between(hull, y.lo()) {
        hull.hi() + 1
    } else {
        y.lo()
    }
}

/// The last number of `y` outside of `hull`, before its start where there is none.
fn last_without(y: Span, hull: Span) -> i64
    ensures { result ≡ last_without y hull }
{
    if is_between(hull, y.hi()) {
        hull.lo() - 1
    } else {
        y.hi()
    }
}

/// `y` without the points of `hull`, a contradiction where there are no others.
pub(crate) fn without(y: Info, hull: Info) -> Info
    ensures { result ≡ without_of y hull }
{
    match (y, hull) {
        (Info::Span(y), Info::Span(hull)) => {
            Info::between(first_without(y, hull), last_without(y, hull))
        }
        (Info::Set(y), Info::Set(hull)) => Info::from_bits(y.bits() & !hull.bits()),
        (Info::Sym(y), Info::Sym(hull)) if y == hull => Info::Contradiction,
        _ => y,
    }
}
