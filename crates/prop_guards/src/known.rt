//! What is seen at a glance of an information.
ghost use Rattle.std.specs.Prelude.{◌≡◌};
ghost use Rattle.std.specs.List.{list_any};
ghost use Rattle.prop_arith.specs.Comparing.{is_single};
ghost use Rattle.prop_arith.specs.inner.Compared.{is_just};
ghost use Rattle.prop_guards.specs.Known.{is_settled, number_of};
ghost use Rattle.prop_sets.specs.Truth.{is_nothing};

use prop_facts::Changes;
use prop_intervals::comparisons::{NO, YES};
use prop_lattice::Info;

/// The changes of a number's ends.
pub(crate) const ENDS: Changes = Changes {
    low: true,
    high: true,
    point: false,
    hole: false,
};

/// The change of a number's lower end.
pub(crate) const LOW: Changes = Changes {
    low: true,
    high: false,
    point: false,
    hole: false,
};

/// The change of a number's upper end.
pub(crate) const HIGH: Changes = Changes {
    low: false,
    high: true,
    point: false,
    hole: false,
};

/// The change to one value alone.
pub(crate) const POINT: Changes = Changes {
    low: false,
    high: false,
    point: true,
    hole: false,
};

/// Whether nothing is known.
pub(crate) fn is_nothing(info: Info) -> bool
    ensures { result ≡ is_nothing info }
{
    matches!(&info, Info::Nothing)
}

/// Whether of some argument nothing is known.
pub(crate) fn some_unknown(args: &[Info]) -> bool
    ensures { result ≡ list_any is_nothing args.now }
{
    args.iter().any(|info| is_nothing(*info))
}

/// Whether an information has just these bits, as `YES` where it is just `yes`.
pub(crate) fn is_just(info: Info, bits: u64) -> bool
    ensures { result ≡ is_just bits info }
{
    match info {
        Info::Set(elements) => elements.bits() == bits,
        _ => false,
    }
}

/// Whether a truth is just `yes` or just `no`.
pub(crate) fn is_settled(truth: Info) -> bool
    ensures { result ≡ is_settled truth }
{
    is_just(truth, YES) || is_just(truth, NO)
}

/// Whether an information leaves one point alone: one number, one element or a symbol.
pub(crate) fn is_single(info: Info) -> bool
    ensures { result ≡ is_single info }
{
    match info {
        Info::Span(span) => span.lo() == span.hi(),
        Info::Set(elements) => elements.bits().count_ones() == 1,
        Info::Sym(_) => true,
        Info::Nothing | Info::Contradiction => false,
    }
}

/// The number that an information leaves alone.
pub(crate) fn number_of(info: Info) -> Option<i64>
    ensures { result ≡ number_of info }
{
    match info {
        Info::Span(span) => (span.lo() == span.hi()).then_some(span.lo()),
        _ => None,
    }
}
