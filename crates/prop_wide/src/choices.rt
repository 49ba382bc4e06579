//! One of two values as a truth says, and back to the truth.
ghost use Rattle.std.specs.Prelude.{◌≡◌, not};
ghost use Rattle.prop_arith.specs.inner.Compared.{is_just};
ghost use Rattle.prop_arith.specs.inner.Compared.{comparer_of};
ghost use Rattle.prop_intervals.specs.Comparisons.{no_bits};
ghost use Rattle.prop_wide.specs.Choices.{choose_of, decide_of, agree};

use crate::hulls::hull;
use crate::truths::{may_be_no, may_be_yes, told};
use prop_arith::comparer;
use prop_intervals::comparisons::NO;
use prop_lattice::Info;

/// What is known of what is `a` where `t` is `yes` and `b` where it is `no`.
pub fn chooser(t: Info, a: Info, b: Info) -> Info
    ensures { result ≡ choose_of t a b }
{
    let first = if may_be_yes(t) {
        a
    } else {
        Info::Contradiction
    };
    let second = if may_be_no(t) { b } else { Info::Contradiction };
    hull(first, second)
}

/// Whether a truth is just `no`.
fn is_no(info: Info) -> bool
    ensures { result ≡ is_just no_bits info }
{
    match info {
        Info::Set(truth) => truth.bits() == NO,
        _ => false,
    }
}

/// Whether two informations are not known to be of different values.
fn agree(x: Info, y: Info) -> bool
    ensures { result ≡ agree x y }
{
    !is_no(comparer(x, y))
}

/// What is known of the truth `t` where `o` is `a` if it is `yes` and `b` if it is `no`.
pub fn decider(a: Info, b: Info, o: Info) -> Info
    ensures { result ≡ decide_of a b o }
{
    told(agree(a, o), agree(b, o))
}
