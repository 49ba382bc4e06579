//! A rule that a host brings, which is none of the kit's.
ghost use Rattle.std.specs.Prelude.{◌≡◌};
ghost use Rattle.std.specs.Int.{int_max};
ghost use Rattle.prop_intervals.specs.Clip.{clip};
ghost use Rattle.prop_host_tests.specs.Host.{FormOf, value_of, Related};
ghost use Rattle.prop_host_tests.specs.laws.HostLaws.{host_monotone, host_keeps_kind, host_sound};

use prop_intervals::clipped;
use prop_lattice::{Info, Span};
use prop_procedures::{Need, Param, Rule, Shape};

/// The rules of the host.
#[derive(Clone, Copy, Debug, PartialEq, Eq)]
pub enum Host {
    /// The output is the larger of the inputs.
    Maxer,
}

/// The numbers that are the larger of a number of `a` and a number of `b`.
fn larger_of(a: Span, b: Span) -> Info
    ensures { result ≡ clip (int_max a.lo b.lo) (int_max a.hi b.hi) }
{
    clipped(
        i128::from(a.lo().max(b.lo())),
        i128::from(a.hi().max(b.hi())),
    )
}

impl Host {
    /// What the rule answers, `Info::Nothing` where the arguments are not of its inputs' kinds.
    pub fn run(self, param: &Param, args: &[Info]) -> Info
        ensures { result ≡ value_of self param.now args.now }
    {
        match (self, args) {
            (Host::Maxer, [x, y]) => match (*x, *y) {
                (Info::Span(a), Info::Span(b)) => larger_of(a, b),
                _ => Info::Nothing,
            },
            _ => Info::Nothing,
        }
    }
}

impl Rule for Host {
    ghost form = { FormOf };

    ghost value_of = { value_of };

    ghost related = { Related };

    fn has_form(&self, ins: &[Shape], out: Shape, need: Need) -> bool {
        match self {
            Host::Maxer => matches!(
                (ins, out, need),
                ([Shape::Span, Shape::Span], Shape::Span, Need::Nothing)
            ),
        }
    }

    ghost monotone = { host_monotone };

    ghost keeps_kind = { host_keeps_kind };

    ghost sound = { host_sound };
}
