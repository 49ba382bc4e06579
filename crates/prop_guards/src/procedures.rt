//! What may be known of a stored procedure without a call, by its rule.
ghost use Rattle.std.specs.Prelude.{◌≡◌, IsTrue, IfSome};
ghost use Rattle.prop_guards.specs.Guards.{IsArgument, IsOwn, IsRuledOut};
ghost use Rattle.prop_lattice.specs.declared.info.Info.TheVariants.{Nothing};
ghost use Rattle.prop_procedures.specs.Rules.{AreClear};

use crate::guarded::Guarded;
use prop_lattice::Info;
use prop_procedures::{Param, Procedure};

/// Whether it is seen at a glance that a call of the procedure answers nothing.
pub fn says_nothing<R: Guarded + Drop>(
    procedure: &Procedure<R>,
    param: &Param,
    args: &[Info],
) -> bool
    ensures told { result ≡ R.is_silent procedure.now.rule param.now args.now }
    ensures nothing { AreClear args.now → IsTrue result
        → R.value_of procedure.now.rule param.now args.now ≡ Nothing }
{
    procedure.rule().says_nothing(param, args)
}

/// Whether it is seen at a glance that a call of the procedure answers just the argument at its own
/// place.
pub fn repeats<R: Guarded + Drop>(procedure: &Procedure<R>, param: &Param, args: &[Info]) -> bool
    ensures told { result ≡ R.is_repeated procedure.now.rule param.now args.now }
    ensures argument { IsTrue result → IsArgument args.now (R.own_of procedure.now.rule)
        (R.value_of procedure.now.rule param.now args.now) }
{
    procedure.rule().repeats(param, args)
}

/// The place of the procedure's input that is its output, where one is.
pub fn own_place<R: Guarded + Drop>(procedure: &Procedure<R>) -> Option<usize>
    ensures told { result ≡ R.own_of procedure.now.rule }
    ensures own { IsOwn (R.related procedure.now.rule) result }
{
    procedure.rule().own_place()
}

/// The number that the argument at this place rules out of the output of a call, where the rule
/// knows one.
pub fn rules_out<R: Guarded + Drop>(
    procedure: &Procedure<R>,
    param: &Param,
    args: &[Info],
    place: usize,
) -> Option<i64>
    ensures told { result ≡ R.ruled_out procedure.now.rule param.now args.now place }
    ensures ruled_out { IfSome result (IsRuledOut (R.value_of procedure.now.rule)
        (R.related procedure.now.rule) (R.own_of procedure.now.rule) param.now args.now) }
{
    procedure.rule().rules_out(param, args, place)
}
