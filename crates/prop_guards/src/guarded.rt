//! What may be known of a rule without a call.
ghost use Rattle.std.specs.Prelude.{◌≡◌, ℕ, ℤ, Bool, List, Option};
ghost use Rattle.prop_lattice.specs.declared.info.Info.{Info};
ghost use Rattle.prop_procedures.specs.declared.shape.Param.{Param};
ghost use Rattle.prop_guards.specs.Guards.{AreSilent, AreRepeated, AreRuledOut, IsOwn};

use prop_facts::Changes;
use prop_lattice::Info;
use prop_procedures::{Param, Rule};

/// Rules of whose calls something is known beforehand: at a glance, which is a few comparisons.
pub trait Guarded: Rule {
    /// It is seen at a glance that the answer to this parameter and these arguments is nothing.
    ghost is_silent: { Self → Param → List Info → Bool };

    /// It is seen at a glance that the answer is the argument at the rule's own place.
    ghost is_repeated: { Self → Param → List Info → Bool };

    /// The place of the input that is the output, where one is.
    ghost own_of: { Self → Option ℕ };

    /// The number that the argument at a place rules out of the output.
    ghost ruled_out: { Self → Param → List Info → ℕ → Option ℤ };

    /// Whether it is seen at a glance that a call with this parameter and these arguments, of which
    /// none is a contradiction, answers nothing.
    fn says_nothing(&self, param: &Param, args: &[Info]) -> bool
        ensures { result ≡ is_silent self.now param.now args.now };

    /// Whether it is seen at a glance that a call with this parameter and these arguments answers
    /// just the argument at the rule's own place, and so nothing new where the cell of that input
    /// is the output's.
    fn repeats(&self, param: &Param, args: &[Info]) -> bool
        ensures { result ≡ is_repeated self.now param.now args.now };

    /// The place of the input that is the output, where one is: its point is the output's in all
    /// points that belong together.
    fn own_place(&self) -> Option<usize>
        ensures { result ≡ own_of self.now };

    /// The number that the argument at this place rules out of the output, though it may lie
    /// between the ends that the answer leaves: where the rule knows one. It stays so whatever else
    /// is known, and a call shows it: with the argument at the rule's own place narrowed to the
    /// number, the answer leaves it out.
    fn rules_out(&self, param: &Param, args: &[Info], place: usize) -> Option<i64>
        ensures { result ≡ ruled_out self.now param.now args.now place };

    /// The changes of the input at this place, of so many, after which a call may say more. This is
    /// a hint: after changes of other kinds the answer says no more than the call before and the
    /// argument at the rule's own place say together. So where the cell of that input isn't the
    /// output's, all of its changes count.
    fn heeds(&self, place: usize, count: usize) -> Changes;

    /// The same, once of the input that is waited for (`waits_for`) this element alone is left, as
    /// a bit.
    fn heeds_under(&self, place: usize, count: usize, _element: u64) -> Changes {
        self.heeds(place, count)
    }

    /// The place of an input of which one value alone has to be left before a call says anything,
    /// where there is one. This is a hint.
    fn waits_for(&self) -> Option<usize>;

    /// Whether a call with so many inputs takes much longer than most, so that the others had
    /// better come first. This is a hint.
    fn is_dear(&self, count: usize) -> bool;

    ghost silent: { (rule : Self) → AreSilent (Self.value_of rule) (is_silent rule) };

    ghost repeated: { (rule : Self)
        → AreRepeated (Self.value_of rule) (own_of rule) (is_repeated rule) };

    ghost own: { (rule : Self) → IsOwn (Self.related rule) (own_of rule) };

    ghost barred: { (rule : Self)
        → AreRuledOut (Self.value_of rule) (Self.related rule) (own_of rule) (ruled_out rule) };
}
