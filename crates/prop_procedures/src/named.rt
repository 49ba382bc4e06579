//! Rules of which each has a name and one form, so that a program can make procedures of a list.
ghost use Rattle.std.specs.Prelude.{◌≡◌, List};
ghost use Rattle.prop_lattice.specs.declared.info.Info.{Info};
ghost use Rattle.prop_procedures.specs.Both.{either_of};
ghost use Rattle.prop_procedures.specs.Forms.{Form, HasFewInputs};
ghost use Rattle.prop_procedures.specs.laws.Both.{either_few, either_formed};

use crate::both::Both;
use crate::rule::Rule;
use crate::shape::{Need, Param, Shape};
use prop_lattice::Info;

/// Rules with a name and one form each, which answer calls by themselves.
pub trait Named: Rule {
    /// The name, the shapes of the inputs and of the output, and the parameter that is needed.
    ghost form_of: { Self → Form };

    /// The name that a command uses.
    fn name(&self) -> &'static str
        ensures { result.now ≡ (form_of self.now).name };

    /// The shapes of its inputs.
    fn ins(&self) -> &'static [Shape]
        ensures { result.now ≡ (form_of self.now).ins };

    /// The shape of its output.
    fn out(&self) -> Shape
        ensures { result ≡ (form_of self.now).out };

    /// The parameter that it needs.
    fn need(&self) -> Need
        ensures { result ≡ (form_of self.now).need };

    /// What the rule answers to a parameter and arguments.
    fn run(&self, param: &Param, args: &[Info]) -> Info
        ensures { result ≡ Self.value_of self.now param.now args.now };

    ghost few: { (rule : Self) → HasFewInputs (form_of rule) };

    ghost formed: { (rule : Self)
        → Self.form rule (form_of rule).ins (form_of rule).out (form_of rule).need };
}

impl<A: Named, B: Named> Named for Both<A, B> {
    ghost form_of = { either_of A.form_of B.form_of };

    fn name(&self) -> &'static str {
        match self {
            Both::One(rule) => rule.name(),
            Both::Two(rule) => rule.name(),
        }
    }

    fn ins(&self) -> &'static [Shape] {
        match self {
            Both::One(rule) => rule.ins(),
            Both::Two(rule) => rule.ins(),
        }
    }

    fn out(&self) -> Shape {
        match self {
            Both::One(rule) => rule.out(),
            Both::Two(rule) => rule.out(),
        }
    }

    fn need(&self) -> Need {
        match self {
            Both::One(rule) => rule.need(),
            Both::Two(rule) => rule.need(),
        }
    }

    fn run(&self, param: &Param, args: &[Info]) -> Info {
        match self {
            Both::One(rule) => rule.run(param, args),
            Both::Two(rule) => rule.run(param, args),
        }
    }

    ghost few = { either_few A.form_of B.form_of A.few B.few };

    ghost formed = { either_formed A.form_of B.form_of A.form B.form A.formed B.formed };
}
