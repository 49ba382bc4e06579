//! The rules: their forms and what they answer.
ghost use Rattle.std.specs.Prelude.{◌≡◌, ◌↔◌, IsTrue};
ghost use Rattle.std.specs.List.{list_all};
ghost use Rattle.prop_procedures.specs.declared.shape.Param.{Param};
ghost use Rattle.prop_many.specs.Many.{FormOf, HasInputs, Related, is_number, least_of};
ghost use Rattle.prop_many.specs.Many.{value_of};
ghost use Rattle.prop_many.specs.Exact.{EachIsExact};
ghost use Rattle.prop_many.specs.laws.ManyLaws.{many_monotone, many_keeps_kind, many_sound};

use crate::circuit::successor_around;
use crate::cumulative::start_beside;
use crate::differ::number_beside;
use crate::disjoint::start_apart;
use crate::pausing::{end_with_pauses, start_with_pauses};
use prop_lattice::Info;
use prop_procedures::{Need, Rule, Shape};

/// The rules of many numbers. A rule works in one direction: from its inputs to its output.
#[derive(Clone, Copy, Debug, PartialEq, Eq)]
pub enum Many {
    /// From a capacity, the start, length and demand of a task, and those of each other task, to
    /// its start: while it runs, the demands of those that run are no more than the capacity.
    Cumulative,
    /// From the start and length of a task, and those of each other task, to its start: at no time
    /// does it run beside another.
    Disjoint,
    /// From a number and each of the others to the number: they are all different.
    Differ,
    /// From the successor of a node, the node's number and the successors of all nodes to the
    /// successor: the nodes are one circuit.
    Circuit,
    /// From the start of a task, its days of work, and the first day and how many days of each
    /// pause, to its end: on the days of a pause nothing of it is done.
    Ending,
    /// From the start of a task, its end, its days of work and the pauses, to its start.
    Starting,
}

/// Whether a shape is that of numbers.
fn is_number(shape: Shape) -> bool
    ensures { result ≡ is_number shape }
{
    matches!(shape, Shape::Span)
}

/// Whether each shape is that of numbers.
fn are_numbers(shapes: &[Shape]) -> bool
    ensures { result ≡ list_all is_number shapes.now }
{
    shapes.iter().all(|shape| is_number(*shape))
}

impl Many {
    /// How many inputs the rule has at the least.
    fn least(self) -> usize
        ensures { result ≡ least_of self }
    {
        match self {
            Many::Cumulative => 4,
            Many::Disjoint | Many::Circuit | Many::Ending => 2,
            Many::Starting => 3,
            Many::Differ => 1,
        }
    }

    /// Whether the rule may have inputs of these shapes.
    fn takes(self, ins: &[Shape]) -> bool
        ensures { IsTrue result ↔ HasInputs self ins.now }
    {
        are_numbers(ins) && self.least() <= ins.len()
    }

    /// A law: of single numbers each rule answers those alone that belong to them.
    pub fn exact()
        ensures { EachIsExact }
    {}

    /// What the rule answers, `Info::Nothing` where the arguments are too few.
    pub fn run(self, args: &[Info]) -> Info
        ensures { (param : Param) → result ≡ value_of self param args.now }
    {
        match self {
            Many::Cumulative => start_beside(args),
            Many::Disjoint => start_apart(args),
            Many::Differ => number_beside(args),
            Many::Circuit => successor_around(args),
            Many::Ending => end_with_pauses(args),
            Many::Starting => start_with_pauses(args),
        }
    }
}

impl Rule for Many {
    ghost form = { FormOf };

    ghost value_of = { value_of };

    ghost related = { Related };

    fn has_form(&self, ins: &[Shape], out: Shape, need: Need) -> bool {
        self.takes(ins) && out == Shape::Span && need == Need::Nothing
    }

    ghost monotone = { many_monotone };

    ghost keeps_kind = { many_keeps_kind };

    ghost sound = { many_sound };
}
