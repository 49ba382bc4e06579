//! The rules of the kit: their names, their forms and what they answer.
ghost use Rattle.std.specs.Prelude.{◌≡◌, ◌∷◌, []};
ghost use Rattle.prop_arith.specs.Kit.{FormOf, form_of, in_order};
ghost use Rattle.prop_arith.specs.Points.{Related};
ghost use Rattle.prop_arith.specs.Values.{value_of};
ghost use Rattle.prop_arith.specs.laws.KitLaws.{kit_monotone, kit_keeps_kind, kit_sound};
ghost use Rattle.prop_arith.specs.laws.KitLaws.{kit_few, kit_formed};
ghost use Rattle.prop_arith.specs.Narrowest.{AddIsNarrowest, SubIsNarrowest, MulIsNarrowest};
ghost use Rattle.prop_arith.specs.Narrowest.{SquareIsNarrowest, RootIsNarrowest, ImageIsNarrowest};
ghost use Rattle.prop_arith.specs.Narrowest.{CoimageIsNarrowest};

use crate::comparing::{above, below, comparer, lesser, parter};
use crate::functions::{adder, copier, divider, multiplier, rooter, squarer, subtracter};
use crate::linking::{coimager, imager};
use crate::logic::{conjoin_back, conjoiner, disjoin_back, disjoiner, inverter, passer};
use prop_lattice::Info;
use prop_procedures::{Named, Need, Param, Rule, Shape};

/// The rules that come with the program. A rule works in one direction: from its inputs to its
/// output.
#[derive(Clone, Copy, Debug, PartialEq, Eq)]
pub enum Kit {
    /// From x and y to z, where z = x + y.
    Add,
    /// From z and x to y, where z = x + y.
    Sub,
    /// From x and y to z, where z is x * y in units of one over the scale, rounded up or down.
    Mul,
    /// From z and y to x, where z is x * y in units of one over the scale, rounded up or down.
    Div,
    /// From x to y, where y = x * x.
    Square,
    /// From y, and what is known of x already, to x, where y = x * x.
    Root,
    /// From x and y to the truth t of x < y.
    Less,
    /// From t and y to x, where t is the truth of x < y.
    Below,
    /// From t and x to y, where t is the truth of x < y.
    Above,
    /// From x to y, where y = x, in any kind.
    Copy,
    /// From x and y to the truth t of x = y, in any kind.
    Alike,
    /// From t, x and y to y, which is another than x where t is `no`, in any kind.
    Apart,
    /// From t and x to y, where y = x if t is `yes`, in any kind.
    Switch,
    /// From x to y, where y is not x.
    Not,
    /// From x and y to z, where z is x and y.
    And,
    /// From z and y to x, where z is x and y.
    AndBack,
    /// From x and y to z, where z is x or y.
    Or,
    /// From z and y to x, where z is x or y.
    OrBack,
    /// From x to y, where a relation has the pair of x and y.
    Image,
    /// From y to x, where a relation has the pair of x and y.
    Coimage,
}

/// The rules of the kit, each once, in the order in which a program makes their procedures.
pub const KITS: [Kit; 20] = [
    Kit::Add,
    Kit::Sub,
    Kit::Mul,
    Kit::Div,
    Kit::Square,
    Kit::Root,
    Kit::Less,
    Kit::Below,
    Kit::Above,
    Kit::Copy,
    Kit::Alike,
    Kit::Apart,
    Kit::Switch,
    Kit::Not,
    Kit::And,
    Kit::AndBack,
    Kit::Or,
    Kit::OrBack,
    Kit::Image,
    Kit::Coimage,
];

impl Kit {
    /// What the rule answers to one argument.
    fn of_one(self, param: &Param, x: Info) -> Info
        ensures { result ≡ value_of self param.now (x ∷ []) }
    {
        match self {
            Kit::Square => squarer(x),
            Kit::Copy => copier(x),
            Kit::Not => inverter(x),
            Kit::Image => match param {
                Param::Rows(relation) => imager(relation, x),
                _ => Info::Nothing,
            },
            Kit::Coimage => match param {
                Param::Rows(relation) => coimager(relation, x),
                _ => Info::Nothing,
            },
            _ => Info::Nothing,
        }
    }

    /// What the rule answers to two arguments.
    fn of_two(self, param: &Param, first: Info, second: Info) -> Info
        ensures { result ≡ value_of self param.now (first ∷ second ∷ []) }
    {
        match self {
            Kit::Add => adder(first, second),
            Kit::Sub => subtracter(first, second),
            Kit::Mul => match param {
                Param::Scale(k) => multiplier(first, second, *k),
                _ => Info::Nothing,
            },
            Kit::Div => match param {
                Param::Scale(k) => divider(first, second, *k),
                _ => Info::Nothing,
            },
            Kit::Root => rooter(first, second),
            Kit::Less => lesser(first, second),
            Kit::Below => below(first, second),
            Kit::Above => above(first, second),
            Kit::Alike => comparer(first, second),
            Kit::Switch => passer(first, second),
            Kit::And => conjoiner(first, second),
            Kit::AndBack => conjoin_back(first, second),
            Kit::Or => disjoiner(first, second),
            Kit::OrBack => disjoin_back(first, second),
            _ => Info::Nothing,
        }
    }

    /// What the rule answers to three arguments.
    fn of_three(self, first: Info, second: Info, third: Info) -> Info
        ensures { (param : Param) → result ≡ value_of self param (first ∷ second ∷ third ∷ []) }
    {
        match self {
            Kit::Apart => parter(first, second, third),
            _ => Info::Nothing,
        }
    }

    /// `KITS` has each rule once, in order.
    pub fn all_are_listed()
        ensures { KITS ≡ in_order }
    {}

    /// Where nothing has to be cut off, what these rules answer to spans is the narrowest
    /// information that holds each point that belongs to points of those. For `Kit::Root`, whose
    /// answers lie in range, that is so always, also where nothing is known of the root; and so it
    /// is for what goes along a relation, from sets.
    pub fn narrowest_where_in_range()
        ensures add { AddIsNarrowest }
        ensures sub { SubIsNarrowest }
        ensures mul { MulIsNarrowest }
        ensures square { SquareIsNarrowest }
        ensures root { RootIsNarrowest }
        ensures image { ImageIsNarrowest }
        ensures coimage { CoimageIsNarrowest }
    {}
}

impl Rule for Kit {
    ghost form = { FormOf };

    ghost value_of = { value_of };

    ghost related = { Related };

    fn has_form(&self, ins: &[Shape], out: Shape, need: Need) -> bool {
        ins == self.ins() && out == self.out() && need == self.need()
    }

    ghost monotone = { kit_monotone };

    ghost keeps_kind = { kit_keeps_kind };

    ghost sound = { kit_sound };
}

impl Named for Kit {
    ghost form_of = { form_of };

    fn name(&self) -> &'static str {
        match self {
            Kit::Add => "adder",
            Kit::Sub => "subtracter",
            Kit::Mul => "multiplier",
            Kit::Div => "divider",
            Kit::Square => "squarer",
            Kit::Root => "rooter",
            Kit::Less => "lesser",
            Kit::Below => "below",
            Kit::Above => "above",
            Kit::Copy => "copier",
            Kit::Alike => "comparer",
            Kit::Apart => "parter",
            Kit::Switch => "passer",
            Kit::Not => "inverter",
            Kit::And => "conjoiner",
            Kit::AndBack => "conjoin_back",
            Kit::Or => "disjoiner",
            Kit::OrBack => "disjoin_back",
            Kit::Image => "imager",
            Kit::Coimage => "coimager",
        }
    }

    fn ins(&self) -> &'static [Shape] {
        match self {
            Kit::Add | Kit::Sub | Kit::Mul | Kit::Div | Kit::Root | Kit::Less => {
                &[Shape::Span, Shape::Span]
            }
            Kit::Square => &[Shape::Span],
            Kit::Below | Kit::Above => &[Shape::Truth, Shape::Span],
            Kit::Copy => &[Shape::Any(0)],
            Kit::Alike => &[Shape::Any(0), Shape::Any(0)],
            Kit::Apart => &[Shape::Truth, Shape::Any(0), Shape::Any(0)],
            Kit::Switch => &[Shape::Truth, Shape::Any(0)],
            Kit::Not => &[Shape::Truth],
            Kit::And | Kit::AndBack | Kit::Or | Kit::OrBack => &[Shape::Truth, Shape::Truth],
            Kit::Image => &[Shape::From],
            Kit::Coimage => &[Shape::To],
        }
    }

    fn out(&self) -> Shape {
        match self {
            Kit::Less | Kit::Alike | Kit::Not => Shape::Truth,
            Kit::And | Kit::AndBack | Kit::Or | Kit::OrBack => Shape::Truth,
            Kit::Copy | Kit::Apart | Kit::Switch => Shape::Any(0),
            Kit::Image => Shape::To,
            Kit::Coimage => Shape::From,
            _ => Shape::Span,
        }
    }

    fn need(&self) -> Need {
        match self {
            Kit::Mul | Kit::Div => Need::Scale,
            Kit::Image | Kit::Coimage => Need::Rows,
            _ => Need::Nothing,
        }
    }

    fn run(&self, param: &Param, args: &[Info]) -> Info {
        match args {
            [x] => self.of_one(param, *x),
            [first, second] => self.of_two(param, *first, *second),
            [first, second, third] => self.of_three(*first, *second, *third),
            _ => Info::Nothing,
        }
    }

    ghost few = { kit_few };

    ghost formed = { kit_formed };
}
