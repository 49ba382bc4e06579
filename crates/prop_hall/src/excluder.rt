//! The rules of excluding: their names, their forms and what they answer.
ghost use Rattle.std.specs.Prelude.{◌≡◌, ◌<◌, length};
ghost use Rattle.prop_hall.specs.Excluder.{FormOf, Related, in_order, ins_of, name_of, need_of};
ghost use Rattle.prop_hall.specs.Excluder.{among, beside, left_by, others_of, out_of, value_of};
ghost use Rattle.prop_hall.specs.laws.ExcluderLaws.{excluder_monotone, excluder_keeps_kind};
ghost use Rattle.prop_hall.specs.laws.ExcluderLaws.{excluder_sound};

use crate::excluding::exclude;
use crate::hulls::all_bits;
use prop_lattice::Info;
use prop_procedures::{Need, Param, Rule, Shape};
use prop_sets::Relation;

/// The rules by how many others there are: from y and the others to y, which differs from each of
/// them, as they do from each other. All places are of one kind, whichever that is.
///
/// With eight others there is no input left for y. That rule is for elements alone, since these are
/// few: it takes a relation, whose first domain says which elements y may be.
#[derive(Clone, Copy, Debug, PartialEq, Eq)]
pub enum Excluder {
    /// From y and one other.
    One,
    /// From y and two others.
    Two,
    /// From y and three others.
    Three,
    /// From y and four others.
    Four,
    /// From y and five others.
    Five,
    /// From y and six others.
    Six,
    /// From y and seven others, which with y are as many inputs as a procedure can have.
    Seven,
    /// From eight others, of the first domain of a relation.
    Eight,
}

/// The rules, each once, by how many others there are.
pub const EXCLUDERS: [Excluder; 8] = [
    Excluder::One,
    Excluder::Two,
    Excluder::Three,
    Excluder::Four,
    Excluder::Five,
    Excluder::Six,
    Excluder::Seven,
    Excluder::Eight,
];

/// The shapes of y and of as many others as can stand beside it.
static PLACES: [Shape; 8] = [Shape::Any(0); 8];

/// The shapes of others that leave no place for y.
static SIDES: [Shape; 8] = [Shape::From; 8];

/// What so many others tell of y, the first argument.
fn beside(many: usize, args: &[Info]) -> Info
    requires { many < 8 }
    ensures { result ≡ beside many args.now }
{
    match args {
        [y, others @ ..] if others.len() == many => exclude(*y, others),
        _ => Info::Nothing,
    }
}

/// What the others leave of the elements of the relation's first domain, nothing where it is all of
/// them.
fn left_by(relation: &Relation, others: &[Info]) -> Info
    requires { length others.now < 9 }
    ensures { result ≡ left_by relation.now others.now }
{
    let all = all_bits(relation.from().size);
    let left = exclude(Info::from_bits(all), others);
    match left {
        Info::Set(elements) => {
            if elements.bits() == all {
                Info::Nothing
            } else {
                left
            }
        }
        _ => left,
    }
}

/// What eight others tell of an element of their domain.
fn among(param: &Param, others: &[Info]) -> Info
    ensures { result ≡ among param.now others.now }
{
    match param {
        Param::Rows(relation) if others.len() == 8 => left_by(relation, others),
        _ => Info::Nothing,
    }
}

impl Excluder {
    /// The name that a command uses.
    pub fn name(self) -> &'static str
        ensures { result.now ≡ name_of self }
    {
        match self {
            Excluder::One => "excluder1",
            Excluder::Two => "excluder2",
            Excluder::Three => "excluder3",
            Excluder::Four => "excluder4",
            Excluder::Five => "excluder5",
            Excluder::Six => "excluder6",
            Excluder::Seven => "excluder7",
            Excluder::Eight => "excluder8",
        }
    }

    /// How many others there are.
    pub fn others(self) -> usize
        ensures value { result ≡ others_of self }
        ensures few { result < 9 }
    {
        match self {
            Excluder::One => 1,
            Excluder::Two => 2,
            Excluder::Three => 3,
            Excluder::Four => 4,
            Excluder::Five => 5,
            Excluder::Six => 6,
            Excluder::Seven => 7,
            Excluder::Eight => 8,
        }
    }

    /// The shapes of its inputs: y, and then the others, of which eight stand alone.
    pub fn ins(self) -> &'static [Shape]
        ensures { result.now ≡ ins_of self }
    {
        match self {
            Excluder::Eight => &SIDES,
            _ => &PLACES[..self.others() + 1],
        }
    }

    /// The shape of its output, which is y.
    pub fn out(self) -> Shape
        ensures { result ≡ out_of self }
    {
        match self {
            Excluder::Eight => Shape::From,
            _ => Shape::Any(0),
        }
    }

    /// The parameter that it needs: a relation beside eight others.
    pub fn need(self) -> Need
        ensures { result ≡ need_of self }
    {
        match self {
            Excluder::Eight => Need::Rows,
            _ => Need::Nothing,
        }
    }

    /// What the rule answers, `Info::Nothing` where the arguments are not as many as its inputs.
    pub fn run(self, param: &Param, args: &[Info]) -> Info
        ensures { result ≡ value_of self param.now args.now }
    {
        match self {
            Excluder::Eight => among(param, args),
            _ => beside(self.others(), args),
        }
    }

    /// `EXCLUDERS` has each rule once, in order.
    pub fn all_are_listed()
        ensures { EXCLUDERS ≡ in_order }
    {}
}

impl Rule for Excluder {
    ghost form = { FormOf };

    ghost value_of = { value_of };

    ghost related = { Related };

    fn has_form(&self, ins: &[Shape], out: Shape, need: Need) -> bool {
        ins == self.ins() && out == self.out() && need == self.need()
    }

    ghost monotone = { excluder_monotone };

    ghost keeps_kind = { excluder_keeps_kind };

    ghost sound = { excluder_sound };
}
