//! Cells of whether two elements are a pair of a relation.
//!
//! A pair supports each of its elements: whatever `x` is, `y` is paired with that, and the other
//! way round. That is what is made of the cells, since where it is stated it leaves to each cell
//! just the elements that are paired with one that is left to the other.
ghost use Rattle.std.specs.Prelude.{◌≡◌, ◌<◌, ◌≤◌, ◌==◌, IfOk, OnOk, IsTrue};
ghost use Rattle.std.specs.Int.{bit_at};
ghost use Rattle.prop_terms.specs.declared.operators.Infix.TheVariants.{Comma, In};
ghost use Rattle.prop_meaning.specs.Words.{are_paired};
ghost use Rattle.prop_meaning.specs.inner.Drafts.{Has, IsSound, Grown, Makes, truth_kind};
ghost use Rattle.prop_meaning.specs.inner.Relating.{HasLink, HasRelation, all_supported};
ghost use Rattle.prop_meaning.specs.inner.Relating.{any_partner, are_joined, first_side};
ghost use Rattle.prop_meaning.specs.inner.Relating.{related_point, second_side, side_kind};
ghost use Rattle.prop_meaning.specs.inner.Relating.{supported};

use crate::constants::element_at;
use crate::draft::Made;
use crate::expanding::bit;
use crate::fault::Why;
use crate::making::{TRUTH, one, two};
use crate::steps::{Pair, Single};
use crate::words::Words;
use prop_lattice::{Elements, Info, Kind};
use prop_procedures::Kinded;
use prop_sets::{Relation, Side};
use prop_terms::Infix;

/// Whether the operators are those of a pair that is in a relation.
pub(crate) fn is_pair_in(op: Infix, comma: Infix) -> bool
    ensures { IsTrue result → (op ≡ In) × (comma ≡ Comma) }
{
    matches!((op, comma), (Infix::In, Infix::Comma))
}

/// The kind of the elements of one side of a relation.
pub(crate) fn side_kind(side: Side) -> Kinded
    ensures { result ≡ side_kind side }
{
    Kinded {
        kind: Kind::Set(side.domain),
        size: side.size,
    }
}

/// Whether the bit is set.
fn is_set(bits: u64, i: u8) -> bool
    requires { i < 64 }
    ensures { result ≡ (bit_at bits i == 1) }
{
    bits >> i & 1 == 1
}

/// Whether elements of the two domains are a pair.
fn are_paired(relation: &Relation, i: u8, j: u8) -> bool
    requires first { i < relation.now.from.size }
    requires second { j < relation.now.to.size }
    ensures { result ≡ are_paired relation.now i j }
{
    let Some(single) = Elements::new(bit(i)) else {
        unreachable!()
    };
    match relation.image(single) {
        Info::Set(partners) => is_set(partners.bits(), j),
        _ => false,
    }
}

/// A relation between the elements that two cells show, as it stands or turned round.
#[derive(Clone, Copy)]
pub(crate) struct Link<'r> {
    relation: &'r Relation,
    /// Whether `x` is of its second domain, and `y` of its first.
    turned: bool,
    x: usize,
    y: usize,
}

impl Link<'_> {
    ghost use Rattle.std.specs.Prelude.{◌≡◌, ◌<◌};
    ghost use Rattle.prop_meaning.specs.inner.Relating.{are_joined, first_side, second_side};

    /// The side of which `x` is.
    fn first(self) -> Side
        ensures { result ≡ first_side self.entry }
    {
        if self.turned {
            self.relation.to()
        } else {
            self.relation.from()
        }
    }

    /// The side of which `y` is.
    fn second(self) -> Side
        ensures { result ≡ second_side self.entry }
    {
        if self.turned {
            self.relation.from()
        } else {
            self.relation.to()
        }
    }

    /// Whether elements of the two sides are a pair.
    fn joins(self, i: u8, j: u8) -> bool
        requires first { i < (first_side self).size }
        requires second { j < (second_side self).size }
        ensures { result ≡ are_joined self.entry i j }
    {
        if self.turned {
            are_paired(self.relation, j, i)
        } else {
            are_paired(self.relation, i, j)
        }
    }
}

/// An element of one side, and the cell of whether `x` is another one.
#[derive(Clone, Copy)]
pub(crate) struct Row {
    element: u8,
    other: usize,
}

/// The cell of whether `x` is another element than the row's, or `y` is one of the first so many
/// elements and paired with it.
fn or_partner<W: Words>(
    words: &W,
    made: &mut Vec<Made>,
    link: Link<'_>,
    row: Row,
    count: u8,
) -> Result<usize, Why>
    requires sound { IsSound (W.lexicon words.now) made.old.items }
    requires link { HasLink (W.lexicon words.now) made.old.items link }
    requires row { row.element < (first_side link).size }
    requires truth { Has (W.lexicon words.now) made.old.items row.other truth_kind }
    requires few { count ≤ (second_side link).size }
    ensures grown { OnOk result (Grown (W.lexicon words.now) made.old.items made.new.items) }
    ensures makes { IfOk result (Makes (W.lexicon words.now) made.new.items truth_kind
        (λ a. any_partner (are_joined link.entry row.element) count (a row.other)
        (a link.entry.y))) }
{
    if count == 0 {
        return Ok(row.other);
    }
    let j = count - 1;
    let before = or_partner(words, made, link, row, j)?;
    if !link.joins(row.element, j) {
        return Ok(before);
    }
    let partner = element_at(words, made, side_kind(link.second()), j)?;
    let same = two(words, made, Pair::Same, link.y, partner)?;
    two(words, made, Pair::Or, before, same)
}

/// The cell of whether `x` is another element than `i`, or `y` is paired with that.
fn supported<W: Words>(words: &W, made: &mut Vec<Made>, link: Link<'_>, i: u8) -> Result<usize, Why>
    requires sound { IsSound (W.lexicon words.now) made.old.items }
    requires link { HasLink (W.lexicon words.now) made.old.items link }
    requires row { i < (first_side link).size }
    ensures grown { OnOk result (Grown (W.lexicon words.now) made.old.items made.new.items) }
    ensures makes { IfOk result (Makes (W.lexicon words.now) made.new.items truth_kind
        (λ a. supported link.entry i (a link.entry.x) (a link.entry.y))) }
{
    let element = element_at(words, made, side_kind(link.first()), i)?;
    let same = two(words, made, Pair::Same, link.x, element)?;
    let other = one(words, made, Single::Not, same)?;
    let row = Row { element: i, other };
    or_partner(words, made, link, row, link.second().size)
}

/// The cell of whether the truth at a place holds, and `y` is paired with whichever of the first so
/// many elements `x` is.
fn and_supported<W: Words>(
    words: &W,
    made: &mut Vec<Made>,
    link: Link<'_>,
    start: usize,
    count: u8,
) -> Result<usize, Why>
    requires sound { IsSound (W.lexicon words.now) made.old.items }
    requires link { HasLink (W.lexicon words.now) made.old.items link }
    requires truth { Has (W.lexicon words.now) made.old.items start truth_kind }
    requires few { count ≤ (first_side link).size }
    ensures grown { OnOk result (Grown (W.lexicon words.now) made.old.items made.new.items) }
    ensures makes { IfOk result (Makes (W.lexicon words.now) made.new.items truth_kind
        (λ a. all_supported link.entry count (a start) (a link.entry.x) (a link.entry.y))) }
{
    if count == 0 {
        return Ok(start);
    }
    let before = and_supported(words, made, link, start, count - 1)?;
    let more = supported(words, made, link, count - 1)?;
    two(words, made, Pair::And, before, more)
}

/// The cell of whether the elements that two cells show are a pair of a relation.
pub(crate) fn related<W: Words>(
    words: &W,
    made: &mut Vec<Made>,
    relation: &Relation,
    x: usize,
    y: usize,
) -> Result<usize, Why>
    requires sound { IsSound (W.lexicon words.now) made.old.items }
    requires known { HasRelation (W.lexicon words.now) relation.now }
    requires first { Has (W.lexicon words.now) made.old.items x (side_kind relation.now.from) }
    requires second { Has (W.lexicon words.now) made.old.items y (side_kind relation.now.to) }
    ensures grown { OnOk result (Grown (W.lexicon words.now) made.old.items made.new.items) }
    ensures makes { IfOk result (Makes (W.lexicon words.now) made.new.items truth_kind
        (λ a. related_point relation.now (a x) (a y))) }
{
    let forth = Link {
        relation,
        turned: false,
        x,
        y,
    };
    let back = Link {
        relation,
        turned: true,
        x: y,
        y: x,
    };
    let yes = element_at(words, made, TRUTH, 0)?;
    let before = and_supported(words, made, forth, yes, relation.from().size)?;
    and_supported(words, made, back, before, relation.to().size)
}
