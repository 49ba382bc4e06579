//! Relations between two domains.
ghost use Rattle.std.specs.Prelude.{◌≡◌, ◌<◌, IfOk};
ghost use Rattle.prop_sets.specs.Promises.{SamePairsAreOne, IsMonotone, ImageIsNarrowest};
ghost use Rattle.prop_sets.specs.Promises.{CoimageIsNarrowest};
ghost use Rattle.prop_sets.specs.Relation.{Relation, IsWhole, no_pairs, with_pair, AddsPair};
ghost use Rattle.prop_sets.specs.Images.{image_of, coimage_of, IsInImage, IsInCoimage, HoldsJust};

use crate::side::Side;
use crate::words::{empty_words, set_bit, union_of};
use prop_lattice::{Elements, Info};
use std::alloc::{AllocError, Global};
use std::marker::Model;

/// A relation that is being made: pairs of an element of one domain and an element of another, or
/// of the same.
#[derive(Debug, Drop)]
pub struct Rows {
    from: Side,
    to: Side,
    rows: Vec<u64>,
    columns: Vec<u64>,
}

impl Model for Rows {
    ghost use Rattle.prop_sets.specs.Relation.{Relation};
    ghost use Rattle.prop_sets.specs.inner.Ties.{AreTied};

    ghost Value = { Relation };

    ghost view = { λ r. record { from = r.from; to = r.to; rows = r.rows.items } };

    ghost invariant = { λ r. AreTied r.from.size r.to.size r.rows.items r.columns.items };
}

impl Rows {
    /// A relation without pairs.
    pub fn new(alloc: Global, from: Side, to: Side) -> Result<Rows, AllocError>
        ensures { IfOk result (λ m. m ≡ no_pairs from to) }
    {
        let rows = empty_words(alloc, from.size)?;
        let columns = empty_words(alloc, to.size)?;
        Ok(Rows {
            from,
            to,
            rows,
            columns,
        })
    }

    /// The first domain.
    pub fn from(&self) -> Side
        ensures from { result ≡ self.now.from }
        ensures whole { IsWhole self.now }
    {
        self.from
    }

    /// The second domain.
    pub fn to(&self) -> Side
        ensures { result ≡ self.now.to }
    {
        self.to
    }

    /// Adds the pair of element `i` of the first domain and element `j` of the second. It takes no
    /// memory.
    pub fn set(&mut self, i: u8, j: u8)
        requires first { i < self.old.from.size }
        requires second { j < self.old.to.size }
        ensures value { self.new ≡ with_pair self.old i j }
        ensures pairs { AddsPair self.old self.new i j }
    {
        set_bit(&mut self.rows, i, j);
        set_bit(&mut self.columns, j, i);
    }

    /// All elements of the second domain that are paired with an element of `x`, a contradiction
    /// where there are none.
    pub fn image(&self, x: Elements) -> Info
        ensures value { result ≡ image_of self.now x }
        ensures pairs { HoldsJust (IsInImage self.now x) result }
    {
        Info::from_bits(union_of(&self.rows, x.bits()))
    }

    /// All elements of the first domain that are paired with an element of `y`, a contradiction
    /// where there are none.
    pub fn coimage(&self, y: Elements) -> Info
        ensures value { result ≡ coimage_of self.now y }
        ensures pairs { HoldsJust (IsInCoimage self.now y) result }
    {
        Info::from_bits(union_of(&self.columns, y.bits()))
    }

    /// A law: of more elements both images have more, so who knows more is answered more.
    pub fn images_are_monotone()
        ensures image { (m : Relation) → IsMonotone (image_of m) }
        ensures coimage { (m : Relation) → IsMonotone (coimage_of m) }
    {}

    /// A law: no information that holds all partners says more than the image.
    pub fn images_are_narrowest()
        ensures image { ImageIsNarrowest }
        ensures coimage { CoimageIsNarrowest }
    {}

    /// A law: two relations between the same domains with the same pairs are one.
    pub fn same_pairs_are_one()
        ensures { SamePairsAreOne }
    {}
}
