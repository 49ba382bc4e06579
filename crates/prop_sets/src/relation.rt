//! Relations that are done, each held once however often it is used.
ghost use Rattle.std.specs.Prelude.{◌≡◌, IfOk};
ghost use Rattle.prop_sets.specs.Relation.{IsWhole};
ghost use Rattle.prop_sets.specs.Images.{image_of, coimage_of, IsInImage, IsInCoimage, HoldsJust};

use crate::rows::Rows;
use crate::side::Side;
use prop_lattice::{Elements, Info};
use std::alloc::{AllocError, Global};
use std::marker::Model;
use std::rc::Rc;

/// A relation to which no pair is added any more. It may have several owners, and its pairs stand
/// in memory once.
#[derive(Debug, Drop)]
pub struct Relation {
    rows: Rc<Rows>,
}

impl Model for Relation {
    ghost use Rattle.prop_sets.specs.Relation as relations;

    ghost Value = { relations.Relation };

    ghost view = { λ r. r.rows.value };
}

impl Relation {
    /// The relation that these rows are, with one owner.
    pub fn new(alloc: Global, rows: Rows) -> Result<Relation, AllocError>
        ensures { IfOk result (λ m. m ≡ rows) }
    {
        match Rc::new(alloc, rows) {
            Ok(rows) => Ok(Relation { rows }),
            Err(_) => Err(AllocError),
        }
    }

    /// The same relation, with one owner more. It takes no memory; an error is that of as many
    /// owners as can be counted.
    pub fn copy(&self, _alloc: Global) -> Result<Relation, AllocError>
        ensures { IfOk result (λ m. m ≡ self.now) }
    {
        let rows = self.rows.clone()?;
        Ok(Relation { rows })
    }

    /// The first domain.
    pub fn from(&self) -> Side
        ensures from { result ≡ self.now.from }
        ensures whole { IsWhole self.now }
    {
        self.rows.from()
    }

    /// The second domain.
    pub fn to(&self) -> Side
        ensures { result ≡ self.now.to }
    {
        self.rows.to()
    }

    /// All elements of the second domain that are paired with an element of `x`, a contradiction
    /// where there are none.
    pub fn image(&self, x: Elements) -> Info
        ensures value { result ≡ image_of self.now x }
        ensures pairs { HoldsJust (IsInImage self.now x) result }
    {
        self.rows.image(x)
    }

    /// All elements of the first domain that are paired with an element of `y`, a contradiction
    /// where there are none.
    pub fn coimage(&self, y: Elements) -> Info
        ensures value { result ≡ coimage_of self.now y }
        ensures pairs { HoldsJust (IsInCoimage self.now y) result }
    {
        self.rows.coimage(y)
    }
}
