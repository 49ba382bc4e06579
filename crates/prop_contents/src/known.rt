//! What is believed of cells, where it is known.
ghost use Rattle.std.specs.Prelude.{◌≡◌, ◌-◌, ◌++◌, length, replicate, slice_set, [], Some, None};
ghost use Rattle.std.specs.Prelude.{IfSome, OnOk, OnErr};
ghost use Rattle.prop_lattice.specs.Order.{merge_of};
ghost use Rattle.prop_contents.specs.Knowing.{known_at};

use prop_lattice::{Info, Partial};
use std::alloc::{AllocError, Global};
use std::marker::Model;

/// What is believed of cells, where it is known: kept so that it needn't be worked out at each
/// call. Of a cell past the places that there are nothing is known.
#[derive(Drop)]
pub struct Known {
    beliefs: Vec<Option<Info>>,
}

impl Model for Known {
    ghost use Rattle.std.specs.Prelude.{List, Option};
    ghost use Rattle.prop_lattice.specs.declared.info.Info.{Info};

    ghost Value = { List (Option Info) };

    ghost view = { λ k. k.beliefs.items };
}

impl Known {
    /// Nothing is known, and there is room for nothing. It takes no memory.
    pub fn new(alloc: Global) -> Known
        ensures { result ≡ [] }
    {
        Known {
            beliefs: Vec::new(alloc),
        }
    }

    /// What is known of a cell, where it stands.
    #[inline]
    pub(crate) fn find(&self, cell: usize) -> Option<&Info>
        ensures some { IfSome result (λ info. known_at self.now cell ≡ Some info.now) }
        ensures none { result ≡ None → known_at self.now cell ≡ None }
    {
        match self.beliefs.get(cell) {
            Some(known) => known.as_ref(),
            None => None,
        }
    }

    /// What is known of a cell.
    #[inline]
    pub fn get(&self, cell: usize) -> Option<Info>
        ensures { result ≡ known_at self.now cell }
    {
        match self.beliefs.get(cell) {
            Some(known) => *known,
            None => None,
        }
    }

    /// This is known of a cell for which there is room, or nothing is.
    #[inline]
    fn set(&mut self, cell: usize, known: Option<Info>)
        ensures { self.new ≡ slice_set self.old cell known }
    {
        if cell < self.beliefs.len() {
            self.beliefs[cell] = known;
        }
    }

    /// The information is known of the cell, where there is room for it.
    #[inline]
    pub fn put(&mut self, cell: usize, info: Info)
        ensures { self.new ≡ slice_set self.old cell (Some info) }
    {
        self.set(cell, Some(info));
    }

    /// Nothing is known of the cell any more.
    #[inline]
    pub fn forget(&mut self, cell: usize)
        ensures { self.new ≡ slice_set self.old cell None }
    {
        self.set(cell, None);
    }

    /// The cell is believed to hold this too, which is merged with what is known of it. Where
    /// nothing is known, nothing changes.
    #[inline]
    pub fn merge(&mut self, cell: usize, info: Info)
        ensures known { IfSome (known_at self.old cell)
            (λ was. self.new ≡ slice_set self.old cell (Some (merge_of was info))) }
        ensures unknown { known_at self.old cell ≡ None → self.new ≡ self.old }
    {
        if let Some(was) = self.get(cell) {
            self.put(cell, was.merge(info));
        }
    }

    /// Nothing is known any more. The room stays, and no memory is taken.
    pub fn clear(&mut self)
        ensures { self.new ≡ replicate (length self.old) None }
    {
        self.beliefs.fill(None);
    }

    /// Makes room for the cells below this number, of which nothing more is known than before.
    /// After want of memory nothing has changed.
    pub fn room(&mut self, count: usize) -> Result<(), AllocError>
        ensures ok { OnOk result (self.new
            ≡ self.old ++ replicate (count - length self.old) None) }
        ensures err { OnErr result (self.new ≡ self.old) }
    {
        if self.beliefs.len() < count {
            self.beliefs.resize(count, None)?;
        }
        Ok(())
    }
}
