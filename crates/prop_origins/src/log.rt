//! The parts that were made so far, the latest first.
ghost use Rattle.std.specs.Prelude.{◌≡◌, ◌<◌, [], ◌∷◌, ℕ, List, All, map, length, IfOk, OnOk};
ghost use Rattle.std.specs.Prelude.{OnErr, slice_index_or};
ghost use Rattle.std.specs.List.{list_any};
ghost use Rattle.prop_lattice.specs.Order.{Below};
ghost use Rattle.prop_numbers.specs.Sets.{set_of, IsSame};
ghost use Rattle.prop_origins.specs.Parts.{made, rests_on};
ghost use Rattle.prop_origins.specs.inner.Logs.{IsPartWithin, UnitesAt};

use crate::part::Part;
use prop_lattice::{Info, Partial};
use prop_premises::PremiseSet;
use smallvec::SmallVec;
use std::alloc::{AllocError, Global};
use std::collections::VecDeque;
use std::marker::Model;

/// Parts, the latest first, and what they say of each cell, with the premises on which they say it.
#[derive(Drop)]
pub(crate) struct Log {
    known: Vec<Info>,
    resting: Vec<PremiseSet>,
    parts: VecDeque<Part>,
}

impl Model for Log {
    ghost use Rattle.std.specs.Prelude.{length};
    ghost use Rattle.prop_origins.specs.inner.Logs.{Logged, IsLogged};

    ghost Value = { Logged };

    ghost view = { λ l. record { cells = length l.known.items; parts = l.parts.items } };

    ghost invariant = { λ l. IsLogged l.known.items l.resting.items l.parts.items };
}

/// So many sets of no premises.
fn no_premises(alloc: Global, count: usize) -> Result<Vec<PremiseSet>, AllocError>
    ensures count { IfOk result (λ sets. length sets.items ≡ count) }
    ensures none { IfOk result (λ sets. (k : ℕ) → slice_index_or sets.items k [] ≡ []) }
{
    let mut sets = Vec::new(alloc);
    for _ in 0..count {
        sets.push(PremiseSet::empty(alloc))?;
    }
    Ok(sets)
}

/// The set at this place has these premises too. After want of memory each set is as before.
fn unite_at(sets: &mut Vec<PremiseSet>, place: usize, more: &PremiseSet) -> Result<(), AllocError>
    requires { place < length sets.old.items }
    ensures count { length sets.new.items ≡ length sets.old.items }
    ensures ok { OnOk result (UnitesAt sets.old.items sets.new.items place more.now) }
    ensures err { OnErr result ((k : ℕ)
        → slice_index_or sets.new.items k [] ≡ slice_index_or sets.old.items k []) }
{
    sets[place].unite(more)?;
    Ok(())
}

/// So many times nothing.
fn nothing_known(alloc: Global, count: usize) -> Result<Vec<Info>, AllocError>
    ensures count { IfOk result (λ known. length known.items ≡ count) }
    ensures none { IfOk result (λ known. (k : ℕ)
        → slice_index_or known.items k Info.Nothing ≡ Info.Nothing) }
{
    let mut known = Vec::new(alloc);
    known.resize(count, Info::Nothing)?;
    Ok(known)
}

impl Log {
    /// No parts, for so many cells.
    pub(crate) fn new(alloc: Global, cells: usize) -> Result<Log, AllocError>
        ensures { IfOk result (λ log. log ≡ record { cells = cells; parts = [] }) }
    {
        let known = nothing_known(alloc, cells)?;
        let resting = no_premises(alloc, cells)?;
        Ok(Log {
            known,
            resting,
            parts: VecDeque::new(alloc),
        })
    }

    /// What the parts say of a cell.
    pub(crate) fn made(&self, cell: usize) -> Info
        requires { cell < self.now.cells }
        ensures { result ≡ made self.now.parts cell }
    {
        self.known[cell]
    }

    /// What the parts say of these cells. Up to 4 of them take no memory.
    pub(crate) fn args(
        &self,
        alloc: Global,
        cells: &[usize],
    ) -> Result<SmallVec<Info, 4>, AllocError>
        requires { All (λ cell. cell < self.now.cells) cells.now }
        ensures { IfOk result (λ args. args.items ≡ map (made self.now.parts) cells.now) }
    {
        let mut args = SmallVec::new(alloc);
        for cell in cells {
            args.push(self.made(*cell))?;
        }
        Ok(args)
    }

    /// The premises on which the parts of these cells rest.
    pub(crate) fn support(&self, alloc: Global, cells: &[usize]) -> Result<PremiseSet, AllocError>
        requires { All (λ cell. cell < self.now.cells) cells.now }
        ensures { IfOk result (λ support. IsSame (set_of support)
            (λ q. list_any (λ cell. rests_on self.now.parts cell q) cells.now)) }
    {
        let mut support = PremiseSet::empty(alloc);
        for cell in cells {
            support.unite(&self.resting[*cell])?;
        }
        Ok(support)
    }

    /// One more part, before the others. After want of memory nothing has changed.
    pub(crate) fn push(&mut self, part: Part) -> Result<(), AllocError>
        requires { IsPartWithin self.old.cells part }
        ensures ok { OnOk result (self.new
            ≡ record self.old { parts = part ∷ self.old.parts }) }
        ensures err { OnErr result (self.new ≡ self.old) }
    {
        let cell = part.cell();
        if let Err(error) = self.parts.reserve(1) {
            drop(part);
            return Err(error);
        }
        if let Err(error) = unite_at(&mut self.resting, cell, part.support()) {
            drop(part);
            return Err(error);
        }
        self.known[cell] = self.known[cell].merge(part.value());
        self.parts.push_front_reserved(part);
        Ok(())
    }

    /// The parts alone.
    pub(crate) fn into_parts(self) -> VecDeque<Part>
        ensures parts { result.items ≡ self.parts }
        ensures within { All (IsPartWithin self.cells) result.items }
    {
        self.parts
    }
}
