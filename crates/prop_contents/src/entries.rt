//! The entries of the cells, and which premises bear on which of them.
ghost use Rattle.std.specs.Prelude.{◌≡◌, ◌≢◌, ◌<◌, ◌≤◌, ◌+◌, ℕ, [], ◌∷◌, ◌++◌, length, map};
ghost use Rattle.std.specs.Prelude.{max, take, OnOk, OnErr, Contains, IsTrue};
ghost use Rattle.prop_numbers.specs.Sets.{set_of, is_at_most_one_of};
ghost use Rattle.prop_contents.specs.Contents.{beliefs, Entry, content_of};
ghost use Rattle.prop_contents.specs.Changes.{AddsAt, TrimsAt, not_on, StandsAt, entries_below};
ghost use Rattle.prop_contents.specs.Knowing.{ArePassed};

use crate::bearing::{agree_at, bear};
use crate::contents::{add_to, drop_from, is_shifted, trim_at};
use crate::dropping::drop_entries;
use crate::known::Known;
use prop_lattice::Info;
use prop_premises::{Premise, PremiseSet, Shift, Worldview};
use prop_tms::Tms;
use std::alloc::{AllocError, Global};
use std::marker::Model;

/// How many cells are a block.
const BLOCK: usize = 64;

/// How many cells are a region: as many blocks as a block has cells.
const REGION: usize = 4_096;

/// The entries of each cell, and for each block and each region of cells the premises on which some
/// entry of theirs may rest. Where two worldviews believe the same of these, they believe the same
/// of the cells. What an entry rests on stays there when the entry goes.
#[derive(Drop)]
pub struct Entries {
    cells: Vec<Tms<Info>>,
    blocks: Vec<PremiseSet>,
    regions: Vec<PremiseSet>,
}

impl Model for Entries {
    ghost use Rattle.std.specs.Prelude.{List};
    ghost use Rattle.prop_contents.specs.Contents.{Entry};
    ghost use Rattle.prop_contents.specs.inner.Bearing.{BearOn};

    ghost Value = { List (List Entry) };

    ghost view = { λ e. e.cells.items };

    ghost invariant = { λ e. BearOn 64 e.cells.items e.blocks.items
        × BearOn 4_096 e.cells.items e.regions.items };
}

impl Entries {
    /// Those of no cell. It takes no memory.
    pub fn new(alloc: Global) -> Entries
        ensures { result ≡ [] }
    {
        Entries {
            cells: Vec::new(alloc),
            blocks: Vec::new(alloc),
            regions: Vec::new(alloc),
        }
    }

    /// The entries of each cell.
    #[inline]
    pub fn each(&self) -> &[Tms<Info>]
        ensures { result.now ≡ self.now }
    {
        &self.cells
    }

    /// One more cell, without entries. After want of memory nothing has changed.
    pub fn push_cell(&mut self) -> Result<(), AllocError>
        ensures ok { OnOk result (self.new ≡ self.old ++ [] ∷ []) }
        ensures err { OnErr result (self.new ≡ self.old) }
    {
        let alloc = *self.cells.allocator();
        self.cells.push(Tms::new(alloc))?;
        Ok(())
    }

    /// Takes back the cells from a number on. It takes no memory.
    pub fn truncate(&mut self, count: usize)
        ensures { self.new ≡ take count self.old }
    {
        self.cells.truncate(count);
    }

    /// Adds an entry to a cell. After want of memory nothing has changed.
    pub fn add(&mut self, cell: usize, value: Info, support: PremiseSet) -> Result<(), AllocError>
        requires { cell < length self.old }
        ensures ok { OnOk result (AddsAt self.old self.new cell
            (record { value = value; support = support })) }
        ensures stands { OnOk result (StandsAt self.old self.new cell
            (record { value = value; support = support })) }
        ensures err { OnErr result (self.new ≡ self.old) }
    {
        bear(&mut self.regions, cell / REGION, &support)?;
        bear(&mut self.blocks, cell / BLOCK, &support)?;
        add_to(&mut self.cells, cell, value, support)?;
        Ok(())
    }

    /// Drops entries of a cell as `trim_at` does. It takes no memory.
    pub fn trim(&mut self, cell: usize, told: &PremiseSet, worldview: &Worldview)
        requires { cell < length self.old }
        ensures trims { TrimsAt (set_of worldview.now) (set_of told.now) self.old self.new cell }
        ensures kept { (e : Entry) → Contains (content_of self.old cell) e
            → IsTrue (is_at_most_one_of (set_of told.now) e.support)
            → Contains (content_of self.new cell) e }
    {
        trim_at(&mut self.cells, cell, told, worldview);
    }

    /// Drops the entries of a cell whose support holds a premise with this number or a larger one.
    pub fn drop_from(&mut self, cell: usize, premise: usize)
        requires { cell < length self.old }
        ensures { self.new ≡ entries_below premise self.old cell }
    {
        drop_from(&mut self.cells, cell, premise);
    }

    /// Drops the entries of each cell that rest on the premise. It takes no memory.
    pub fn purge(&mut self, premise: Premise)
        ensures { self.new ≡ map (λ entries. not_on premise entries) self.old }
    {
        drop_entries(&mut self.cells, premise);
    }

    /// How many cells from this one on are known to stay, as far as one look tells: those of the
    /// region or of the block that begins here, where the worldviews agree on what bears on it, and
    /// else this one. None where this one shifts. It takes no memory.
    fn staying(&self, cell: usize, shift: &Shift<'_>, known: &mut Known) -> usize
        requires cell { cell < length self.now }
        requires known { ArePassed cell (set_of shift.now.before.now) (set_of shift.now.after.now)
            self.now known.old }
        ensures few { result ≤ 4_096 }
        ensures same { (k : ℕ) → cell ≤ k → k < cell + result
            → beliefs (set_of shift.now.before.now) self.now k
            ≡ beliefs (set_of shift.now.after.now) self.now k }
        ensures shifted { result ≡ 0 → beliefs (set_of shift.now.before.now) self.now cell
            ≢ beliefs (set_of shift.now.after.now) self.now cell }
        ensures known { ArePassed (cell + max result 1) (set_of shift.now.before.now)
            (set_of shift.now.after.now) self.now known.new }
    {
        if cell % REGION == 0 && agree_at(&self.regions, cell / REGION, shift) {
            return REGION;
        }
        if cell % BLOCK == 0 && agree_at(&self.blocks, cell / BLOCK, shift) {
            return BLOCK;
        }
        if is_shifted(&self.cells, cell, shift, known) {
            return 0;
        }
        1
    }

    /// The first cell from this one on of which two worldviews believe different things, and the
    /// number of cells where there is none. What is known of the cells up to that one is what the
    /// second worldview believes. It takes no memory.
    pub fn next_shifted(&self, from: usize, shift: &Shift<'_>, known: &mut Known) -> usize
        requires from { from ≤ length self.now }
        requires known { ArePassed from (set_of shift.now.before.now) (set_of shift.now.after.now)
            self.now known.old }
        ensures range { (from ≤ result) × (result ≤ length self.now) }
        ensures passed { (k : ℕ) → from ≤ k → k < result
            → beliefs (set_of shift.now.before.now) self.now k
            ≡ beliefs (set_of shift.now.after.now) self.now k }
        ensures shifted { result < length self.now
            → beliefs (set_of shift.now.before.now) self.now result
            ≢ beliefs (set_of shift.now.after.now) self.now result }
        ensures known { ArePassed (result + 1) (set_of shift.now.before.now)
            (set_of shift.now.after.now) self.now known.new }
    {
        let mut cell = from;
        while cell < self.cells.len() {
            let stay = self.staying(cell, shift, known);
            if stay == 0 {
                return cell;
            }
            cell += stay;
        }
        self.cells.len()
    }
}
