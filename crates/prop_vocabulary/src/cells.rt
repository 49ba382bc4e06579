//! The names of cells. A cell may have none.
ghost use Rattle.std.specs.Prelude.{◌≡◌, ◌∷◌, ◌<◌, ◌==◌, [], ℕ, length, None, Some};
ghost use Rattle.std.specs.Prelude.{OnOk, OnErr, IfSome, Contains, position};
ghost use Rattle.std.specs.Prelude.{slice_index_or, false, take, ◌-◌, ◌++◌};
ghost use Rattle.prop_vocabulary.specs.Cells.{no_cell_names, cell_named, name_at, HasFirsts};
ghost use Rattle.prop_vocabulary.specs.Cells.{with_cell_name, without_last_cell_name};

use crate::names::Names;
use std::alloc::{AllocError, Global};
use std::marker::Model;

/// The names of cells, each with the number of its cell.
#[derive(Drop)]
pub struct CellNames {
    names: Names,
    /// By name: its cell.
    cells: Vec<usize>,
    /// By cell: the number of its first name.
    firsts: Vec<Option<usize>>,
}

impl Model for CellNames {
    ghost use Rattle.std.specs.Prelude.{◌≡◌, length};
    ghost use Rattle.prop_vocabulary.specs.Cells.{HasFirsts};
    ghost use Rattle.prop_vocabulary.specs.Cells as named;

    ghost Value = { named.CellNames };

    ghost view = { λ c. record { names = c.names; cells = c.cells.items } };

    ghost invariant = { λ c. (length c.cells.items ≡ length c.names)
        × HasFirsts c.firsts.items c.cells.items };
}

/// Makes room for what is said of this cell, of which nothing is said yet.
#[tactic(auto, using(crate::proofs::Places::blank_last))]
fn make_room(firsts: &mut Vec<Option<usize>>, cell: usize) -> Result<(), AllocError>
    ensures there { OnOk result (cell < length firsts.new.items) }
    ensures same { (other : ℕ) → slice_index_or firsts.new.items other None
        ≡ slice_index_or firsts.old.items other None }
{
    while firsts.len() <= cell {
        firsts.push(None)?;
    }
    Ok(())
}

/// Says that a name of this number is the cell's, where it is its first.
fn note(firsts: &mut Vec<Option<usize>>, cell: usize, number: usize)
    requires { cell < length firsts.old.items }
    ensures first { slice_index_or firsts.old.items cell None ≡ None
        → slice_index_or firsts.new.items cell None ≡ Some number }
    ensures again { (first : ℕ) → slice_index_or firsts.old.items cell None ≡ Some first
        → slice_index_or firsts.new.items cell None ≡ Some first }
    ensures others { (other : ℕ) → (cell == other) ≡ false
        → slice_index_or firsts.new.items other None
        ≡ slice_index_or firsts.old.items other None }
{
    if firsts[cell].is_none() {
        firsts[cell] = Some(number);
    }
}

/// Takes back that a name of this number is the cell's first.
fn forget(firsts: &mut Vec<Option<usize>>, cell: usize, number: usize)
    ensures gone { slice_index_or firsts.old.items cell None ≡ Some number
        → slice_index_or firsts.new.items cell None ≡ None }
    ensures others { (other : ℕ) → (cell == other) ≡ false
        → slice_index_or firsts.new.items other None
        ≡ slice_index_or firsts.old.items other None }
    ensures kept { (slice_index_or firsts.old.items cell None ≡ Some number → ⊥) → (other : ℕ)
        → slice_index_or firsts.new.items other None
        ≡ slice_index_or firsts.old.items other None }
{
    if let Some(Some(first)) = firsts.get(cell).copied() {
        if first == number {
            firsts[cell] = None;
        }
    }
}

/// The cell of one name more. After an error the cells are as they were.
fn push_cell(
    cells: &mut Vec<usize>,
    firsts: &mut Vec<Option<usize>>,
    cell: usize,
) -> Result<(), AllocError>
    requires { HasFirsts firsts.old.items cells.old.items }
    ensures ok { OnOk result (cells.new.items ≡ cells.old.items ++ cell ∷ []) }
    ensures err { OnErr result (cells.new.items ≡ cells.old.items) }
    ensures firsts { HasFirsts firsts.new.items cells.new.items }
{
    make_room(firsts, cell)?;
    cells.push(cell)?;
    note(firsts, cell, cells.len() - 1);
    Ok(())
}

/// Takes the cell of the last name back.
fn pop_cell(cells: &mut Vec<usize>, firsts: &mut Vec<Option<usize>>)
    requires { HasFirsts firsts.old.items cells.old.items }
    ensures cells { cells.new.items ≡ take (length cells.old.items - 1) cells.old.items }
    ensures firsts { HasFirsts firsts.new.items cells.new.items }
{
    if let Some(cell) = cells.pop() {
        forget(firsts, cell, cells.len());
    }
}

impl CellNames {
    /// No names. Takes no memory.
    pub fn new(alloc: Global) -> CellNames
        ensures { result ≡ no_cell_names }
    {
        CellNames {
            names: Names::new(alloc),
            cells: Vec::new(alloc),
            firsts: Vec::new(alloc),
        }
    }

    /// The number of the cell with this name, looked up by its hash.
    pub fn find(&self, name: &str) -> Option<usize>
        ensures number { result ≡ cell_named self.now name.now }
        ensures there { IfSome result (Contains self.now.cells) }
    {
        let number = self.names.find(name)?;
        self.cells.get(number).copied()
    }

    /// The name of the cell with this number, of several the first.
    pub fn name_of(&self, cell: usize) -> Option<&str>
        ensures some { IfSome result (λ name. name_at self.now cell ≡ Some name.now) }
        ensures none { result ≡ None → name_at self.now cell ≡ None }
    {
        let number = self.place_of(cell)?;
        Some(self.names.name(number))
    }

    /// The place of the cell among those that have a name.
    fn place_of(&self, cell: usize) -> Option<usize>
        ensures place { result ≡ position (λ c. c == cell) self.now.cells }
        ensures within { IfSome result (λ n. n < length self.now.names) }
    {
        *self.firsts.get(cell)?
    }

    /// A new name, of the cell with this number. After an error the names are as they were.
    pub fn push(&mut self, alloc: Global, name: &str, cell: usize) -> Result<(), AllocError>
        requires { cell_named self.old name.now ≡ None }
        ensures ok { OnOk result (self.new ≡ with_cell_name self.old name.now cell) }
        ensures err { OnErr result (self.new ≡ self.old) }
    {
        self.names.push(alloc, name)?;
        match push_cell(&mut self.cells, &mut self.firsts, cell) {
            Ok(()) => Ok(()),
            Err(_) => {
                self.names.pop();
                Err(AllocError)
            }
        }
    }

    /// Takes the last name back. Takes no memory.
    pub fn pop(&mut self)
        ensures { self.new ≡ without_last_cell_name self.old }
    {
        pop_cell(&mut self.cells, &mut self.firsts);
        self.names.pop();
    }
}
