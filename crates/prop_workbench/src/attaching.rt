//! The command that puts procedures and definitions between cells.
ghost use Rattle.std.specs.Prelude.{◌≡◌, ◌<◌, ◌⊎◌, All, length, map, IfOk, IfErr, OnOk};
ghost use Rattle.std.specs.Prelude.{true, false};
ghost use Rattle.prop_vocabulary.specs.Cells.{cells_named, is_cell_missing};
ghost use Rattle.prop_refusals.specs.declared.refusal.Refusal.TheVariants.{Memory, NoSuchCell};
ghost use Rattle.prop_procedures.specs.Fitting.{kind_at};
ghost use Rattle.prop_language.specs.Said.{by_of, words};
ghost use Rattle.prop_compound.specs.Compounds.{given_by};
ghost use Rattle.prop_workbench.specs.inner.Refusing.{is_unknown};

use crate::session::Session;
use prop_cells::Cells;
use prop_compound::{By, Flat};
use prop_lattice::Refusal;
use prop_procedures::{Kinded, Param, Rule};
use prop_scheduler::{Order, make};
use prop_vocabulary::{CellNames, Vocabulary};
use smallvec::SmallVec;
use std::alloc::{AllocError, Global};

/// Whether a relation is named of which there is none.
fn is_unknown(words: &Vocabulary, by: By) -> bool
    ensures { result ≡ is_unknown words.now (by_of by.entry) }
{
    match by {
        By::Nothing | By::Number(_) => false,
        By::Relation(name) => words.relation(name).is_none(),
    }
}

/// What is given: a scale or a relation, or nothing.
fn given(alloc: Global, words: &Vocabulary, by: By) -> Result<Option<Param>, AllocError>
    ensures { IfOk result (λ given. given ≡ given_by words.now (by_of by.entry)) }
{
    match by {
        By::Nothing => Ok(None),
        By::Number(scale) => Ok(Some(Param::Scale(scale))),
        By::Relation(name) => match words.relation(name) {
            Some(rows) => Ok(Some(Param::Rows(rows.copy(alloc)?))),
            None => Ok(None),
        },
    }
}

/// The numbers of the cells with these names, or `NoSuchCell` where there is none with one of them.
/// Each name is looked up once.
fn cells_named(
    alloc: Global,
    names: &CellNames,
    cells: &[&str],
) -> Result<SmallVec<usize, 8>, Refusal>
    ensures ok { IfOk result (λ v. v.items ≡ cells_named names.now (words cells.now)) }
    ensures all { OnOk result (is_cell_missing names.now (words cells.now) ≡ false) }
    ensures err { IfErr result (λ e. (e ≡ Memory)
        ⊎ ((e ≡ NoSuchCell) × (is_cell_missing names.now (words cells.now) ≡ true))) }
{
    let mut numbers = SmallVec::new(alloc);
    for name in cells {
        match names.find(name) {
            Some(cell) => match numbers.push(cell) {
                Ok(()) => {}
                Err(_) => return Err(Refusal::Memory),
            },
            None => return Err(Refusal::NoSuchCell),
        }
    }
    Ok(numbers)
}

/// The kinds of these cells.
fn kinds_of(alloc: Global, held: &Cells, cells: &[usize]) -> Result<Vec<Kinded>, AllocError>
    requires { All (λ c. c < length held.now.kinds) cells.now }
    ensures { IfOk result (λ v. v.items ≡ map (kind_at held.now.kinds) cells.now) }
{
    let mut kinds = Vec::new(alloc);
    for cell in cells {
        kinds.push(held.kind(*cell))?;
    }
    Ok(kinds)
}

impl<R: Rule + Drop, O: Order + Drop> Session<R, O> {
    ghost use Rattle.std.specs.Prelude.{◌≡◌, ◌<◌, ◌≤◌, ◌+◌, ◌⊎◌, ℕ, All, length, map, None, Some};
    ghost use Rattle.std.specs.Prelude.{IfOk, IfErr, OnOk, OnErr};
    ghost use Rattle.prop_refusals.specs.declared.refusal.Refusal.TheVariants.{Memory};
    ghost use Rattle.prop_language.specs.Commands as commands;
    ghost use Rattle.prop_language.specs.Said.{by_of, words};
    ghost use Rattle.prop_compound.specs.Compounds.{given_by};
    ghost use Rattle.prop_compound.specs.Expansion.{expanded};
    ghost use Rattle.prop_workbench.specs.Effects.{used};
    ghost use Rattle.prop_workbench.specs.inner.Refusing.{use_refusal};
    ghost use Rattle.prop_procedures.specs.Fitting.{kind_at};
    ghost use Rattle.prop_compound.specs.Expanding.{expand_refusal};
    ghost use Rattle.prop_compound.specs.Flattened.{expansion_of_flat, IsFlatOver};
    ghost use Rattle.prop_workbench.specs.inner.Effects.{with_use};
    ghost use Rattle.prop_workbench.specs.Sessions.{state_of, library_of, IsInOrder};
    ghost use Rattle.prop_workbench.specs.inner.Sessions.{Keeps};
    ghost use Rattle.prop_workbench.specs.inner.Carrying.{IsDone, HasLeft, HasAdded};

    /// Puts a procedure or a definition between cells.
    pub(crate) fn attach(&mut self, name: &str, cells: &[&str], by: By) -> Result<(), Refusal>
        requires sound { IsInOrder R.value_of self.old }
        ensures keeps { Keeps R.value_of self.old self.new }
        ensures step { IsDone R.value_of self.old
            (commands.Command.Attach name.now (words cells.now) (by_of by.entry)) result self.new }
        ensures wakes { HasLeft self.old
            (commands.Command.Attach name.now (words cells.now) (by_of by.entry))
            result self.new }
    {
        if is_unknown(&self.words, by) {
            return Err(Refusal::NoSuchRelation);
        }
        match cells_named(self.alloc, &self.names, cells) {
            Ok(numbers) => self.use_on(name, &numbers, by),
            Err(refusal) => Err(refusal),
        }
    }

    /// Puts the procedure or definition of a name between the cells of these numbers, whole or not
    /// at all.
    fn use_on(&mut self, name: &str, cells: &[usize], by: By) -> Result<(), Refusal>
        requires sound { IsInOrder R.value_of self.old }
        requires cells { All (λ c. c < length self.old.live.network.cells.kinds) cells.now }
        ensures keeps { Keeps R.value_of self.old self.new }
        ensures fits { OnOk result (use_refusal (library_of R.value_of self.old) (state_of self.old)
            name.now cells.now (by_of by.entry) ≡ None) }
        ensures ok { OnOk result (state_of self.new ≡ with_use (library_of R.value_of self.old)
            (state_of self.old) cells.now
            (used (library_of R.value_of self.old) (state_of self.old) name.now cells.now
            (by_of by.entry))) }
        ensures err { IfErr result (λ e.
            (use_refusal (library_of R.value_of self.old) (state_of self.old) name.now cells.now
            (by_of by.entry) ≡ Some e) ⊎ (e ≡ Memory)) }
        ensures err_same { OnErr result (state_of self.new ≡ state_of self.old) }
        ensures added { HasAdded self.old result self.new }
    {
        match self.expanded(name, cells, by) {
            Ok(flat) => make(&mut self.live, cells, flat),
            Err(refusal) => Err(refusal),
        }
    }

    /// What a use of the name on the cells of these numbers stands for.
    fn expanded(&self, name: &str, cells: &[usize], by: By) -> Result<Flat, Refusal>
        requires sound { IsInOrder R.value_of self.now }
        requires cells { All (λ c. c < length self.now.live.network.cells.kinds) cells.now }
        ensures fits { OnOk result (expand_refusal (library_of R.value_of self.now) self.now.words
            self.now.definitions name.now
            (map (kind_at self.now.live.network.cells.kinds) cells.now)
            (given_by self.now.words (by_of by.entry)) ≡ None) }
        ensures ok { IfOk result (λ flat.
            expansion_of_flat (map (kind_at self.now.live.network.cells.kinds) cells.now) flat
            ≡ expanded (library_of R.value_of self.now) self.now.words self.now.definitions name.now
            (map (kind_at self.now.live.network.cells.kinds) cells.now)
            (given_by self.now.words (by_of by.entry))) }
        ensures safe { IfOk result (λ flat.
            IsFlatOver (library_of R.value_of self.now) (length cells.now) flat) }
        ensures err { IfErr result (λ e.
            (expand_refusal (library_of R.value_of self.now) self.now.words self.now.definitions
            name.now (map (kind_at self.now.live.network.cells.kinds) cells.now)
            (given_by self.now.words (by_of by.entry)) ≡ Some e) ⊎ (e ≡ Memory)) }
    {
        let Ok(kinds) = kinds_of(self.alloc, self.live.network().data(), cells) else {
            return Err(Refusal::Memory);
        };
        let Ok(given) = given(self.alloc, &self.words, by) else {
            drop(kinds);
            return Err(Refusal::Memory);
        };
        self.definitions.expand(
            self.alloc,
            self.live.network().library(),
            &self.words,
            name,
            kinds,
            given,
        )
    }
}
