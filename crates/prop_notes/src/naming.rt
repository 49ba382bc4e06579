//! The names of cells that have none of their own, and of instances, by the uses that made them;
//! and the words for kinds.
ghost use Rattle.std.specs.Prelude.{◌≡◌, ◌<◌, ◌≤◌, ◌++◌, ◌∷◌, [], IfOk, IfSome, OnOk, Some, None};
ghost use Rattle.std.specs.Prelude.{length, string_bytes, option_copied, cond};
ghost use Rattle.prop_notes.specs.Naming.{uses_by_cell, uses_by_instance, use_at, local_of};
ghost use Rattle.prop_notes.specs.Naming.{local_by, local_text, cell_name, cell_names};
ghost use Rattle.prop_notes.specs.Naming.{part_of, made_by, made_in, made_at};
ghost use Rattle.prop_notes.specs.Naming.{domain_text, kind_text};

use crate::notes::{Notes, Part, Use};
use prop_lattice::Kind;
use prop_vocabulary::CellNames;
use std::alloc::{AllocError, Global};
use std::fmt::Write;
use std::marker::Model;

/// An instance by the use that made it, and what it was given, as text.
#[derive(Drop)]
pub struct Made {
    pub path: String,
    pub by: String,
}

impl Model for Made {
    ghost use Rattle.std.specs.Prelude.{string_bytes};
    ghost use Rattle.prop_notes.specs.Naming as naming;

    ghost Value = { naming.Made };

    ghost view = { λ m. record { path = string_bytes m.path; by = string_bytes m.by } };
}

/// The name of the domain with this number.
fn domain_text(notes: &Notes, number: usize) -> &str
    ensures { result.now ≡ domain_text notes.now number }
{
    match notes.domains.get(number.saturating_sub(1)) {
        Some(name) => name.as_str(),
        None => "",
    }
}

/// The word for a kind: the domains have their names from the notes.
pub fn kind_text(notes: &Notes, kind: Kind) -> &str
    ensures { result.now ≡ kind_text notes.now kind }
{
    match kind {
        Kind::Span => "span",
        Kind::Symbol => "symbol",
        Kind::Set(0) => "truth",
        Kind::Set(number) => domain_text(notes, usize::from(number)),
    }
}

/// How many uses began where there were no more cells than these.
fn count_by_cell(uses: &[Use], cell: usize) -> usize
    ensures { result ≡ uses_by_cell uses.now cell }
{
    let mut count = 0;
    for made in uses {
        if made.cells <= cell {
            count += 1;
        }
    }
    count
}

/// How many uses began where there were no more instances than these.
fn count_by_instance(uses: &[Use], instance: usize) -> usize
    ensures { result ≡ uses_by_instance uses.now instance }
{
    let mut count = 0;
    for made in uses {
        if made.instances <= instance {
            count += 1;
        }
    }
    count
}

/// What is given to a part: what its use is given, or what it says.
fn given<'a>(part: &'a Part, by: &'a str) -> &'a str
    ensures { result.now ≡ cond part.now.own by.now part.now.by }
{
    if part.own { by } else { part.by.as_str() }
}

/// A part of a use of this number that is given this.
fn made_by(alloc: Global, number: usize, by: &str, part: Option<&Part>) -> Result<Made, AllocError>
    ensures { IfOk result (λ made. made ≡ made_by number by.now (option_copied part.entry)) }
{
    match part {
        Some(part) => {
            let path = &part.path;
            let path = format!(in alloc; "{number}.{path}")?;
            let by = String::from_str(alloc, given(part, by))?;
            Ok(Made { path, by })
        }
        None => {
            let path = format!(in alloc; "{number}")?;
            let by = String::from_str(alloc, by)?;
            Ok(Made { path, by })
        }
    }
}

impl Notes {
    /// The use of a number from 1 on.
    fn use_at(&self, number: usize) -> Option<&Use>
        ensures { option_copied result ≡ use_at self.now number }
    {
        self.uses.get(number.checked_sub(1)?)
    }

    /// The path of a cell within the use that made it.
    fn local(&self, made: &Use, cell: usize) -> Option<&str>
        ensures some { IfSome result (λ local. local_of self.now cell made.now ≡ Some local.now) }
        ensures none { result ≡ None → local_of self.now cell made.now ≡ None }
    {
        let inner = self.inner_at(made.of)?;
        let local = inner.locals.get(cell.saturating_sub(made.cells))?;
        Some(local.as_str())
    }

    /// A cell by the use of this number, which made it.
    fn local_by(
        &self,
        alloc: Global,
        cell: usize,
        number: usize,
        made: &Use,
    ) -> Result<String, AllocError>
        ensures { IfOk result (λ text.
            string_bytes text ≡ local_by self.now cell number made.now) }
    {
        if made.required {
            let place = cell.saturating_sub(made.cells) as u128 + 1;
            return format!(in alloc; "require:{number}.{place}");
        }
        match self.local(made, cell) {
            Some(local) => format!(in alloc; "{number}.{local}"),
            None => format!(in alloc; "#{cell}"),
        }
    }

    /// A cell by the use that made it, or `#` and its number.
    fn local_text(&self, alloc: Global, cell: usize) -> Result<String, AllocError>
        ensures { IfOk result (λ text. string_bytes text ≡ local_text self.now cell) }
    {
        let number = count_by_cell(&self.uses, cell);
        match self.use_at(number) {
            Some(made) => self.local_by(alloc, cell, number, made),
            None => format!(in alloc; "#{cell}"),
        }
    }

    /// A cell by its name, by the use that made it, or by `#` and its number.
    pub fn cell_name(
        &self,
        alloc: Global,
        names: &CellNames,
        cell: usize,
    ) -> Result<String, AllocError>
        ensures { IfOk result (λ text. string_bytes text ≡ cell_name self.now names.now cell) }
    {
        match names.name_of(cell) {
            Some(name) => String::from_str(alloc, name),
            None => self.local_text(alloc, cell),
        }
    }

    /// Cells, each with one space before it.
    pub fn cell_names(
        &self,
        alloc: Global,
        names: &CellNames,
        cells: &[usize],
    ) -> Result<String, AllocError>
        ensures { IfOk result (λ text.
            string_bytes text ≡ cell_names self.now names.now cells.now) }
    {
        let mut text = String::new(alloc);
        for cell in cells {
            let name = self.cell_name(alloc, names, *cell)?;
            write!(text, " {name}")?;
        }
        Ok(text)
    }

    /// The part that an instance is of a use.
    fn part(&self, made: &Use, instance: usize) -> Option<&Part>
        ensures { option_copied result ≡ part_of self.now instance made.now }
    {
        let inner = self.inner_at(made.of)?;
        inner.parts.get(instance.saturating_sub(made.instances))
    }

    /// An instance of the use of this number.
    fn made_in(
        &self,
        alloc: Global,
        instance: usize,
        number: usize,
        made: &Use,
    ) -> Result<Made, AllocError>
        ensures { IfOk result (λ m. m ≡ made_in self.now instance number made.now) }
    {
        if made.required {
            let path = format!(in alloc; "require:{number}")?;
            let by = String::new(alloc);
            return Ok(Made { path, by });
        }
        made_by(alloc, number, &made.by, self.part(made, instance))
    }

    /// An instance by the use that made it, or `#` and its number.
    pub fn made_at(&self, alloc: Global, instance: usize) -> Result<Made, AllocError>
        ensures { IfOk result (λ made. made ≡ made_at self.now instance) }
    {
        let number = count_by_instance(&self.uses, instance);
        match self.use_at(number) {
            Some(made) => self.made_in(alloc, instance, number, made),
            None => {
                let path = format!(in alloc; "#{instance}")?;
                let by = String::new(alloc);
                Ok(Made { path, by })
            }
        }
    }
}
