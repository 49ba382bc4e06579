//! Statements under sides of choices.
ghost use Rattle.std.specs.Prelude.{◌≡◌, ◌<◌, ◌≤◌, ◌+◌, List, [], All, Some, IfOk, IfSome, OnOk};
ghost use Rattle.std.specs.Prelude.{MatchOption, length, slice_get};
ghost use Rattle.prop_premises.specs.declared.choice.Choice.{Choice as ChoiceOf};
ghost use Rattle.prop_plans.specs.Held.{attached_of};
ghost use Rattle.prop_deriving.specs.Sidings.{AreSidings, IsSided, noted, row_at, sided_more};

use prop_cells::{Cells, Network};
use prop_lattice::Info;
use prop_premises::{Choice, Premise};
use prop_procedures::Rule;
use std::alloc::{AllocError, Global};
use std::marker::Model;

/// A statement that is made under a side of a choice.
#[derive(Clone, Copy, Debug)]
pub struct Sided {
    /// The statement's number.
    pub statement: usize,
    /// The place of the choice: behind all cells, by its number.
    pub choice: usize,
    /// The side, counted from 0.
    pub side: u8,
    /// The cell that the statement is about.
    pub cell: usize,
    /// What it says of the cell.
    pub info: Info,
}

/// The statements that are made under sides of choices, each by a number, and for each place the
/// numbers of those that touch it.
#[derive(Drop)]
pub struct Sides {
    sided: Vec<Sided>,
    touching: Vec<Vec<usize>>,
}

impl Model for Sides {
    ghost use Rattle.std.specs.Prelude.{map};
    ghost use Rattle.prop_deriving.specs.Sidings.{Sidings};

    ghost Value = { Sidings };

    ghost view = { λ s. record {
      sided = s.sided.items;
      touching = map (λ numbers. numbers.items) s.touching.items;
    } };
}

/// The side of a choice whose premise this is, counted from 0.
fn side_of(choice: Choice, premise: Option<Premise>) -> Option<u8>
    ensures { IfSome result (λ side.
        (side < choice.sides) × (premise ≡ Some (choice.first + side))) }
{
    let offset = premise?.checked_sub(choice.first)?;
    if offset < u16::from(choice.sides) {
        Some(offset as u8)
    } else {
        None
    }
}

/// The statement with this number, where it is made under a side of the choice with that number.
fn sided_at(cells: &Cells, statement: usize, number: usize, choice: Choice) -> Option<Sided>
    ensures { IfSome result (λ x. (choices : List ChoiceOf) → slice_get choices number ≡ Some choice
        → IsSided (attached_of cells.now) choices x) }
{
    let said = cells.statements().get(statement)?;
    let side = side_of(choice, said.premise)?;
    let place = cells.len().checked_add(number)?;
    Some(Sided {
        statement,
        choice: place,
        side,
        cell: said.cell,
        info: said.info,
    })
}

/// No numbers at each of so many places.
fn no_numbers(alloc: Global, places: usize) -> Result<Vec<Vec<usize>>, AllocError>
    ensures places { IfOk result (λ rows. length rows.items ≡ places) }
    ensures none { IfOk result (λ rows. All (λ numbers. numbers.items ≡ []) rows.items) }
{
    let mut rows = Vec::with_capacity(alloc, places)?;
    for _ in 0..places {
        rows.push(Vec::new(alloc))?;
    }
    Ok(rows)
}

impl Sides {
    /// The statements of a network that are made under sides of these choices.
    pub fn new<R: Rule + Drop>(
        alloc: Global,
        network: &Network<R>,
        choices: &[Choice],
    ) -> Result<Sides, AllocError>
        ensures { IfOk result (AreSidings (attached_of network.now.cells) choices.now) }
    {
        let mut sides = Sides {
            sided: Vec::new(alloc),
            touching: no_numbers(alloc, network.cells() + choices.len())?,
        };
        for statement in 0..network.data().statement_count() {
            sides.add(network.data(), choices, statement)?;
        }
        Ok(sides)
    }

    /// The statement under a side with this number.
    pub fn get(&self, number: usize) -> Option<&Sided>
        ensures { MatchOption result (length self.now.sided ≤ number)
            (λ x. slice_get self.now.sided number ≡ Some x.now) }
    {
        self.sided.get(number)
    }

    /// The numbers of those that touch a place: that are about the cell, or under a side of the
    /// choice. None where there is no such place.
    pub fn touching(&self, place: usize) -> &[usize]
        ensures { result.now ≡ row_at self.now.touching place }
    {
        match self.touching.get(place) {
            Some(numbers) => numbers,
            None => &[],
        }
    }

    /// Adds a statement under each side whose premise is its own.
    fn add(&mut self, cells: &Cells, choices: &[Choice], statement: usize) -> Result<(), AllocError>
        ensures { OnOk result (AreSidings (attached_of cells.now) choices.now self.old
            → AreSidings (attached_of cells.now) choices.now self.new) }
    {
        for (number, choice) in choices.iter().enumerate() {
            if let Some(sided) = sided_at(cells, statement, number, *choice) {
                self.push(sided)?;
            }
        }
        Ok(())
    }

    /// Adds one, which touches its cell and its choice.
    fn push(&mut self, sided: Sided) -> Result<(), AllocError>
        ensures { OnOk result (self.new ≡ sided_more self.old sided) }
    {
        let number = self.sided.len();
        self.sided.push(sided)?;
        self.touch(sided.cell, number)?;
        self.touch(sided.choice, number)
    }

    /// The number stands at the place, where there is such a place.
    fn touch(&mut self, place: usize, number: usize) -> Result<(), AllocError>
        ensures { OnOk result (self.new
            ≡ record self.old { touching = noted self.old.touching place number }) }
    {
        if place < self.touching.len() {
            self.touching[place].push(number)?;
        }
        Ok(())
    }
}
