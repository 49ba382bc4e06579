//! A plan that is proposed, and how far it was looked at.

ghost use Rattle.std.specs.Prelude.{◌≡◌, List, IsTrue, IfOk, IfSome};
ghost use Rattle.prop_numbers.specs.Sets.{set_of};
ghost use Rattle.prop_premises.specs.ChoiceLists.{IsChoiceList};
ghost use Rattle.prop_procedures.specs.Kept.{AllMean, stored_of};
ghost use Rattle.prop_procedures.specs.Stored.{Stored};
ghost use Rattle.prop_cells.specs.Data.{Data, IsKept};
ghost use Rattle.prop_plans.specs.Plans.{IsUnderWay, Satisfy};
ghost use Rattle.prop_plans.specs.Verdicts.{IfYes};
ghost use Rattle.prop_spread.specs.Proposals.{AreSingle, IsProposed};

use prop_cells::Network;
use prop_lattice::{Info, Kind};
use prop_plans::{Check, Progress};
use prop_premises::{Choice, Premises, Worldview};
use prop_procedures::Rule;
use prop_trail::Trail;
use std::alloc::{AllocError, Global};
use std::marker::Model;

/// The symbol that no line can name.
const UNNAMED: u32 = u32::MAX;

/// A value for each cell and a side of each choice, with what is believed by these.
#[derive(Drop)]
pub struct Proposal {
    check: Check,
    sides: Vec<u8>,
    view: Worldview,
}

/// Which side a choice takes, counted from 1, where just one is left.
fn side_left(info: Info) -> Option<u8> {
    let Info::Set(elements) = info else {
        return None;
    };
    let bits = elements.bits();
    if bits.count_ones() != 1 {
        return None;
    }
    Some(bits.trailing_zeros() as u8 + 1)
}

/// The value of a cell: what is believed of it, or a symbol that nobody named where nothing is.
fn value_of(info: Info, kind: Kind) -> Info {
    match (info, kind) {
        (Info::Nothing, Kind::Symbol) => Info::Sym(UNNAMED),
        _ => info,
    }
}

/// Whether there is a side for each choice, one of its own.
fn are_sides(choices: &[Choice], sides: &[u8]) -> bool
    ensures { IsTrue result → IsChoiceList choices.now sides.now }
{
    if choices.len() != sides.len() {
        return false;
    }
    for place in 0..choices.len() {
        let side = sides[place];
        if side < 1 || side > choices[place].sides {
            return false;
        }
    }
    true
}

/// What is believed of each cell.
fn values<R: Rule + Drop>(
    alloc: Global,
    network: &Network<R>,
    trail: &Trail,
) -> Result<Vec<Info>, AllocError> {
    let mut values = Vec::new(alloc);
    for cell in 0..network.cells() {
        if cell < trail.places() {
            let kind = network.data().kind(cell).kind;
            values.push(value_of(trail.info(cell), kind))?;
        }
    }
    Ok(values)
}

/// The side that is left of each choice; fewer where one has several left.
fn sides(alloc: Global, cells: usize, trail: &Trail) -> Result<Vec<u8>, AllocError> {
    let mut sides = Vec::new(alloc);
    for place in cells..trail.places() {
        if let Some(side) = side_left(trail.info(place)) {
            sides.push(side)?;
        }
    }
    Ok(sides)
}

impl Model for Proposal {
    ghost use Rattle.prop_spread.specs.Proposals.{Proposed};

    ghost Value = { Proposed };

    ghost view = { λ p. record { check = p.check; sides = p.sides.items; view = p.view } };
}

impl Proposal {
    /// What the trail believes, as a plan; none where a choice has several sides left.
    pub(crate) fn new<R: Rule + Drop>(
        alloc: Global,
        network: &Network<R>,
        premises: &Premises,
        trail: &Trail,
    ) -> Result<Option<Proposal>, AllocError>
        ensures { IfOk result (λ o. IfSome o (λ p. (library : List Stored) (d : Data)
            → IsProposed library d premises.now p)) }
    {
        let sides = sides(alloc, network.cells(), trail)?;
        if !are_sides(premises.choices(), &sides) {
            return Ok(None);
        }
        let view = premises.worldview(&sides)?;
        let check = Check::new(values(alloc, network, trail)?);
        Ok(Some(Proposal { check, sides, view }))
    }

    /// Looks at it further, with so many calls at the most.
    pub fn go_on<R: Rule + Drop>(&mut self, network: &Network<R>, steps: u64) -> Progress
        requires means { AllMean R.value_of network.now.library.procedures.items }
        requires kept { IsKept (stored_of R.value_of network.now.library) network.now.cells }
        requires under_way { IsUnderWay (stored_of R.value_of network.now.library)
            network.now.cells self.old.check }
        ensures others { self.new ≡ record self.old { check = self.new.check } }
        ensures under_way { IsUnderWay (stored_of R.value_of network.now.library)
            network.now.cells self.new.check }
        ensures single { IfYes result.verdict
            (AreSingle network.now.cells self.new.check.values) }
        ensures satisfied { IfYes result.verdict (Satisfy
            (stored_of R.value_of network.now.library) network.now.cells (set_of self.new.view)
            self.new.check.values) }
    {
        self.check.go_on(network, &self.view, steps)
    }

    /// The values, one for each cell.
    pub fn values(&self) -> &[Info]
        ensures { result.now ≡ self.now.check.values }
    {
        self.check.values()
    }

    /// The side of each choice.
    pub fn into_sides(self) -> Vec<u8>
        ensures { result.items ≡ self.sides }
    {
        self.sides
    }
}
