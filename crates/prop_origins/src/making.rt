//! The parts of a value: what the statements say, and what follows from them, one call after the
//! other.
ghost use Rattle.std.specs.Prelude.{◌≡◌, ◌<◌, ◌≤◌, ◌+◌, ◌⊎◌, ◌∷◌, [], List, All, length, slice_get};
ghost use Rattle.std.specs.Prelude.{Some, IfOk, OnOk, IfSome, IsTrue, false};
ghost use Rattle.std.specs.List.{list_any};
ghost use Rattle.prop_lattice.specs.Order.{Below, is_contradiction};
ghost use Rattle.prop_numbers.specs.Sets.{set_of};
ghost use Rattle.prop_procedures.specs.Kept.{AllMean, stored_of};
ghost use Rattle.prop_procedures.specs.Rules.{IsCall};
ghost use Rattle.prop_procedures.specs.Stored.{Stored, value_of};
ghost use Rattle.prop_contents.specs.Contents.{support_of};
ghost use Rattle.prop_cells.specs.Data.{IsKept, IsWellMade, problem_of};
ghost use Rattle.prop_cells.specs.Problems.{Entails, is_member};
ghost use Rattle.prop_cells.specs.inner.Problems.{AreOfKinds, Premises, Satisfies};
ghost use Rattle.prop_cells.specs.inner.Problems.{value_on};
ghost use Rattle.prop_origins.specs.Founded.{AreFounded, MakeUp, FallShort};
ghost use Rattle.prop_origins.specs.Parts.{made, calls_in};
ghost use Rattle.prop_origins.specs.Whole.{IfWhole, IfCut};
ghost use Rattle.prop_origins.specs.inner.Proceeding.{Proceeds};
ghost use Rattle.prop_scheduler.specs.Potential.{most_steps};

use crate::line::Line;
use crate::log::Log;
use crate::part::{Origin, Part};
use crate::pruning::prune;
use prop_cells::{Cells, Instance, Network, Statement};
use prop_lattice::{Info, Partial};
use prop_premises::{Premise, PremiseSet};
use prop_procedures::{Library, Rule};
use prop_tms::Supported;
use smallvec::SmallVec;
use std::alloc::{AllocError, Global};

/// What makes up a value.
#[derive(Drop)]
pub enum Composition {
    /// These parts, the one that completes it first.
    Whole(Vec<Part>),
    /// They were not found: the budget of calls that say more was used before.
    Cut,
}

/// That a cell holds so much.
#[derive(Clone, Copy)]
struct Claim {
    cell: usize,
    value: Info,
}

/// Whether a statement is made under one of the premises or under none.
fn is_among(premises: &PremiseSet, statement: &Statement) -> bool
    ensures { result ≡ is_member (set_of premises.now) statement.now.premise }
{
    match statement.premise {
        None => true,
        Some(premise) => premises.contains(premise),
    }
}

/// The premise of a statement, or none.
fn support_of(alloc: Global, premise: Option<Premise>) -> Result<PremiseSet, AllocError>
    ensures { IfOk result (λ s. s ≡ support_of premise) }
{
    match premise {
        None => Ok(PremiseSet::empty(alloc)),
        Some(premise) => PremiseSet::single(alloc, premise),
    }
}

/// What a statement says, by its number.
fn told(alloc: Global, number: usize, statement: &Statement) -> Result<Part, AllocError>
    ensures { IfOk result (λ p. p ≡ record {
      origin = Origin.Told number;
      cell = statement.now.cell;
      inputs = [];
      args = [];
      value = statement.now.info;
      support = support_of statement.now.premise;
    }) }
{
    let support = support_of(alloc, statement.premise)?;
    Ok(Part {
        origin: Origin::Told(number),
        cell: statement.cell,
        inputs: SmallVec::new(alloc),
        args: SmallVec::new(alloc),
        value: statement.info,
        support,
    })
}

/// The data of a network, and the premises under which its statements are told.
#[derive(Clone, Copy)]
struct Under<'a> {
    held: &'a Cells,
    premises: &'a PremiseSet,
}

/// Logs what a statement says, where its premise is one of these or it has none, and where it says
/// more than those before it. Then the readers of its cell wait.
fn note(
    alloc: Global,
    under: &Under<'_>,
    number: usize,
    line: &mut Line,
    log: &mut Log,
) -> Result<(), AllocError>
    requires number { number < length under.now.held.now.statements }
    requires made { IsWellMade under.now.held.now }
    requires cells { log.old.cells ≡ length under.now.held.now.kinds }
    requires line { line.old.count ≡ length under.now.held.now.instances }
    requires of_kinds { AreOfKinds under.now.held.now.kinds (made log.old.parts) }
    ensures cells { log.new.cells ≡ log.old.cells }
    ensures line { line.new.count ≡ line.old.count }
    ensures founded { (library : List Stored)
        → AreFounded library under.now.held.now (set_of under.now.premises.now) log.old.parts
        → AreFounded library under.now.held.now (set_of under.now.premises.now) log.new.parts }
    ensures proceeds { OnOk result ((library : List Stored)
        → Proceeds (problem_of library under.now.held.now) 0 line.old.line line.new.line
        (made log.old.parts) (made log.new.parts)) }
    ensures heard { OnOk result ((x : Statement)
        → slice_get under.now.held.now.statements number ≡ Some x
        → Satisfies (set_of under.now.premises.now) (made log.new.parts) x) }
    ensures calls { OnOk result (calls_in log.new.parts ≡ calls_in log.old.parts) }
{
    let statement = under.held.statements()[number];
    let cell = statement.cell;
    if !is_among(under.premises, &statement) || log.made(cell).implies(statement.info) {
        return Ok(());
    }
    let part = told(alloc, number, &statement)?;
    log.push(part)?;
    line.alert(under.held.readers(cell));
    Ok(())
}

/// Logs what the statements say under the premises or under none.
fn tell(
    alloc: Global,
    held: &Cells,
    premises: &PremiseSet,
    line: &mut Line,
    log: &mut Log,
) -> Result<(), AllocError>
    requires made { IsWellMade held.now }
    requires cells { log.old.cells ≡ length held.now.kinds }
    requires line { line.old.count ≡ length held.now.instances }
    requires of_kinds { AreOfKinds held.now.kinds (made log.old.parts) }
    ensures cells { log.new.cells ≡ log.old.cells }
    ensures line { line.new.count ≡ line.old.count }
    ensures founded { (library : List Stored)
        → AreFounded library held.now (set_of premises.now) log.old.parts
        → AreFounded library held.now (set_of premises.now) log.new.parts }
    ensures proceeds { OnOk result ((library : List Stored)
        → Proceeds (problem_of library held.now) 0 line.old.line line.new.line
        (made log.old.parts) (made log.new.parts)) }
    ensures heard { OnOk result
        (All (Satisfies (set_of premises.now) (made log.new.parts)) held.now.statements) }
    ensures calls { OnOk result (calls_in log.new.parts ≡ calls_in log.old.parts) }
{
    let under = Under { held, premises };
    for number in 0..held.statements().len() {
        note(alloc, &under, number, line, log)?;
    }
    Ok(())
}

/// Whether one of them is a contradiction.
fn has_contradiction(infos: &[Info]) -> bool
    ensures { result ≡ list_any is_contradiction infos.now }
{
    infos.iter().any(
        |info| -> bool
            ensures { result ≡ is_contradiction info.now }
        { matches!(info, Info::Contradiction) },
    )
}

/// What an instance answers.
fn answer<R: Rule + Drop>(library: &Library<R>, x: &Instance, args: &[Info]) -> Info
    requires means { AllMean R.value_of library.now.procedures.items }
    requires there { x.now.procedure < length (stored_of R.value_of library.now) }
    requires call { list_any is_contradiction args.now ≡ false
        → IfSome (slice_get (stored_of R.value_of library.now) x.now.procedure)
        (λ p. IsCall p.ins p.need x.now.param args.now) }
    ensures { result ≡ value_on
        (value_of (stored_of R.value_of library.now) x.now.procedure x.now.param) args.now }
{
    if has_contradiction(args) {
        return Info::Contradiction;
    }
    library.call(x.procedure(), x.param(), args)
}

/// What an instance said, by its number.
fn called(
    number: usize,
    x: &Instance,
    args: SmallVec<Info, 4>,
    value: Info,
    support: PremiseSet,
) -> Result<Part, AllocError>
    ensures { IfOk result (λ p. p ≡ record {
      origin = Origin.Called number;
      cell = x.now.output;
      inputs = x.now.inputs;
      args = args.items;
      value = value;
      support = support;
    }) }
{
    let inputs = SmallVec::from_slice(*args.allocator(), x.inputs())?;
    Ok(Part {
        origin: Origin::Called(number),
        cell: x.output(),
        inputs,
        args,
        value,
        support,
    })
}

/// Calls an instance on what the parts say of its inputs. Where its value says more than they do,
/// it is logged, and the readers of its output wait. Tells whether it does.
fn call<R: Rule + Drop>(
    alloc: Global,
    network: &Network<R>,
    number: usize,
    line: &mut Line,
    log: &mut Log,
) -> Result<bool, AllocError>
    requires means { AllMean R.value_of network.now.library.procedures.items }
    requires kept { IsKept (stored_of R.value_of network.now.library) network.now.cells }
    requires number { number < length network.now.cells.instances }
    requires cells { log.old.cells ≡ length network.now.cells.kinds }
    requires line { line.old.count ≡ length network.now.cells.instances }
    requires of_kinds { AreOfKinds network.now.cells.kinds (made log.old.parts) }
    ensures cells { log.new.cells ≡ log.old.cells }
    ensures line { line.new.count ≡ line.old.count }
    ensures founded { (s : Premises)
        → AreFounded (stored_of R.value_of network.now.library) network.now.cells s log.old.parts
        → AreFounded (stored_of R.value_of network.now.library) network.now.cells s log.new.parts }
    ensures proceeds { OnOk result
        (Proceeds (problem_of (stored_of R.value_of network.now.library) network.now.cells) 1
        (number ∷ line.old.line) line.new.line (made log.old.parts) (made log.new.parts)) }
    ensures more { IfOk result (λ more. IsTrue more
        → calls_in log.new.parts ≡ calls_in log.old.parts + 1) }
    ensures idle { IfOk result (λ more. more ≡ false
        → (line.new ≡ line.old) × (log.new ≡ log.old)) }
{
    let held = network.data();
    let x = held.instance(number);
    let inputs = x.inputs();
    let output = x.output();
    let args = log.args(alloc, inputs)?;
    let value = answer(network.library(), x, &args);
    if log.made(output).implies(value) {
        drop(args);
        return Ok(false);
    }
    let support = log.support(alloc, inputs)?;
    let part = called(number, x, args, value, support)?;
    log.push(part)?;
    line.alert(held.readers(output));
    Ok(true)
}

/// Calls those that wait, up to the first that says more than the parts do. Where none does, none
/// waits any longer.
fn proceed<R: Rule + Drop>(
    alloc: Global,
    network: &Network<R>,
    line: &mut Line,
    log: &mut Log,
) -> Result<(), AllocError>
    requires means { AllMean R.value_of network.now.library.procedures.items }
    requires kept { IsKept (stored_of R.value_of network.now.library) network.now.cells }
    requires cells { log.old.cells ≡ length network.now.cells.kinds }
    requires line { line.old.count ≡ length network.now.cells.instances }
    requires of_kinds { AreOfKinds network.now.cells.kinds (made log.old.parts) }
    ensures cells { log.new.cells ≡ log.old.cells }
    ensures line { line.new.count ≡ line.old.count }
    ensures founded { (s : Premises)
        → AreFounded (stored_of R.value_of network.now.library) network.now.cells s log.old.parts
        → AreFounded (stored_of R.value_of network.now.library) network.now.cells s log.new.parts }
    ensures proceeds { OnOk result
        (Proceeds (problem_of (stored_of R.value_of network.now.library) network.now.cells) 0
        line.old.line line.new.line (made log.old.parts) (made log.new.parts)) }
    ensures more { OnOk result (((line.new.line ≡ []) × (log.new ≡ log.old))
        ⊎ ((calls_in log.new.parts ≡ calls_in log.old.parts + 1) × Proceeds
        (problem_of (stored_of R.value_of network.now.library) network.now.cells) 1
        line.old.line line.new.line (made log.old.parts) (made log.new.parts))) }
{
    while let Some(number) = line.next() {
        if call(alloc, network, number, line, log)? {
            return Ok(());
        }
    }
    Ok(())
}

/// Logs what follows from the premises by themselves, until it says so much of the cell, or so many
/// calls as the budget says were logged. Where nothing waits it does say so much.
fn make<R: Rule + Drop>(
    alloc: Global,
    network: &Network<R>,
    premises: &PremiseSet,
    claim: Claim,
    budget: u64,
) -> Result<Log, AllocError>
    requires means { AllMean R.value_of network.now.library.procedures.items }
    requires kept { IsKept (stored_of R.value_of network.now.library) network.now.cells }
    requires cell { claim.cell < length network.now.cells.kinds }
    requires entails { Entails
        (problem_of (stored_of R.value_of network.now.library) network.now.cells)
        (set_of premises.now) claim.cell claim.value }
    ensures cells { IfOk result (λ log. log.cells ≡ length network.now.cells.kinds) }
    ensures founded { IfOk result (λ log.
        AreFounded (stored_of R.value_of network.now.library) network.now.cells
        (set_of premises.now) log.parts) }
    ensures enough { IfOk result (λ log.
        most_steps (problem_of (stored_of R.value_of network.now.library) network.now.cells)
        ≤ budget → Below claim.value (made log.parts claim.cell)) }
    ensures heard { IfOk result (λ log.
        All (Satisfies (set_of premises.now) (made log.parts)) network.now.cells.statements) }
    ensures few { IfOk result (λ log. calls_in log.parts ≤ budget) }
    ensures used { IfOk result (λ log. ¬ (Below claim.value (made log.parts claim.cell))
        → calls_in log.parts ≡ budget) }
{
    let mut log = Log::new(alloc, network.cells())?;
    let mut line = Line::new(alloc, network.instances())?;
    tell(alloc, network.data(), premises, &mut line, &mut log)?;
    for _ in 0..budget {
        if log.made(claim.cell).implies(claim.value) {
            break;
        }
        proceed(alloc, network, &mut line, &mut log)?;
    }
    Ok(log)
}

/// The parts that make up so much of a cell as the premises entail: statements under these premises
/// or under none, and calls. They are looked for in calls of instances that read what is known, up
/// to so many that say more as the budget tells. That is enough where it is no less than the most
/// steps of a run.
pub fn origins<R: Rule + Drop>(
    alloc: Global,
    network: &Network<R>,
    cell: usize,
    why: &Supported<Info>,
    budget: u64,
) -> Result<Composition, AllocError>
    requires means { AllMean R.value_of network.now.library.procedures.items }
    requires kept { IsKept (stored_of R.value_of network.now.library) network.now.cells }
    requires cell { cell < length network.now.cells.kinds }
    requires entails { Entails
        (problem_of (stored_of R.value_of network.now.library) network.now.cells)
        (set_of why.now.support) cell why.now.value }
    ensures whole { IfOk result (λ o. IfWhole o
        (MakeUp (stored_of R.value_of network.now.library) network.now.cells
        (set_of why.now.support) cell why.now.value)) }
    ensures few { IfOk result (λ o. IfWhole o (λ parts. calls_in parts ≤ budget)) }
    ensures cut { IfOk result (λ o. IfCut o (budget
        < most_steps (problem_of (stored_of R.value_of network.now.library) network.now.cells))) }
    ensures short { IfOk result (λ o. IfCut o
        (FallShort (stored_of R.value_of network.now.library) network.now.cells
        (set_of why.now.support) cell why.now.value budget)) }
{
    let value = why.value;
    let log = make(alloc, network, &why.support, Claim { cell, value }, budget)?;
    if !log.made(cell).implies(value) {
        drop(log);
        return Ok(Composition::Cut);
    }
    let parts = prune(alloc, log.into_parts(), network.cells(), cell)?;
    Ok(Composition::Whole(parts))
}
