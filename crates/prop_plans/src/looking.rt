//! Looks at the values of a plan: at each by itself, at what is stated, and at each instance.
ghost use Rattle.std.specs.Prelude.{◌≡◌, ◌↔◌, ◌<◌, ◌≤◌, All, IsTrue, Some, length, map};
ghost use Rattle.std.specs.Prelude.{slice_get};
ghost use Rattle.prop_arith.specs.Comparing.{is_single};
ghost use Rattle.prop_numbers.specs.Sets.{set_of};
ghost use Rattle.prop_procedures.specs.Kept.{AllMean, stored_of};
ghost use Rattle.prop_cells.specs.Data.{IsKept};
ghost use Rattle.prop_cells.specs.Instances.{Instance as InstanceOf, constraint_of};
ghost use Rattle.prop_cells.specs.Problems.{is_member};
ghost use Rattle.prop_cells.specs.inner.Problems.{Meets, Satisfies};
ghost use Rattle.prop_plans.specs.Plans.{AreMet, AreValues, IsValueOf, value_in};

use prop_cells::{Cells, Network, Statement};
use prop_lattice::{Info, Partial};
use prop_premises::{Premise, Worldview};
use prop_procedures::{Kinded, Rule};

/// How many inputs a procedure may have.
const MOST_INPUTS: usize = 384;

/// As many inputs as most instances have at the most: room for more is filled for the others alone.
const FEW: usize = 16;

/// Whether an information leaves one point alone: one number, one element or a symbol.
fn is_single(info: Info) -> bool
    ensures { result ≡ is_single info }
{
    match info {
        Info::Span(span) => span.lo() == span.hi(),
        Info::Set(elements) => elements.bits().count_ones() == 1,
        Info::Sym(_) => true,
        Info::Nothing | Info::Contradiction => false,
    }
}

/// Whether an information is of a kind and leaves one point alone.
fn is_value_of(info: Info, kind: Kinded) -> bool
    ensures { IsTrue result ↔ IsValueOf kind info }
{
    info.is_of(kind.kind, kind.size) && is_single(info)
}

/// Whether there is a value of its kind for each cell, and no other.
pub(crate) fn are_values(values: &[Info], cells: &Cells) -> bool
    ensures { IsTrue result ↔ AreValues cells.now.kinds values.now }
{
    if values.len() != cells.len() {
        return false;
    }
    for cell in 0..cells.len() {
        if !is_value_of(values[cell], cells.kind(cell)) {
            return false;
        }
    }
    true
}

/// Whether a premise, where there is one, is believed.
fn is_believed(premise: Option<Premise>, view: &Worldview) -> bool
    ensures { result ≡ is_member (set_of view.now) premise }
{
    match premise {
        None => true,
        Some(premise) => view.has(premise),
    }
}

/// Whether a statement, where it is believed, is implied by its cell's value.
fn is_implied(statement: &Statement, values: &[Info], view: &Worldview) -> bool
    requires { statement.now.cell < length values.now }
    ensures { IsTrue result ↔ Satisfies (set_of view.now) (value_in values.now) statement.now }
{
    !is_believed(statement.premise, view) || values[statement.cell].implies(statement.info)
}

/// Whether each statement that is believed is implied by its cell's value.
pub(crate) fn are_implied(statements: &[Statement], values: &[Info], view: &Worldview) -> bool
    requires { All (λ x. x.cell < length values.now) statements.now }
    ensures { IsTrue result ↔ All (Satisfies (set_of view.now) (value_in values.now))
        statements.now }
{
    for statement in statements {
        if !is_implied(statement, values, view) {
            return false;
        }
    }
    true
}

/// Writes the values of these cells into as many places.
fn gather(values: &[Info], cells: &[usize], args: &mut [Info])
    requires cells { All (λ c. c < length values.now) cells.now }
    requires places { length args.old ≡ length cells.now }
    ensures { args.new ≡ map (value_in values.now) cells.now }
{
    for i in 0..cells.len() {
        args[i] = values[cells[i]];
    }
}

/// Whether what an instance answers on its inputs' values is implied by its output's value. There
/// are as many places for these values as it has inputs.
fn is_met_in<R: Rule + Drop>(
    network: &Network<R>,
    values: &[Info],
    number: usize,
    args: &mut [Info],
) -> bool
    requires means { AllMean R.value_of network.now.library.procedures.items }
    requires kept { IsKept (stored_of R.value_of network.now.library) network.now.cells }
    requires values { AreValues network.now.cells.kinds values.now }
    requires number { number < length network.now.cells.instances }
    requires places { (x : InstanceOf) → slice_get network.now.cells.instances number ≡ Some x
        → length args.old ≡ length x.inputs }
    ensures { (x : InstanceOf) → slice_get network.now.cells.instances number ≡ Some x
        → (IsTrue result ↔ Meets (value_in values.now)
        (constraint_of (stored_of R.value_of network.now.library) x)) }
{
    let x = network.data().instance(number);
    gather(values, x.inputs(), args);
    let answer = network.library().call(x.procedure(), x.param(), args);
    values[x.output()].implies(answer)
}

/// Whether what an instance answers on its inputs' values is implied by its output's value.
fn is_met<R: Rule + Drop>(network: &Network<R>, values: &[Info], number: usize) -> bool
    requires means { AllMean R.value_of network.now.library.procedures.items }
    requires kept { IsKept (stored_of R.value_of network.now.library) network.now.cells }
    requires values { AreValues network.now.cells.kinds values.now }
    requires number { number < length network.now.cells.instances }
    ensures { (x : InstanceOf) → slice_get network.now.cells.instances number ≡ Some x
        → (IsTrue result ↔ Meets (value_in values.now)
        (constraint_of (stored_of R.value_of network.now.library) x)) }
{
    let x = network.data().instance(number);
    let count = x.inputs().len();
    if count <= FEW {
        let mut room = [Info::Nothing; FEW];
        return is_met_in(network, values, number, &mut room[..count]);
    }
    is_met_of_many(network, values, number)
}

/// The same of an instance with any count of inputs. A function fills all its room as it begins, so
/// this one stands by itself.
#[inline(never)]
fn is_met_of_many<R: Rule + Drop>(network: &Network<R>, values: &[Info], number: usize) -> bool
    requires means { AllMean R.value_of network.now.library.procedures.items }
    requires kept { IsKept (stored_of R.value_of network.now.library) network.now.cells }
    requires values { AreValues network.now.cells.kinds values.now }
    requires number { number < length network.now.cells.instances }
    ensures { (x : InstanceOf) → slice_get network.now.cells.instances number ≡ Some x
        → (IsTrue result ↔ Meets (value_in values.now)
        (constraint_of (stored_of R.value_of network.now.library) x)) }
{
    let x = network.data().instance(number);
    let count = x.inputs().len();
    let mut room = [Info::Nothing; MOST_INPUTS];
    is_met_in(network, values, number, &mut room[..count])
}

/// The first instance from one on, before another, that is not met, or that other one.
pub(crate) fn first_unmet<R: Rule + Drop>(
    network: &Network<R>,
    values: &[Info],
    from: usize,
    end: usize,
) -> usize
    requires means { AllMean R.value_of network.now.library.procedures.items }
    requires kept { IsKept (stored_of R.value_of network.now.library) network.now.cells }
    requires values { AreValues network.now.cells.kinds values.now }
    requires order { from ≤ end }
    requires end { end ≤ length network.now.cells.instances }
    requires met { AreMet (stored_of R.value_of network.now.library) network.now.cells values.now
        from }
    ensures range { (from ≤ result) × (result ≤ end) }
    ensures met { AreMet (stored_of R.value_of network.now.library) network.now.cells values.now
        result }
    ensures unmet { result < end → (x : InstanceOf)
        → slice_get network.now.cells.instances result ≡ Some x → ¬ (Meets (value_in values.now)
        (constraint_of (stored_of R.value_of network.now.library) x)) }
{
    for number in from..end {
        if !is_met(network, values, number) {
            return number;
        }
    }
    end
}
