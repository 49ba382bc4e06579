//! Facts that calls of instances say.
ghost use Rattle.std.specs.Prelude.{◌≡◌, ◌<◌, ◌++◌, length, true, false, Ok, Some, IsTrue, IfOk};
ghost use Rattle.std.specs.Prelude.{All, OnOk, IfSome, OnErr, slice_get, slice_set, List};
ghost use Rattle.std.specs.Bool.{OnFalse, OnTrue};
ghost use Rattle.prop_procedures.specs.Kept.{AllMean, stored_of};
ghost use Rattle.prop_premises.specs.declared.choice.Choice.{Choice};
ghost use Rattle.prop_cells.specs.Data.{IsKept};
ghost use Rattle.prop_cells.specs.Instances.{Instance as InstanceOf};
ghost use Rattle.prop_facts.specs.declared.fact.Literal.{Literal as LiteralOf};
ghost use Rattle.prop_refuting.specs.Calls.{Answers, AreArguments, Excepts, Tells};
ghost use Rattle.prop_refuting.specs.Calls.{literals_but, literals_of};
ghost use Rattle.prop_refuting.specs.Nogoods.{Narrows, Replaces, said_at};
ghost use Rattle.prop_plans.specs.Held.{attached_of};

use crate::nogood::{Nogood, push_said};
use crate::pairs::narrowed;
use prop_cells::{Cells, Instance, Network};
use prop_facts::{Fact, Literal};
use prop_lattice::{Info, Partial};
use prop_procedures::Rule;
use std::alloc::{AllocError, Global};

/// A call of an instance on these arguments, one for each of its inputs.
#[derive(Clone, Copy)]
pub struct Called<'a> {
    pub instance: usize,
    pub args: &'a [Info],
}

/// What a call of an instance is to say of its output: the fact, together with what else is known
/// of it.
#[derive(Clone, Copy, Debug, PartialEq, Eq)]
pub struct Claim {
    pub instance: usize,
    pub rest: Option<Fact>,
    pub fact: Fact,
}

/// Whether there is an information for each cell, of its kind, and no contradiction.
pub(crate) fn are_arguments(cells: &Cells, inputs: &[usize], args: &[Info]) -> bool
    requires { All (λ cell. cell < length cells.now.kinds) inputs.now }
    ensures { IsTrue result → AreArguments cells.now.kinds inputs.now args.now }
{
    if inputs.len() != args.len() {
        return false;
    }
    for (cell, info) in inputs.iter().zip(args) {
        let kind = cells.kind(*cell);
        if !info.is_of(kind.kind, kind.size) || info.is_contradiction() {
            return false;
        }
    }
    true
}

/// What an instance answers to these arguments; none where they are not of its inputs' kinds, or
/// one is a contradiction.
pub fn answer<R: Rule + Drop>(network: &Network<R>, instance: usize, args: &[Info]) -> Option<Info>
    requires instance { instance < length network.now.cells.instances }
    requires means { AllMean R.value_of network.now.library.procedures.items }
    requires kept { IsKept (stored_of R.value_of network.now.library) network.now.cells }
    ensures { IfSome result (λ value. (x : InstanceOf)
        → slice_get network.now.cells.instances instance ≡ Some x
        → Answers (stored_of R.value_of network.now.library) (attached_of network.now.cells)
        x args.now value) }
{
    let x = network.data().instance(instance);
    if !are_arguments(network.data(), x.inputs(), args) {
        return None;
    }
    Some(network.library().call(x.procedure(), x.param(), args))
}

/// Whether an instance's answer to these arguments says what is claimed of its output.
pub fn says<R: Rule + Drop>(network: &Network<R>, claim: Claim, args: &[Info]) -> bool
    requires instance { claim.instance < length network.now.cells.instances }
    requires means { AllMean R.value_of network.now.library.procedures.items }
    requires kept { IsKept (stored_of R.value_of network.now.library) network.now.cells }
    ensures { IsTrue result → (x : InstanceOf)
        → slice_get network.now.cells.instances claim.instance ≡ Some x
        → Tells (stored_of R.value_of network.now.library) (attached_of network.now.cells)
        x args.now claim.rest claim.fact }
{
    match answer(network, claim.instance, args) {
        Some(value) => claim.fact.follows_from(narrowed(value, claim.rest)),
        None => false,
    }
}

/// Puts an information in the place of an argument where that is another one and what is claimed is
/// still said, and tells whether it did.
fn replace_argument<R: Rule + Drop>(
    network: &Network<R>,
    claim: Claim,
    args: &mut [Info],
    place: usize,
    info: Info,
) -> bool
    requires place { place < length args.old }
    requires instance { claim.instance < length network.now.cells.instances }
    requires means { AllMean R.value_of network.now.library.procedures.items }
    requires kept { IsKept (stored_of R.value_of network.now.library) network.now.cells }
    ensures still { OnFalse result (args.new ≡ args.old) }
    ensures replaced { OnTrue result (args.new ≡ slice_set args.old place info) }
    ensures tells { (x : InstanceOf) → slice_get network.now.cells.instances claim.instance ≡ Some x
        → Tells (stored_of R.value_of network.now.library) (attached_of network.now.cells)
        x args.old claim.rest claim.fact
        → Tells (stored_of R.value_of network.now.library) (attached_of network.now.cells)
        x args.new claim.rest claim.fact }
{
    let own = args[place];
    if own == info {
        return false;
    }
    args[place] = info;
    if says(network, claim, args) {
        return true;
    }
    args[place] = own;
    false
}

/// Makes each argument of an instance say less where what is claimed is still said: it is replaced
/// by the widest information of its place, or one end of a span by the widest one's.
pub fn weaken<R: Rule + Drop>(
    network: &Network<R>,
    claim: Claim,
    args: &mut [Info],
    widest: &[Info],
)
    requires widest { length widest.now ≡ length args.old }
    requires instance { claim.instance < length network.now.cells.instances }
    requires means { AllMean R.value_of network.now.library.procedures.items }
    requires kept { IsKept (stored_of R.value_of network.now.library) network.now.cells }
    ensures { (x : InstanceOf) → slice_get network.now.cells.instances claim.instance ≡ Some x
        → Tells (stored_of R.value_of network.now.library) (attached_of network.now.cells)
        x args.old claim.rest claim.fact
        → Tells (stored_of R.value_of network.now.library) (attached_of network.now.cells)
        x args.new claim.rest claim.fact }
{
    for place in 0..args.len() {
        weaken_argument(network, claim, args, place, widest[place]);
    }
}

/// Makes one argument say less where what is claimed is still said.
fn weaken_argument<R: Rule + Drop>(
    network: &Network<R>,
    claim: Claim,
    args: &mut [Info],
    place: usize,
    widest: Info,
)
    requires place { place < length args.old }
    requires instance { claim.instance < length network.now.cells.instances }
    requires means { AllMean R.value_of network.now.library.procedures.items }
    requires kept { IsKept (stored_of R.value_of network.now.library) network.now.cells }
    ensures { (x : InstanceOf) → slice_get network.now.cells.instances claim.instance ≡ Some x
        → Tells (stored_of R.value_of network.now.library) (attached_of network.now.cells)
        x args.old claim.rest claim.fact
        → Tells (stored_of R.value_of network.now.library) (attached_of network.now.cells)
        x args.new claim.rest claim.fact }
{
    let own = args[place];
    if replace_argument(network, claim, args, place, widest) {
        return;
    }
    let (first, second) = with_one_end(claim.fact, own, widest);
    if replace_argument(network, claim, args, place, first) {
        return;
    }
    replace_argument(network, claim, args, place, second);
}

/// A span with one end of a wider one, first that which a fact about an end needs less often; other
/// informations as they are.
fn with_one_end(fact: Fact, own: Info, widest: Info) -> (Info, Info) {
    let (Info::Span(own), Info::Span(widest)) = (own, widest) else {
        return (own, own);
    };
    let higher = Info::between(own.lo(), widest.hi());
    let lower = Info::between(widest.lo(), own.hi());
    match fact {
        Fact::AtMost(_) => (lower, higher),
        _ => (higher, lower),
    }
}

/// The facts that say together that each cell lies in its information, added to others. Refused
/// memory changes nothing that counts.
pub(crate) fn push_parts(
    literals: &mut Vec<Literal>,
    cells: &[usize],
    args: &[Info],
) -> Result<(), AllocError>
    requires { length cells.now ≡ length args.now }
    ensures { OnOk result (literals.new.items
        ≡ literals.old.items ++ literals_of cells.now args.now) }
{
    for (cell, info) in cells.iter().zip(args) {
        let parts = Fact::parts(*info);
        push_said(literals, *cell, parts.first)?;
        push_said(literals, *cell, parts.second)?;
    }
    Ok(())
}

/// The facts that say together that each cell but the one in this place lies in its information.
fn parts_but(
    alloc: Global,
    cells: &[usize],
    args: &[Info],
    place: usize,
) -> Result<Vec<Literal>, AllocError>
    requires same { length cells.now ≡ length args.now }
    requires place { place < length args.now }
    ensures { IfOk result (λ v. v.items ≡ literals_but place cells.now args.now) }
{
    let mut literals = Vec::new(alloc);
    push_parts(&mut literals, &cells[..place], &args[..place])?;
    push_parts(&mut literals, &cells[place + 1..], &args[place + 1..])?;
    Ok(literals)
}

impl Nogood {
    /// Where a literal is about the output of an instance, and what the instance answers to the
    /// arguments says its fact, together with the rest: the literal goes, the last one stands in
    /// its place, the facts that say together that each input lies in its argument come, and the
    /// rest, and the answer is true. Otherwise, and where memory is refused, nothing changes.
    pub fn by_call<R: Rule + Drop>(
        &mut self,
        network: &Network<R>,
        at: usize,
        call: Called<'_>,
        rest: Option<Fact>,
    ) -> Result<bool, AllocError>
        requires at { at < length self.old.literals }
        requires instance { call.instance < length network.now.cells.instances }
        requires means { AllMean R.value_of network.now.library.procedures.items }
        requires kept { IsKept (stored_of R.value_of network.now.library) network.now.cells }
        ensures err { OnErr result (self.new ≡ self.old) }
        ensures still { result ≡ Ok false → self.new ≡ self.old }
        ensures step { result ≡ Ok true → (x : InstanceOf)
            → slice_get network.now.cells.instances call.entry.instance ≡ Some x
            → Replaces self.old at
            (literals_of x.inputs call.entry.args.now ++ said_at x.output rest) self.new }
        ensures narrows { (choices : List Choice)
            → Narrows (stored_of R.value_of network.now.library) (attached_of network.now.cells)
            choices self.old self.new }
    {
        let literal = self.literals()[at];
        let claim = Claim {
            instance: call.instance,
            rest,
            fact: literal.fact,
        };
        if network.output(call.instance) != literal.place || !says(network, claim, call.args) {
            return Ok(false);
        }
        let x = network.data().instance(call.instance);
        let mut more = Vec::new(self.alloc());
        push_parts(&mut more, x.inputs(), call.args)?;
        push_said(&mut more, literal.place, rest)?;
        self.replace(at, &more)?;
        Ok(true)
    }

    /// Where a literal says which number the output of an instance isn't, the output is also its
    /// input with the number `place`, that argument leaves the number, and what the instance
    /// answers to the arguments doesn't: the literal goes, the last one stands in its place, the
    /// facts that say together that each other input lies in its argument come, and the answer is
    /// true. Otherwise, and where memory is refused, nothing changes.
    pub fn by_narrowed_call<R: Rule + Drop>(
        &mut self,
        network: &Network<R>,
        at: usize,
        call: Called<'_>,
        place: usize,
    ) -> Result<bool, AllocError>
        requires at { at < length self.old.literals }
        requires instance { call.instance < length network.now.cells.instances }
        requires means { AllMean R.value_of network.now.library.procedures.items }
        requires kept { IsKept (stored_of R.value_of network.now.library) network.now.cells }
        ensures err { OnErr result (self.new ≡ self.old) }
        ensures still { result ≡ Ok false → self.new ≡ self.old }
        ensures step { result ≡ Ok true → (x : InstanceOf)
            → slice_get network.now.cells.instances call.entry.instance ≡ Some x
            → Replaces self.old at (literals_but place x.inputs call.entry.args.now) self.new }
        ensures narrows { (choices : List Choice)
            → Narrows (stored_of R.value_of network.now.library) (attached_of network.now.cells)
            choices self.old self.new }
    {
        let literal = self.literals()[at];
        if network.output(call.instance) != literal.place
            || !takes_away(network, call, place, literal.fact)
        {
            return Ok(false);
        }
        let x = network.data().instance(call.instance);
        let more = parts_but(self.alloc(), x.inputs(), call.args, place)?;
        self.replace(at, &more)?;
        Ok(true)
    }
}

/// Whether a fact says which number the output of an instance isn't, the output is also its input
/// with this number, that argument leaves the number, and what the instance answers doesn't.
fn takes_away<R: Rule + Drop>(
    network: &Network<R>,
    call: Called<'_>,
    place: usize,
    fact: Fact,
) -> bool
    requires instance { call.instance < length network.now.cells.instances }
    requires means { AllMean R.value_of network.now.library.procedures.items }
    requires kept { IsKept (stored_of R.value_of network.now.library) network.now.cells }
    ensures { IsTrue result → (x : InstanceOf)
        → slice_get network.now.cells.instances call.entry.instance ≡ Some x
        → Excepts (stored_of R.value_of network.now.library) (attached_of network.now.cells) x
        call.entry.args.now place fact }
{
    let Fact::Other(n) = fact else {
        return false;
    };
    let x = network.data().instance(call.instance);
    if !is_input(x, place) || !fact.is_of(network.data().kind(x.output()).kind) {
        return false;
    }
    if place >= call.args.len() {
        return false;
    }
    if Fact::Is(n).is_barred_by(call.args[place]) {
        return false;
    }
    match answer(network, call.instance, call.args) {
        Some(value) => Fact::Is(n).is_barred_by(value),
        None => false,
    }
}

/// Whether the output of an instance is also its input with this number.
fn is_input(x: &Instance, place: usize) -> bool
    ensures { IsTrue result → slice_get x.now.inputs place ≡ Some x.now.output }
{
    place < x.inputs().len() && x.inputs()[place] == x.output()
}
