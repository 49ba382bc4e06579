//! For how much a use of a definition stands, known before anything is made.
ghost use Rattle.std.specs.Prelude.{◌≡◌, ◌+◌, min, All, length, sum_by, IfOk, IfErr};
ghost use Rattle.std.specs.List.{list_any};
ghost use Rattle.prop_refusals.specs.Refusals.{most};
ghost use Rattle.prop_refusals.specs.declared.refusal.Limit.TheVariants.{Cells, Instances};
ghost use Rattle.prop_compound.specs.Definitions.{is_passing_on};
ghost use Rattle.prop_compound.specs.Kept.{all_bare};
ghost use Rattle.prop_compound.specs.inner.Kept.{fresh_of, instances_of, total_of, IsUseBelow};
ghost use Rattle.prop_compound.specs.inner.Kept.{AreKept, IsCounted};
ghost use Rattle.prop_compound.specs.Expansion.{spare_of, is_spare};

use crate::definition::{KeptDefinition, NumberedStep, Passing, Used, passes_something};
use crate::shortening::push_plan;
use prop_lattice::{Limit, Refusal};
use std::alloc::Global;

/// Whether some step hands on what the definition itself is given.
fn is_taking(steps: &[NumberedStep]) -> bool
    ensures { result ≡ list_any is_passing_on steps.now }
{
    steps.iter().any(
        |step: &NumberedStep| -> bool
            ensures { result ≡ is_passing_on step.now }
        { matches!(step, NumberedStep::Use(_, _, Passing::Own)) },
    )
}

/// Whether the step, in a definition that is given something or is not, gives some definition a
/// parameter that it does not take.
fn is_spare(definitions: &[KeptDefinition], step: &NumberedStep, given: bool) -> bool
    requires kept { AreKept definitions.now }
    requires used { IsUseBelow (all_bare definitions.now) (length definitions.now) step.now }
    ensures { result ≡ spare_of (is_spare (all_bare definitions.now)) given step.now }
{
    match step {
        NumberedStep::Local(_) | NumberedStep::Like(_) => false,
        NumberedStep::Use(used, _, passing) => match *used {
            Used::Procedure(_) => false,
            Used::Definition(earlier) => {
                definitions[earlier].is_spare(passes_something(given, *passing))
            }
        },
    }
}

/// Whether some step does.
fn has_spare(definitions: &[KeptDefinition], steps: &[NumberedStep], given: bool) -> bool
    requires kept { AreKept definitions.now }
    requires used { All (IsUseBelow (all_bare definitions.now) (length definitions.now)) steps.now }
    ensures { result ≡ list_any (spare_of (is_spare (all_bare definitions.now)) given) steps.now }
{
    for step in steps {
        if is_spare(definitions, step, given) {
            return true;
        }
    }
    false
}

/// How many fresh cells the step stands for, up to one past the limit.
fn fresh_of(definitions: &[KeptDefinition], step: &NumberedStep) -> usize
    requires kept { AreKept definitions.now }
    requires used { IsUseBelow (all_bare definitions.now) (length definitions.now) step.now }
    ensures { result ≡ min (most Cells + 1)
        (fresh_of (total_of fresh_of (all_bare definitions.now)) step.now) }
{
    match step {
        NumberedStep::Local(_) | NumberedStep::Like(_) => 1,
        NumberedStep::Use(Used::Procedure(_), _, _) => 0,
        NumberedStep::Use(Used::Definition(number), _, _) => definitions[*number].fresh,
    }
}

/// How many instances the step stands for, up to one past the limit.
fn instances_of(definitions: &[KeptDefinition], step: &NumberedStep) -> usize
    requires kept { AreKept definitions.now }
    requires used { IsUseBelow (all_bare definitions.now) (length definitions.now) step.now }
    ensures { result ≡ min (most Instances + 1)
        (instances_of (total_of instances_of (all_bare definitions.now)) step.now) }
{
    match step {
        NumberedStep::Local(_) | NumberedStep::Like(_) => 0,
        NumberedStep::Use(Used::Procedure(_), _, _) => 1,
        NumberedStep::Use(Used::Definition(number), _, _) => definitions[*number].instances,
    }
}

/// How many fresh cells the steps stand for, up to one past the limit.
fn all_fresh(definitions: &[KeptDefinition], steps: &[NumberedStep]) -> usize
    requires kept { AreKept definitions.now }
    requires used { All (IsUseBelow (all_bare definitions.now) (length definitions.now)) steps.now }
    ensures { result ≡ min (most Cells + 1)
        (sum_by (fresh_of (total_of fresh_of (all_bare definitions.now))) steps.now) }
{
    let mut total = 0;
    for step in steps {
        total = (total + fresh_of(definitions, step)).min(Limit::Cells.most() + 1);
    }
    total
}

/// How many instances the steps stand for, up to one past the limit.
fn all_instances(definitions: &[KeptDefinition], steps: &[NumberedStep]) -> usize
    requires kept { AreKept definitions.now }
    requires used { All (IsUseBelow (all_bare definitions.now) (length definitions.now)) steps.now }
    ensures { result ≡ min (most Instances + 1)
        (sum_by (instances_of (total_of instances_of (all_bare definitions.now))) steps.now) }
{
    let mut total = 0;
    for step in steps {
        total = (total + instances_of(definitions, step)).min(Limit::Instances.most() + 1);
    }
    total
}

/// The definition with these steps, and what is known of its uses, or 90.
pub(crate) fn counted(
    alloc: Global,
    definitions: &[KeptDefinition],
    params: usize,
    steps: Vec<NumberedStep>,
) -> Result<KeptDefinition, Refusal>
    requires kept { AreKept definitions.now }
    requires used { All (IsUseBelow (all_bare definitions.now) (length definitions.now))
        steps.items }
    ensures counted { IfOk result (IsCounted definitions.now params steps.items) }
    ensures err { IfErr result (λ e. e ≡ Refusal.Memory) }
{
    let mut plan = Vec::new(alloc);
    push_plan(alloc, definitions, &steps, &mut plan)?;
    Ok(KeptDefinition {
        params,
        spare_given: !is_taking(&steps) || has_spare(definitions, &steps, true),
        spare_bare: has_spare(definitions, &steps, false),
        fresh: all_fresh(definitions, &steps),
        instances: all_instances(definitions, &steps),
        steps,
        plan,
    })
}
