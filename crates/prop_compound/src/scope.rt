//! The parameters and locals of a definition by name.
ghost use Rattle.std.specs.Prelude.{◌≡◌, ◌≤◌, ◌+◌, ◌++◌, ◌∷◌, [], false, is_none, length, map};
ghost use Rattle.std.specs.Prelude.{take, drop, IfErr, OnOk};
ghost use Rattle.std.specs.List.{flat_map, list_any};
ghost use Rattle.prop_sets.specs.Names.{has_repeat};
ghost use Rattle.prop_sets.specs.inner.Names.{is_among};
ghost use Rattle.prop_vocabulary.specs.Names.{number_in, is_missing};
ghost use Rattle.prop_language.specs.Said.{words as words_of, step_of};
ghost use Rattle.prop_compound.specs.Defining.{locals_of, scope_of, cells_in, is_cell_missing};
ghost use Rattle.prop_compound.specs.inner.Defining.{IsNameReason};

use prop_language::Step;
use prop_lattice::Refusal;
use prop_vocabulary::Names;
use std::alloc::Global;

/// Puts one more name last, `NameTaken` where it is there already.
fn push_new(alloc: Global, scope: &mut Names, name: &str) -> Result<(), Refusal>
    ensures ok { OnOk result (scope.new ≡ scope.old ++ name.now ∷ []) }
    ensures new { OnOk result (is_among name.now scope.old ≡ false) }
    ensures why { IfErr result (IsNameReason (is_among name.now scope.old)) }
{
    if scope.find(name).is_some() {
        return Err(Refusal::NameTaken);
    }
    scope.push(alloc, name)?;
    Ok(())
}

/// Puts the parameters last, `NameTaken` where a name would stand twice.
fn push_params(alloc: Global, scope: &mut Names, params: &[&str]) -> Result<(), Refusal>
    requires { has_repeat scope.old ≡ false }
    ensures ok { OnOk result (scope.new ≡ scope.old ++ words_of params.now) }
    ensures apart { OnOk result (has_repeat scope.new ≡ false) }
    ensures why { IfErr result (IsNameReason (has_repeat (scope.old ++ words_of params.now))) }
{
    for param in params {
        push_new(alloc, scope, param)?;
    }
    Ok(())
}

/// Puts the local that a step makes last, if it makes one.
fn push_local(alloc: Global, scope: &mut Names, step: &Step) -> Result<(), Refusal>
    requires { has_repeat scope.old ≡ false }
    ensures ok { OnOk result (scope.new ≡ scope.old ++ locals_of (step_of step.now)) }
    ensures apart { OnOk result (has_repeat scope.new ≡ false) }
    ensures why { IfErr result (IsNameReason
        (has_repeat (scope.old ++ locals_of (step_of step.now)))) }
{
    match step {
        Step::Local(name, _) | Step::Like(name, _) => push_new(alloc, scope, name),
        Step::Use(_, _, _) => Ok(()),
    }
}

/// Puts the locals of the steps last, `NameTaken` where a name would stand twice.
fn push_locals(alloc: Global, scope: &mut Names, steps: &[Step]) -> Result<(), Refusal>
    requires { has_repeat scope.old ≡ false }
    ensures ok { OnOk result (scope.new ≡ scope.old ++ flat_map locals_of (map step_of steps.now)) }
    ensures apart { OnOk result (has_repeat scope.new ≡ false) }
    ensures why { IfErr result (IsNameReason
        (has_repeat (scope.old ++ flat_map locals_of (map step_of steps.now)))) }
{
    for step in steps {
        push_local(alloc, scope, step)?;
    }
    Ok(())
}

/// Puts the parameters and after them the locals into an empty scope, `NameTaken` where a name
/// would stand twice.
pub(crate) fn push_names(
    alloc: Global,
    scope: &mut Names,
    params: &[&str],
    steps: &[Step],
) -> Result<(), Refusal>
    requires { scope.old ≡ [] }
    ensures ok { OnOk result (scope.new ≡ scope_of (words_of params.now) (map step_of steps.now)) }
    ensures apart { OnOk result (has_repeat
        (scope_of (words_of params.now) (map step_of steps.now)) ≡ false) }
    ensures why { IfErr result (IsNameReason
        (has_repeat (scope_of (words_of params.now) (map step_of steps.now)))) }
{
    push_params(alloc, scope, params)?;
    push_locals(alloc, scope, steps)
}

/// Whether the name is none of the first so many.
fn is_unseen(scope: &Names, seen: usize, name: &str) -> bool
    ensures { result ≡ is_none (number_in (take seen scope.now) name.now) }
{
    match scope.find(name) {
        Some(place) => seen <= place,
        None => true,
    }
}

/// Whether one of the names is none of the first so many.
fn has_unseen(scope: &Names, seen: usize, names: &[&str]) -> bool
    ensures { result ≡ list_any (λ name. is_none (number_in (take seen scope.now) name.now))
        names.now }
{
    names.iter().any(
        |name: &&str| -> bool
            ensures { result ≡ is_none (number_in (take seen scope.entry.now) name.now.now) }
        { is_unseen(scope, seen, name) },
    )
}

/// Whether the step names a cell that is none of the first so many.
#[tactic(auto, using(crate::proofs::Scoping::late_words))]
fn names_unseen(scope: &Names, seen: usize, step: &Step) -> bool
    ensures { result ≡ is_missing (take seen scope.now) (cells_in (step_of step.now)) }
{
    match step {
        Step::Local(_, _) => false,
        Step::Like(_, like) => is_unseen(scope, seen, like),
        Step::Use(_, cells, _) => has_unseen(scope, seen, cells),
    }
}

/// How many locals a step makes.
fn count_locals(step: &Step) -> usize
    ensures { result ≡ length (locals_of (step_of step.now)) }
{
    match step {
        Step::Local(_, _) | Step::Like(_, _) => 1,
        Step::Use(_, _, _) => 0,
    }
}

/// Whether a step names a cell that is neither a parameter, of which there are so many, nor an
/// earlier local.
pub(crate) fn is_cell_missing(scope: &Names, params: usize, steps: &[Step]) -> bool
    requires count { params ≤ length scope.now }
    requires locals { drop params scope.now ≡ flat_map locals_of (map step_of steps.now) }
    ensures { result ≡ is_cell_missing (take params scope.now) (map step_of steps.now) }
{
    let all = scope.len();
    let mut seen = params;
    for step in steps {
        if names_unseen(scope, seen, step) {
            return true;
        }
        let locals = count_locals(step);
        prove!(seen + locals <= all);
        seen += locals;
    }
    false
}
