//! What the words of a definition stand for.
ghost use Rattle.std.specs.Prelude.{◌≡◌, All, map, IfOk, IfSome};
ghost use Rattle.std.specs.List.{list_any};
ghost use Rattle.prop_procedures.specs.Kept.{stored_of};
ghost use Rattle.prop_language.specs.Said.{passed_of, step_of};
ghost use Rattle.prop_compound.specs.Kinds.{IsSized, IsLocalOf};
ghost use Rattle.prop_compound.specs.Defining.{passing_named, step_numbered, is_domain_missing};
ghost use Rattle.prop_compound.specs.Defining.{is_relation_missing, is_unknown, is_count_wrong};
ghost use Rattle.prop_compound.specs.inner.Defining.{used_by, is_unknown_by, numbered_by};

use crate::definition::{NumberedStep, Passing, Places, Used};
use crate::definitions::Definitions;
use crate::kinds::kind_named;
use prop_language::{By, Passed, Step};
use prop_procedures::fitting::span_kinded;
use prop_procedures::{Library, Rule};
use prop_vocabulary::{Names, Vocabulary};
use std::alloc::{AllocError, Global};

/// What is passed, by numbers.
fn passing_named(words: &Vocabulary, passed: Passed) -> Passing
    ensures { result ≡ passing_named words.now (passed_of passed.entry) }
{
    match passed {
        Passed::Own => Passing::Own,
        Passed::Said(By::Nothing) => Passing::Nothing,
        Passed::Said(By::Number(scale)) => Passing::Scale(scale),
        Passed::Said(By::Relation(name)) => {
            Passing::Relation(words.relation_number(name).unwrap_or(0))
        }
    }
}

/// Whether the step makes a local of a kind that is no domain's.
fn is_domain_missing(words: &Vocabulary, step: &Step) -> bool
    ensures { result ≡ is_domain_missing words.now (step_of step.now) }
{
    match step {
        Step::Local(_, kind) => kind_named(words, *kind).is_none(),
        _ => false,
    }
}

/// Whether some step does.
pub(crate) fn has_domain_missing(words: &Vocabulary, steps: &[Step]) -> bool
    ensures { result ≡ list_any (λ step. is_domain_missing words.now (step_of step)) steps.now }
{
    steps.iter().any(
        |step: &Step| -> bool
            ensures { result ≡ is_domain_missing words.entry.now (step_of step.now) }
        { is_domain_missing(words, step) },
    )
}

/// Whether the step passes a relation that there is not.
fn is_relation_missing(words: &Vocabulary, step: &Step) -> bool
    ensures { result ≡ is_relation_missing words.now (step_of step.now) }
{
    match step {
        Step::Use(_, _, Passed::Said(By::Relation(name))) => words.relation_number(name).is_none(),
        _ => false,
    }
}

/// Whether some step does.
pub(crate) fn has_relation_missing(words: &Vocabulary, steps: &[Step]) -> bool
    ensures { result ≡ list_any (λ step. is_relation_missing words.now (step_of step)) steps.now }
{
    steps.iter().any(
        |step: &Step| -> bool
            ensures { result ≡ is_relation_missing words.entry.now (step_of step.now) }
        { is_relation_missing(words, step) },
    )
}

/// Steps by numbers, and whether some use what isn't there, or another number of cells than wanted.
#[derive(Drop)]
pub(crate) struct Resolved {
    pub(crate) steps: Vec<NumberedStep>,
    pub(crate) is_unknown: bool,
    pub(crate) is_count_wrong: bool,
}

/// Whether the step uses what is neither a procedure nor a definition, where it uses this.
fn is_unknown(step: &Step, used: Option<Used>) -> bool
    ensures { result ≡ is_unknown_by used (step_of step.now) }
{
    match step {
        Step::Use(_, _, _) => used.is_none(),
        _ => false,
    }
}

/// The step by numbers, where it uses this.
fn numbered(
    alloc: Global,
    words: &Vocabulary,
    scope: &Names,
    step: &Step,
    used: Option<Used>,
) -> Result<NumberedStep, AllocError>
    ensures numbered { IfOk result
        (λ numbered. numbered ≡ numbered_by words.now scope.now used (step_of step.now)) }
    ensures local { IfOk result (IsLocalOf (IsSized words.now)) }
{
    match step {
        Step::Local(_, kind) => {
            let kind = kind_named(words, *kind).unwrap_or(span_kinded());
            Ok(NumberedStep::Local(kind))
        }
        Step::Like(_, like) => Ok(NumberedStep::Like(scope.number(like))),
        Step::Use(_, cells, passed) => {
            let used = used.unwrap_or(Used::Procedure(0));
            let places = Places::new(scope.numbers(alloc, cells)?);
            Ok(NumberedStep::Use(used, places, passing_named(words, *passed)))
        }
    }
}

impl Definitions {
    /// What the step uses: nothing where it makes a local, or where what it names isn't there. It
    /// is looked up unless the step before it, which used `before`, has the same name.
    fn used_by<R: Rule + Drop>(
        &self,
        library: &Library<R>,
        step: &Step,
        previous: Option<&Step>,
        before: Option<Used>,
    ) -> Option<Used>
        requires { IfSome previous (λ it. before
            ≡ used_by (stored_of R.value_of library.now) self.now (step_of it.now)) }
        ensures used { result
            ≡ used_by (stored_of R.value_of library.now) self.now (step_of step.now) }
    {
        let Step::Use(name, _, _) = step else {
            return None;
        };
        match previous {
            Some(Step::Use(other, _, _)) if other == name => before,
            _ => self.used(library, name),
        }
    }

    /// Whether a step that uses this on so many cells should name another number of them.
    fn is_count_wrong<R: Rule + Drop>(
        &self,
        library: &Library<R>,
        step: &Step,
        used: Option<Used>,
    ) -> bool
        requires { used ≡ used_by (stored_of R.value_of library.now) self.now (step_of step.now) }
        ensures { result ≡ is_count_wrong (stored_of R.value_of library.now) self.now
            (step_of step.now) }
    {
        let _ = &self.names;
        match (step, used) {
            (Step::Use(_, cells, _), Some(used)) => self.is_miscounted(library, used, cells.len()),
            _ => false,
        }
    }

    /// The steps by numbers.
    pub(crate) fn all_numbered<R: Rule + Drop>(
        &self,
        alloc: Global,
        library: &Library<R>,
        words: &Vocabulary,
        scope: &Names,
        steps: &[Step],
    ) -> Result<Resolved, AllocError>
        ensures steps { IfOk result (λ all. all.steps.items ≡ map
            (step_numbered (stored_of R.value_of library.now) words.now self.now scope.now)
            (map step_of steps.now)) }
        ensures locals { IfOk result (λ all. All (IsLocalOf (IsSized words.now)) all.steps.items) }
        ensures unknown { IfOk result (λ all. all.is_unknown ≡ list_any
            (is_unknown (stored_of R.value_of library.now) self.now) (map step_of steps.now)) }
        ensures counts { IfOk result (λ all. all.is_count_wrong ≡ list_any
            (is_count_wrong (stored_of R.value_of library.now) self.now)
            (map step_of steps.now)) }
    {
        let mut all = Resolved {
            steps: Vec::new(alloc),
            is_unknown: false,
            is_count_wrong: false,
        };
        let mut previous: Option<&Step> = None;
        let mut used: Option<Used> = None;
        for step in steps {
            used = self.used_by(library, step, previous, used);
            previous = Some(step);
            all.is_unknown = all.is_unknown || is_unknown(step, used);
            all.is_count_wrong = all.is_count_wrong || self.is_count_wrong(library, step, used);
            all.steps.push(numbered(alloc, words, scope, step, used)?)?;
        }
        Ok(all)
    }
}
