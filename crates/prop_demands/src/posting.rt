//! What an expression becomes, as it is posted.

ghost use Rattle.std.specs.Prelude.{◌≡◌, ◌⊎◌, map, true, IfErr, IfOk};
ghost use Rattle.prop_terms.specs.Terms.{term_of};
ghost use Rattle.prop_meaning.specs.Foreseeing.{IsForeseen};
ghost use Rattle.prop_demands.specs.Refusing.{is_of_term};
ghost use Rattle.prop_demands.specs.inner.Glossaries.{lexicon_in, seen_of};
ghost use Rattle.prop_demands.specs.inner.Postings.{IsPostingOf, IsUnderstood, constant_of};

use crate::fitting::fits;
use crate::forms::Numbers;
use crate::reading::Glossary;
use prop_lattice::{Info, Kind};
use prop_meaning::{Foreseen, Posted, Why, flat, foresee, kind_of_term, post};
use prop_procedures::Kinded;
use prop_procedures::fitting::span_kinded;
use prop_refusals::Refusal;
use prop_terms::Term;
use prop_workbench::{Posting, Stated};
use std::alloc::{AllocError, Global};

/// Why a term is refused, as a line is.
fn refusal_of(why: Why) -> Refusal
    ensures { (result ≡ Refusal.Memory) ⊎ (is_of_term result ≡ true) }
{
    match why {
        Why::Memory => Refusal::Memory,
        Why::NoSuchCell => Refusal::NoSuchCell,
        Why::NotInDomain => Refusal::NotInTheDomain,
        Why::WrongKind => Refusal::WrongKind,
        Why::OutOfRange | Why::MayBeZero | Why::MayBeMissing => Refusal::NotANumber,
        Why::NoSuchRelation => Refusal::NoSuchRelation,
        Why::TwoReadings | Why::WrongForm => Refusal::WrongForm,
    }
}

/// What the constants are, at their places.
fn constants(alloc: Global, posted: &Posted) -> Result<Vec<Stated>, AllocError>
    ensures { IfOk result (λ v. map constant_of v.items ≡ posted.now.constants.items) }
{
    let mut fixed = Vec::new(alloc);
    for number in 0..posted.constants.len() {
        let (place, info) = posted.constants[number];
        fixed.push(Stated { place, info })?;
    }
    Ok(fixed)
}

/// What was posted, as the session takes it: the result is told to be `yes`.
fn posting_of(alloc: Global, posted: &Posted) -> Result<Posting, AllocError>
    ensures { IfOk result (λ p. IsPostingOf posted.now p) }
{
    let flat = flat(alloc, &Numbers, posted)?;
    let fixed = constants(alloc, posted)?;
    let told = Stated {
        place: posted.result,
        info: Info::from_bits(1),
    };
    Ok(Posting { flat, fixed, told })
}

/// What a term becomes, as the session takes it.
pub(crate) fn posting(
    alloc: Global,
    glossary: &Glossary<'_>,
    term: &Term<'_>,
) -> Result<Posting, Refusal>
    ensures understood { IfOk result (λ p. IsUnderstood (lexicon_in (seen_of glossary.now))
        glossary.now.words.now glossary.now.cells.now.kinds (term_of term.now) p) }
    ensures refused { IfErr result (λ e. (e ≡ Refusal.Memory) ⊎ (is_of_term e ≡ true)) }
{
    let posted = match post(alloc, glossary, term) {
        Ok(posted) => posted,
        Err(fault) => return Err(refusal_of(fault.why)),
    };
    if !fits(glossary, &posted) {
        return Err(Refusal::WrongKind);
    }
    Ok(posting_of(alloc, &posted)?)
}

/// What is foreseen of a term's value, which is to be of a kind.
fn foreseen_as(
    alloc: Global,
    glossary: &Glossary<'_>,
    term: &Term<'_>,
    kinded: Kinded,
) -> Result<Foreseen, Refusal>
    ensures foreseen { IfOk result
        (λ f. IsForeseen (lexicon_in (seen_of glossary.now)) (term_of term.now) f.known) }
    ensures refused { IfErr result (λ e. (e ≡ Refusal.Memory) ⊎ (is_of_term e ≡ true)) }
{
    match foresee(alloc, glossary, term, kinded) {
        Ok(foreseen) => Ok(foreseen),
        Err(fault) => Err(refusal_of(fault.why)),
    }
}

/// What is foreseen of a term's value. What shows no kind of its own, as `yes`, may be a truth, and
/// is told to be no number else.
pub(crate) fn foreseen_of(
    alloc: Global,
    glossary: &Glossary<'_>,
    term: &Term<'_>,
) -> Result<Foreseen, Refusal>
    ensures foreseen { IfOk result
        (λ f. IsForeseen (lexicon_in (seen_of glossary.now)) (term_of term.now) f.known) }
    ensures refused { IfErr result (λ e. (e ≡ Refusal.Memory) ⊎ (is_of_term e ≡ true)) }
{
    if let Some(kinded) = kind_of_term(glossary, term) {
        return foreseen_as(alloc, glossary, term, kinded);
    }
    let truth = Kinded {
        kind: Kind::Set(0),
        size: 2,
    };
    match foreseen_as(alloc, glossary, term, truth) {
        Ok(foreseen) => Ok(foreseen),
        Err(_) => foreseen_as(alloc, glossary, term, span_kinded()),
    }
}
