//! What a term becomes.
ghost use Rattle.std.specs.Prelude.{◌≡◌, ◌+◌, ◌≤◌, map, length, IfOk, IfSome, OnOk};
ghost use Rattle.prop_terms.specs.Terms.{term_of};
ghost use Rattle.prop_meaning.specs.Kinds.{kind_shown};
ghost use Rattle.prop_meaning.specs.Posting.{SaysSame, IsValue};
ghost use Rattle.prop_meaning.specs.inner.Expanding.{all_acts, all_constants, ArePosted};

use crate::acts::Act;
use crate::draft::Made;
use crate::expanding::{put_acts, put_constant};
use crate::fault::{Fault, Why};
use crate::kinds::may_be;
use crate::making::TRUTH;
use crate::translating::translated;
use crate::words::Words;
use prop_lattice::Info;
use prop_procedures::Kinded;
use prop_terms::Term;
use std::alloc::{AllocError, Global};

/// Fresh cells, whose places are behind those of the given ones, by their kinds; instances of
/// rules; what some of the fresh cells are, on no premise; and the place of the result.
#[derive(Drop)]
pub struct Posted {
    pub fresh: Vec<Kinded>,
    pub acts: Vec<Act>,
    pub constants: Vec<(usize, Info)>,
    pub result: usize,
}

/// The kinds of fresh cells.
fn kinds_of(alloc: Global, made: &[Made]) -> Result<Vec<Kinded>, AllocError>
    ensures { IfOk result (λ kinds. kinds.items ≡ map (λ m. m.known.kinded) made.now) }
{
    let mut kinds = Vec::new(alloc);
    for cell in made {
        kinds.push(cell.known.kinded)?;
    }
    Ok(kinds)
}

/// The instances that make fresh cells behind so many.
fn acts_of(alloc: Global, count: usize, made: &[Made]) -> Result<Vec<Act>, AllocError>
    requires few { count ≤ 100_000 }
    ensures { IfOk result (λ acts. acts.items ≡ all_acts count made.now) }
{
    let mut acts = Vec::new(alloc);
    for (k, cell) in made.iter().enumerate() {
        put_acts(&mut acts, cell.step, count + k)?;
    }
    Ok(acts)
}

/// What the constants are among fresh cells behind so many.
fn constants_of(
    alloc: Global,
    count: usize,
    made: &[Made],
) -> Result<Vec<(usize, Info)>, AllocError>
    requires few { count ≤ 100_000 }
    ensures { IfOk result (λ constants. constants.items ≡ all_constants count made.now) }
{
    let mut constants = Vec::new(alloc);
    for (k, cell) in made.iter().enumerate() {
        put_constant(&mut constants, cell.step, count + k)?;
    }
    Ok(constants)
}

/// All of them.
pub(crate) fn put_together(
    alloc: Global,
    count: usize,
    made: &[Made],
    place: usize,
) -> Result<Posted, AllocError>
    requires few { count ≤ 100_000 }
    ensures { IfOk result (λ posted. ArePosted count made.now posted place) }
{
    let fresh = kinds_of(alloc, made)?;
    let acts = acts_of(alloc, count, made)?;
    let constants = constants_of(alloc, count, made)?;
    Ok(Posted {
        fresh,
        acts,
        constants,
        result: place,
    })
}

/// What gives the value of a term, which is to be of a kind. It is refused where the term shows
/// another one.
pub fn compute<'t, 'a, W: Words>(
    alloc: Global,
    words: &W,
    term: &'t Term<'a>,
    kinded: Kinded,
) -> Result<Posted, Fault<'t, 'a>>
    ensures value { IfOk result
        (λ posted. IsValue (W.lexicon words.now) posted kinded (term_of term.now)) }
    ensures kind { OnOk result
        (IfSome (kind_shown (W.lexicon words.now) (term_of term.now)) (λ k. k ≡ kinded)) }
{
    let mut made = Vec::new(alloc);
    let place = translated(words, &mut made, term, kinded)?;
    if !may_be(words, term, kinded) {
        return Err(Fault {
            why: Why::WrongKind,
            part: term,
        });
    }
    match put_together(alloc, words.count(), &made, place) {
        Ok(posted) => Ok(posted),
        Err(_) => Err(Fault {
            why: Why::Memory,
            part: term,
        }),
    }
}

/// What says whether a term holds, in the cell of its result.
pub fn post<'t, 'a, W: Words>(
    alloc: Global,
    words: &W,
    term: &'t Term<'a>,
) -> Result<Posted, Fault<'t, 'a>>
    ensures { IfOk result (λ posted. SaysSame (W.lexicon words.now) posted (term_of term.now)) }
{
    compute(alloc, words, term, TRUTH)
}
