//! What is foreseen of a term's value, before anything is posted.
ghost use Rattle.std.specs.Prelude.{IfOk};
ghost use Rattle.prop_terms.specs.Terms.{term_of};
ghost use Rattle.prop_meaning.specs.Foreseeing.{IsForeseen};

use crate::draft::known_at;
use crate::fault::{Fault, Why};
use crate::kinds::may_be;
use crate::known::Known;
use crate::posting::put_together;
use crate::translating::translated;
use crate::words::Words;
use prop_procedures::Kinded;
use prop_terms::Term;
use std::alloc::Global;

/// What is surely known of a term's value, and how many fresh cells, acts and constants give it.
#[derive(Clone, Copy)]
pub struct Foreseen {
    pub known: Known,
    pub cells: usize,
    pub acts: usize,
    pub constants: usize,
}

/// What is foreseen of the value of a term, which is to be of a kind. Refused as by `compute`.
pub fn foresee<'t, 'a, W: Words>(
    alloc: Global,
    words: &W,
    term: &'t Term<'a>,
    kinded: Kinded,
) -> Result<Foreseen, Fault<'t, 'a>>
    ensures { IfOk result
        (λ f. IsForeseen (W.lexicon words.now) (term_of term.now) f.known) }
{
    let mut made = Vec::new(alloc);
    let place = translated(words, &mut made, term, kinded)?;
    if !may_be(words, term, kinded) {
        return Err(Fault {
            why: Why::WrongKind,
            part: term,
        });
    }
    let known = known_at(words, &made, place);
    match (known, put_together(alloc, words.count(), &made, place)) {
        (Some(known), Ok(posted)) => Ok(Foreseen {
            known,
            cells: posted.fresh.len(),
            acts: posted.acts.len(),
            constants: posted.constants.len(),
        }),
        _ => Err(Fault {
            why: Why::Memory,
            part: term,
        }),
    }
}
