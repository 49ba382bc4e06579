//! What a text says.
ghost use Rattle.std.specs.Prelude.{◌≡◌, ◌⊎◌, ◌<◌, length, IfOk, IfErr};
ghost use Rattle.prop_terms.specs.Terms as terms;
ghost use Rattle.prop_terms.specs.Terms.{term_of};
ghost use Rattle.prop_terms.specs.Tokens.{tokens};
ghost use Rattle.prop_terms.specs.Writing.{IsWritten, HaveOneReading};
ghost use Rattle.prop_terms.specs.Printing.{AreWritten};
ghost use Rattle.prop_terms.specs.inner.Machine as machine;
ghost use Rattle.prop_terms.specs.inner.Parts.{Finds};

use crate::forming::{Place, Sort, is_formed};
use crate::frames::{self, Held};
use crate::operators::Infix;
use crate::pieces::next_piece;
use crate::term::Term;
use crate::tokens::{Token, token_of};
use prop_refusals::Refusal;
use std::alloc::Global;

/// How many bytes a text may have.
pub const MOST_BYTES: usize = 4096;

/// Why a text is refused, and where.
#[derive(Clone, Copy)]
pub struct Fault {
    /// The refusal.
    pub refusal: Refusal,
    /// How many bytes stand before the piece with which no term goes on: all of the text where one
    /// ends too early, and where what is read may not stand there. No contract says so.
    pub place: usize,
}

/// The term that a text's tokens write.
fn parsed<'a>(alloc: Global, text: &'a [u8]) -> Result<Term<'a>, Fault>
    ensures { Finds result (machine.parsed (tokens text.now)) }
{
    let mut frames = Vec::new(alloc);
    let mut held: Option<Held<'a>> = None;
    let mut after_leaf = false;
    let mut rest = text;
    while let Some((piece, behind)) = next_piece(rest) {
        let token = token_of(piece);
        held = match frames::take(alloc, &mut frames, held, after_leaf, token) {
            Ok(held) => held,
            Err(refusal) => return Err(refused_at(refusal, text, rest)),
        };
        after_leaf = token.is_leaf();
        rest = behind;
    }
    match frames::end(alloc, &mut frames, held) {
        Ok(term) => Ok(term),
        Err(refusal) => Err(refused_at(refusal, text, rest)),
    }
}

/// The refusal, and where of the text this rest begins.
fn refused_at(refusal: Refusal, text: &[u8], rest: &[u8]) -> Fault
    ensures { result.refusal ≡ refusal }
{
    Fault {
        refusal,
        place: text.len().saturating_sub(rest.len()),
    }
}

/// The term that a text writes, where one of the sort is wanted.
///
/// The refusal is `LineTooLong` for more than 4,096 bytes, `WrongForm` where the text writes no
/// such term, or `Memory`, where there was none.
pub fn read<'a>(alloc: Global, text: &'a [u8], sort: Sort) -> Result<Term<'a>, Fault>
    ensures ok { IfOk result (λ term. IsWritten sort text.now (term_of term)) }
    ensures err { IfErr result (λ fault. (fault.refusal ≡ Refusal.Memory)
        ⊎ ((fault.refusal ≡ Refusal.LineTooLong) × (4_096 < length text.now))
        ⊎ ((fault.refusal ≡ Refusal.WrongForm)
        × ((t : terms.Term) → ¬ (IsWritten sort text.now t)))) }
{
    if text.len() > MOST_BYTES {
        return Err(refused_at(Refusal::LineTooLong, text, &[]));
    }
    let term = match parsed(alloc, text) {
        Ok(term) => term,
        Err(fault) => return Err(fault),
    };
    if is_formed(&term, Place::Single(sort)) {
        Ok(term)
    } else {
        Err(refused_at(Refusal::WrongForm, text, &[]))
    }
}

/// Each text writes one term and no other.
pub fn texts_have_one_reading()
    ensures { HaveOneReading }
{}

/// Each term is written by its tokens with brackets only where an operator's level asks for them.
pub fn terms_can_be_written()
    ensures { AreWritten }
{}
