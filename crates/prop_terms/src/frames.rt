//! The reader: what it keeps, and what each token changes. It calls itself nowhere, so the deepest
//! text takes no more stack than any other.
ghost use Rattle.std.specs.Prelude.{◌≡◌, ◌<◌, ◌∷◌, IfOk, IfErr, OnOk};
ghost use Rattle.prop_terms.specs.Levels.{level_of, strength_of, left_at, right_at};
ghost use Rattle.prop_terms.specs.Writing.{inside};
ghost use Rattle.prop_terms.specs.Terms.{term_of};
ghost use Rattle.prop_terms.specs.inner.Machine as machine;
ghost use Rattle.prop_terms.specs.inner.Machine.{Have, demand, shut_in, asks, rank, joined};
ghost use Rattle.prop_terms.specs.inner.Machine.{is_bracket};
ghost use Rattle.prop_terms.specs.inner.Parts.{token_said, frame_of, stack_of, held_in, state_of};
ghost use Rattle.prop_terms.specs.inner.Parts.{Moves, Gives};

use crate::operators::{Infix, Prefix};
use crate::term::Term;
use crate::tokens::{Shape, Token};
use prop_refusals::Refusal;
use std::alloc::Global;

/// The level of a number and a name.
pub const LEAF: u8 = 17;

/// The level of what stands in brackets.
const BRACKET: u8 = 18;

/// What has begun: a bracket, an operator before a term, or a term with an operator behind it.
#[derive(Drop)]
pub enum Frame<'a> {
    Bracket(Shape),
    Ahead(Prefix),
    Behind(Term<'a>, Infix),
}

/// A term with its level.
#[derive(Drop)]
pub struct Held<'a> {
    pub term: Term<'a>,
    pub level: u8,
}

/// The level of what stands between two terms.
pub fn level_of(op: Infix) -> u8
    ensures { result ≡ level_of op }
{
    match op {
        Infix::Semicolon => 1,
        Infix::Comma | Infix::Beside => 2,
        Infix::Colon => 3,
        Infix::Then | Infix::Else => 4,
        Infix::Iff => 5,
        Infix::Implies => 6,
        Infix::Xor => 7,
        Infix::Or => 8,
        Infix::And => 9,
        Infix::Equal
        | Infix::Unequal
        | Infix::Less
        | Infix::AtMost
        | Infix::Greater
        | Infix::AtLeast
        | Infix::In => 11,
        Infix::UpTo => 12,
        Infix::Plus | Infix::Minus => 13,
        Infix::Times | Infix::Over | Infix::Remainder => 14,
        Infix::Power => 16,
    }
}

/// The level of what stands before a term.
pub fn strength_of(op: Prefix) -> u8
    ensures { result ≡ strength_of op }
{
    match op {
        Prefix::If => 4,
        Prefix::Not => 10,
        Prefix::Negated => 15,
        _ => LEAF,
    }
}

/// The least level of what stands to the left of an operator of this level.
pub fn left_at(level: u8) -> u8
    requires { level < 32 }
    ensures { result ≡ left_at level }
{
    match level {
        3 | 4 | 6 | 10 | 11 | 12 | 15 | 16 => level + 1,
        _ => level,
    }
}

/// The least level of what stands to the right.
pub fn right_at(level: u8) -> u8
    requires { level < 32 }
    ensures { result ≡ right_at level }
{
    match level {
        4 | 6 | 10 | 15 => level,
        _ => level + 1,
    }
}

impl<'a> Frame<'a> {
    /// The least level of what is to come.
    fn asks(&self) -> u8
        ensures { result ≡ asks (frame_of self.now) }
    {
        match self {
            Frame::Bracket(_) => 0,
            Frame::Ahead(op) => right_at(strength_of(*op)),
            Frame::Behind(_, op) => right_at(level_of(*op)),
        }
    }

    /// Whether it is such a bracket.
    fn is_bracket(&self, shape: Shape) -> bool
        ensures { result ≡ is_bracket shape (frame_of self.now) }
    {
        match self {
            Frame::Bracket(other) => is_same(shape, *other),
            _ => false,
        }
    }

    /// The term that it makes with one behind it.
    fn joined(self, alloc: Global, term: Term<'a>) -> Result<Held<'a>, Refusal>
        ensures term { IfOk result (λ held.
            term_of held.term ≡ joined (frame_of self.entry) (term_of term.entry)) }
        ensures level { IfOk result (λ held. held.level ≡ rank (frame_of self.entry)) }
        ensures err { IfErr result (λ refusal. refusal ≡ Refusal.Memory) }
    {
        match self {
            Frame::Bracket(_) => Ok(Held { term, level: 0 }),
            Frame::Ahead(op) => match Box::new(alloc, term) {
                Ok(term) => Ok(Held {
                    term: Term::One(op, term),
                    level: strength_of(op),
                }),
                Err(_) => Err(Refusal::Memory),
            },
            Frame::Behind(left, op) => match (Box::new(alloc, left), Box::new(alloc, term)) {
                (Ok(left), Ok(right)) => Ok(Held {
                    term: Term::Two(op, left, right),
                    level: level_of(op),
                }),
                _ => Err(Refusal::Memory),
            },
        }
    }
}

/// The least level of what is to come in the innermost frame.
fn demand(frames: &[Frame<'_>]) -> u8
    ensures { result ≡ demand (stack_of frames.now) }
{
    match frames.split_last() {
        Some((frame, _before)) => frame.asks(),
        None => 0,
    }
}

/// What is held before something of this level: whatever asks for more than it is made.
fn shut<'a>(
    alloc: Global,
    frames: &mut Vec<Frame<'a>>,
    coming: u8,
    held: Held<'a>,
) -> Result<Held<'a>, Refusal>
    ensures ok { IfOk result (λ made.
        shut_in coming (held_in frames.old.items held.entry) ≡ held_in frames.new.items made) }
    ensures err { IfErr result (λ refusal. refusal ≡ Refusal.Memory) }
{
    let mut held = held;
    'making: while demand(frames) > coming {
        let Some(frame) = frames.pop() else {
            return Ok(held);
        };
        held = frame.joined(alloc, held.term)?;
    }
    Ok(held)
}

/// One frame more.
fn push<'a>(frames: &mut Vec<Frame<'a>>, frame: Frame<'a>) -> Result<(), Refusal>
    ensures ok { OnOk result (stack_of frames.new.items
        ≡ frame_of frame.entry ∷ stack_of frames.old.items) }
    ensures err { IfErr result (λ refusal. refusal ≡ Refusal.Memory) }
{
    if frames.push(frame).is_err() {
        return Err(Refusal::Memory);
    }
    Ok(())
}

/// An operator where a term is to come.
fn lead<'a>(frames: &mut Vec<Frame<'a>>, op: Prefix) -> Result<Option<Held<'a>>, Refusal>
    ensures { Moves result (machine.lead op (stack_of frames.old.items)) frames.new.items }
{
    if demand(frames) > strength_of(op) {
        return Err(Refusal::WrongForm);
    }
    push(frames, Frame::Ahead(op))?;
    Ok(None)
}

/// A number or a name where a term is to come.
fn leaf<'a>(frames: &[Frame<'a>], term: Term<'a>) -> Result<Option<Held<'a>>, Refusal>
    ensures { Moves result (machine.leaf (term_of term.entry) (stack_of frames.now)) frames.now }
{
    if demand(frames) > LEAF {
        return Err(Refusal::WrongForm);
    }
    Ok(Some(Held { term, level: LEAF }))
}

/// A token where a term is to come.
fn begin<'a>(frames: &mut Vec<Frame<'a>>, token: Token<'a>) -> Result<Option<Held<'a>>, Refusal>
    ensures { Moves result (machine.begin (token_said token.entry) (stack_of frames.old.items))
        frames.new.items }
{
    match token {
        Token::Numeral(number) => leaf(frames, Term::Number(number)),
        Token::Word(word) => leaf(frames, Term::Name(word)),
        Token::Before(op) => lead(frames, op),
        Token::Between(Infix::Minus) => lead(frames, Prefix::Negated),
        Token::Open(shape) => {
            push(frames, Frame::Bracket(shape))?;
            Ok(None)
        }
        _ => Err(Refusal::WrongForm),
    }
}

/// An operator behind a term.
fn join<'a>(
    alloc: Global,
    frames: &mut Vec<Frame<'a>>,
    held: Held<'a>,
    op: Infix,
) -> Result<Option<Held<'a>>, Refusal>
    ensures { Moves result
        (machine.join op (shut_in (level_of op) (held_in frames.old.items held.entry)))
        frames.new.items }
{
    let level = level_of(op);
    let held = shut(alloc, frames, level, held)?;
    if left_at(level) > held.level {
        return Err(Refusal::WrongForm);
    }
    push(frames, Frame::Behind(held.term, op))?;
    Ok(None)
}

/// What stands in brackets.
fn inside<'a>(alloc: Global, shape: Shape, term: Term<'a>) -> Result<Held<'a>, Refusal>
    ensures ok { IfOk result (λ held. (term_of held.term ≡ inside shape (term_of term.entry))
        × (held.level ≡ 18)) }
    ensures err { IfErr result (λ refusal. refusal ≡ Refusal.Memory) }
{
    let term = match shape {
        Shape::Round => term,
        Shape::Curly => match Box::new(alloc, term) {
            Ok(term) => Term::Braces(term),
            Err(_) => return Err(Refusal::Memory),
        },
    };
    Ok(Held {
        term,
        level: BRACKET,
    })
}

/// Whether the brackets are the same.
fn is_same(shape: Shape, other: Shape) -> bool
    ensures { result ≡ machine.is_same shape other }
{
    match (shape, other) {
        (Shape::Round, Shape::Round) | (Shape::Curly, Shape::Curly) => true,
        _ => false,
    }
}

/// Whether the innermost frame is such a bracket.
fn is_open(frames: &[Frame<'_>], shape: Shape) -> bool
    ensures { result ≡ machine.is_open shape (stack_of frames.now) }
{
    let Some((frame, _before)) = frames.split_last() else {
        return false;
    };
    frame.is_bracket(shape)
}

/// A closing bracket behind a term.
fn close<'a>(
    alloc: Global,
    frames: &mut Vec<Frame<'a>>,
    held: Held<'a>,
    shape: Shape,
) -> Result<Option<Held<'a>>, Refusal>
    ensures { Moves result (machine.close shape (shut_in 0 (held_in frames.old.items held.entry)))
        frames.new.items }
{
    let held = shut(alloc, frames, 0, held)?;
    if !is_open(frames, shape) {
        return Err(Refusal::WrongForm);
    }
    let Some(_bracket) = frames.pop() else {
        return Err(Refusal::WrongForm);
    };
    Ok(Some(inside(alloc, shape, held.term)?))
}

/// What a token changes.
pub fn step<'a>(
    alloc: Global,
    frames: &mut Vec<Frame<'a>>,
    held: Option<Held<'a>>,
    token: Token<'a>,
) -> Result<Option<Held<'a>>, Refusal>
    ensures { Moves result
        (machine.step (token_said token.entry) (state_of frames.old.items held.entry))
        frames.new.items }
{
    match (held, token) {
        (None, token) => begin(frames, token),
        (Some(held), Token::Between(op)) => join(alloc, frames, held, op),
        (Some(held), Token::Close(shape)) => close(alloc, frames, held, shape),
        _ => Err(Refusal::WrongForm),
    }
}

/// What a token changes, with what stands unseen before it: something between two numbers or names
/// that follow each other, of which the last was one, if it is said so.
pub fn take<'a>(
    alloc: Global,
    frames: &mut Vec<Frame<'a>>,
    held: Option<Held<'a>>,
    after_leaf: bool,
    token: Token<'a>,
) -> Result<Option<Held<'a>>, Refusal>
    ensures { Moves result (machine.take after_leaf (token_said token.entry)
        (state_of frames.old.items held.entry)) frames.new.items }
{
    if after_leaf && token.is_leaf() {
        let held = step(alloc, frames, held, Token::Between(Infix::Beside))?;
        return step(alloc, frames, held, token);
    }
    step(alloc, frames, held, token)
}

/// Whether nothing has begun.
fn is_done(frames: &[Frame<'_>]) -> bool
    ensures { result ≡ machine.is_done (stack_of frames.now) }
{
    match frames.split_last() {
        Some((_frame, _before)) => false,
        None => true,
    }
}

/// The term that is held at the end.
fn finish<'a>(
    alloc: Global,
    frames: &mut Vec<Frame<'a>>,
    held: Held<'a>,
) -> Result<Term<'a>, Refusal>
    ensures { Gives result (machine.end (Have (held_in frames.old.items held.entry))) }
{
    let held = shut(alloc, frames, 0, held)?;
    if is_done(frames) {
        Ok(held.term)
    } else {
        Err(Refusal::WrongForm)
    }
}

/// The term at the end.
pub fn end<'a>(
    alloc: Global,
    frames: &mut Vec<Frame<'a>>,
    held: Option<Held<'a>>,
) -> Result<Term<'a>, Refusal>
    ensures { Gives result (machine.end (state_of frames.old.items held.entry)) }
{
    match held {
        Some(held) => finish(alloc, frames, held),
        None => Err(Refusal::WrongForm),
    }
}
