//! Why a term is refused.

use prop_terms::Term;

/// What is wrong with a part of a term.
#[derive(Clone, Copy)]
pub enum Why {
    /// There was no memory.
    Memory,
    /// The word names no cell, and nothing says of which domain it would be.
    NoSuchCell,
    /// The word names a cell, and is also an element or a symbol that may stand there.
    TwoReadings,
    /// The word is no element of the domain, or a symbol that isn't known.
    NotInDomain,
    /// The part is of another kind than is wanted there.
    WrongKind,
    /// Its value may lie beyond 10^18, either way.
    OutOfRange,
    /// Its divisor may be zero.
    MayBeZero,
    /// A table may have no row for it.
    MayBeMissing,
    /// The word names no relation.
    NoSuchRelation,
    /// It stands where none of its form may.
    WrongForm,
}

/// Why a term is refused, and which part of it is wrong.
#[derive(Clone, Copy)]
pub struct Fault<'t, 'a> {
    pub why: Why,
    pub part: &'t Term<'a>,
}
