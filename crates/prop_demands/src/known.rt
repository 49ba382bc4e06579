//! What is known of the cells before anything is believed.
ghost use Rattle.std.specs.Prelude.{◌≡◌, ◌≤◌, All, length};
ghost use Rattle.prop_compound.specs.Kinds.{IsSized};
ghost use Rattle.prop_vocabulary.specs.Vocabulary as vocabularies;
ghost use Rattle.prop_demands.specs.inner.Glossaries.{IsWhole, span_in};

use prop_cells::Cells;
use prop_lattice::{B, Info, Kind, Span};
use prop_procedures::Kinded;
use prop_terms::{Infix, Term};
use prop_vocabulary::Vocabulary;

/// How many domains there are up to the one of a kind.
fn domain_after(words: &Vocabulary, kinded: Kinded) -> usize
    requires { IsSized words.now kinded }
    ensures { result ≤ length words.now.domains }
{
    let _ = words;
    match kinded.kind {
        Kind::Set(domain) => usize::from(domain) + 1,
        Kind::Span | Kind::Symbol => 0,
    }
}

/// How many domains are there at the least: those up to the last that a cell is of.
fn domains_of(words: &Vocabulary, cells: &Cells) -> usize
    requires { All (IsSized words.now) cells.now.kinds }
    ensures there { result ≤ length words.now.domains }
{
    // (that of truth is there)
    words.truth();
    let mut domains = 1;
    for cell in 0..cells.len() {
        domains = domains.max(domain_after(words, cells.kind(cell)));
    }
    domains
}

/// How many domains there are up to the later one of a relation with this name.
fn domains_related(words: &Vocabulary, name: &[u8]) -> usize
    ensures { result ≤ length words.now.domains }
{
    let Ok(name) = str::from_utf8(name) else {
        return 0;
    };
    match words.relation(name) {
        Some(relation) => {
            let (from, to) = (relation.from(), relation.to());
            usize::from(from.domain.max(to.domain)) + 1
        }
        None => 0,
    }
}

/// How many domains there are up to the last of a relation that a term names.
fn domains_in(words: &Vocabulary, term: &Term<'_>) -> usize
    ensures there { result ≤ length words.now.domains }
{
    match term {
        Term::One(_, under) => domains_in(words, under),
        Term::Two(Infix::In, left, right) => match &**right {
            Term::Name(name) => domains_in(words, left).max(domains_related(words, name)),
            behind => domains_in(words, left).max(domains_in(words, behind)),
        },
        Term::Two(_, left, right) => domains_in(words, left).max(domains_in(words, right)),
        _ => 0,
    }
}

/// How many domains there are at the least: those up to the last that a cell is of, or a relation
/// that a term names.
pub(crate) fn domains_there(words: &Vocabulary, cells: &Cells, term: &Term<'_>) -> usize
    requires { All (IsSized words.now) cells.now.kinds }
    ensures { result ≤ length words.now.domains }
{
    domains_of(words, cells).max(domains_in(words, term))
}

/// Each vocabulary is whole.
pub(crate) fn is_whole(words: &Vocabulary)
    ensures { vocabularies.IsWhole words.now }
{
    words.symbol_count();
}

/// All numbers.
pub(crate) fn all_numbers() -> Span
    ensures { IsWhole result }
{
    match Span::new(-B, B) {
        Some(span) => span,
        None => unreachable!(),
    }
}

/// The numbers that an information leaves, where all are these.
pub(crate) fn span_in(whole: Span, info: Info) -> Span
    ensures { result ≡ span_in whole info }
{
    match info {
        Info::Span(span) => span,
        _ => whole,
    }
}
