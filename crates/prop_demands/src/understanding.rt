//! What a term becomes in a session.
ghost use Rattle.std.specs.Prelude.{◌≡◌, ◌<◌, ◌≤◌, ◌⊎◌, All, IfErr, IfOk, length, true};
ghost use Rattle.prop_compound.specs.Kinds.{IsSized};
ghost use Rattle.prop_vocabulary.specs.Vocabulary as vocabularies;
ghost use Rattle.prop_terms.specs.Terms.{term_of};
ghost use Rattle.prop_demands.specs.Refusing.{is_of_term};
ghost use Rattle.prop_demands.specs.inner.Postings.{IsForeseenIn, IsUnderstoodIn};

use crate::known::{all_numbers, domains_there, is_whole};
use crate::posting::{foreseen_of, posting};
use crate::reading::Glossary;
use prop_cells::Cells;
use prop_meaning::Foreseen;
use prop_premises::Worldview;
use prop_refusals::Refusal;
use prop_terms::Term;
use prop_vocabulary::{CellNames, Vocabulary};
use prop_workbench::Posting;
use std::alloc::Global;

/// What a term that may hold becomes in a session that has these cells, by these names and words.
///
/// Refused are with 4 what is of a form that can't be posted or has two readings, with 6 a part
/// whose value may lie beyond 10^18, with 9 a word that is no cell, with 13 a part of a wrong kind,
/// with 15 a word that is no element there, with 19 one that is no relation, and with 90 want of
/// memory.
pub fn understood(
    alloc: Global,
    names: &CellNames,
    words: &Vocabulary,
    cells: &Cells,
    term: &Term<'_>,
) -> Result<Posting, Refusal>
    requires few { length cells.now.kinds ≤ 100_000 }
    requires named { All (λ cell. cell < length cells.now.kinds) names.now.cells }
    requires sized { All (IsSized words.now) cells.now.kinds }
    ensures words { vocabularies.IsWhole words.now }
    ensures understood { IfOk result
        (IsUnderstoodIn names.now words.now cells.now (term_of term.now)) }
    ensures refused { IfErr result (λ e. (e ≡ Refusal.Memory) ⊎ (is_of_term e ≡ true)) }
{
    is_whole(words);
    let nobody = Worldview::empty(alloc);
    let glossary = Glossary {
        names,
        words,
        cells,
        nobody: &nobody,
        whole: all_numbers(),
        domains: domains_there(words, cells, term),
    };
    posting(alloc, &glossary, term)
}

/// What is foreseen in such a session of the value of a term of any kind, before anything is made.
/// Refused as above.
pub fn foreseen(
    alloc: Global,
    names: &CellNames,
    words: &Vocabulary,
    cells: &Cells,
    term: &Term<'_>,
) -> Result<Foreseen, Refusal>
    requires few { length cells.now.kinds ≤ 100_000 }
    requires named { All (λ cell. cell < length cells.now.kinds) names.now.cells }
    requires sized { All (IsSized words.now) cells.now.kinds }
    ensures words { vocabularies.IsWhole words.now }
    ensures foreseen { IfOk result
        (λ f. IsForeseenIn names.now words.now cells.now (term_of term.now) f.known) }
    ensures refused { IfErr result (λ e. (e ≡ Refusal.Memory) ⊎ (is_of_term e ≡ true)) }
{
    is_whole(words);
    let nobody = Worldview::empty(alloc);
    let glossary = Glossary {
        names,
        words,
        cells,
        nobody: &nobody,
        whole: all_numbers(),
        domains: domains_there(words, cells, term),
    };
    foreseen_of(alloc, &glossary, term)
}
