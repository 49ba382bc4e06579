//! The cell that shows what a term is worth.
ghost use Rattle.std.specs.Prelude.{◌≡◌, IfOk, OnOk, IsTrue};
ghost use Rattle.prop_terms.specs.Terms as terms;
ghost use Rattle.prop_terms.specs.Terms.{term_of};
ghost use Rattle.prop_meaning.specs.inner.Drafts.{Has, IsSound, Grown, Shows, number_kind};
ghost use Rattle.prop_meaning.specs.inner.Drafts.{truth_kind};
ghost use Rattle.prop_meaning.specs.inner.Lists.{is_gathering, different_of, unequal_to};
ghost use Rattle.prop_meaning.specs.inner.Lists.{ShowsWith};
ghost use Rattle.prop_meaning.specs.inner.Tables.{Chooses, Finds};
ghost use Rattle.prop_terms.specs.declared.operators.Infix.TheVariants.{Equal, Unequal};

use crate::braces::{among, is_labelled};
use crate::combining::{
    between, combined, is_choice, is_in, is_list, is_range, is_taken, kind_before, kind_of,
    prefixed,
};
use crate::constants::{name, number};
use crate::draft::Made;
use crate::fault::{Fault, Why};
use crate::gathering::{alone, gathered, is_different, is_gathering, kind_within};
use crate::kinds::{kind_of_term, sides};
use crate::making::{NUMBER, TRUTH, choice, is_same_kind};
use crate::powers::{is_power, power};
use crate::relating::{is_pair_in, related, side_kind};
use crate::tables::{Lookup, has_all_keys, is_label, is_lookup, is_row};
use crate::words::Words;
use prop_procedures::Kinded;
use prop_terms::{Infix, Prefix, Term};

/// The cell of a number of a term.
fn numeral<W: Words>(words: &W, made: &mut Vec<Made>, n: u64, kinded: Kinded) -> Result<usize, Why>
    requires sound { IsSound (W.lexicon words.now) made.old.items }
    ensures grown { OnOk result (Grown (W.lexicon words.now) made.old.items made.new.items) }
    ensures shows { IfOk result
        (Shows (W.lexicon words.now) made.new.items kinded (terms.Number n)) }
{
    if !is_same_kind(NUMBER, kinded) {
        return Err(Why::WrongKind);
    }
    if n > 1_000_000_000_000_000_000 {
        return Err(Why::OutOfRange);
    }
    number(words, made, n as i64)
}

/// The cell that shows what a term is worth, which is to be of this kind.
#[cycle(translating)]
pub(crate) fn translated<'t, 'a, W: Words>(
    words: &W,
    made: &mut Vec<Made>,
    term: &'t Term<'a>,
    kinded: Kinded,
) -> Result<usize, Fault<'t, 'a>>
    requires sound { IsSound (W.lexicon words.now) made.old.items }
    ensures grown { OnOk result (Grown (W.lexicon words.now) made.old.items made.new.items) }
    ensures shows { IfOk result
        (Shows (W.lexicon words.now) made.new.items kinded (term_of term.now)) }
{
    let result = match term {
        Term::Number(n) => numeral(words, made, *n, kinded),
        Term::Name(word) => name(words, made, kinded, word),
        Term::One(_, _) => return before_one(words, made, term, kinded),
        Term::Two(_, _, _) => return between_two(words, made, term, kinded),
        Term::Braces(_) => Err(Why::WrongForm),
    };
    match result {
        Ok(place) => Ok(place),
        Err(why) => Err(Fault { why, part: term }),
    }
}

/// The same of an operator between two terms.
#[cycle(translating)]
fn between_two<'t, 'a, W: Words>(
    words: &W,
    made: &mut Vec<Made>,
    term: &'t Term<'a>,
    kinded: Kinded,
) -> Result<usize, Fault<'t, 'a>>
    requires sound { IsSound (W.lexicon words.now) made.old.items }
    ensures grown { OnOk result (Grown (W.lexicon words.now) made.old.items made.new.items) }
    ensures shows { IfOk result
        (Shows (W.lexicon words.now) made.new.items kinded (term_of term.now)) }
{
    let Term::Two(op, left, right) = term else {
        return Err(Fault {
            why: Why::WrongForm,
            part: term,
        });
    };
    if matches!(*op, Infix::In) {
        return match &**right {
            Term::Braces(_) => in_words(words, made, term, kinded),
            Term::Name(_) => in_relation(words, made, term, kinded),
            _ => in_range(words, made, term, kinded),
        };
    }
    if matches!(*op, Infix::Power) {
        return to_power(words, made, term, kinded);
    }
    let both = match sides(words, *op, left, right) {
        Ok(both) => both,
        Err(why) => return Err(Fault { why, part: term }),
    };
    if !is_same_kind(kind_of(*op), kinded) {
        return Err(Fault {
            why: Why::WrongKind,
            part: term,
        });
    }
    let x = translated(words, made, left, both)?;
    let y = translated(words, made, right, both)?;
    match combined(words, made, *op, x, y) {
        Ok(place) => Ok(place),
        Err(why) => Err(Fault { why, part: term }),
    }
}

/// The same of an operator before a term.
#[cycle(translating)]
fn before_one<'t, 'a, W: Words>(
    words: &W,
    made: &mut Vec<Made>,
    term: &'t Term<'a>,
    kinded: Kinded,
) -> Result<usize, Fault<'t, 'a>>
    requires sound { IsSound (W.lexicon words.now) made.old.items }
    ensures grown { OnOk result (Grown (W.lexicon words.now) made.old.items made.new.items) }
    ensures shows { IfOk result
        (Shows (W.lexicon words.now) made.new.items kinded (term_of term.now)) }
{
    let Term::One(op, under) = term else {
        return Err(Fault {
            why: Why::WrongForm,
            part: term,
        });
    };
    if matches!(*op, Prefix::If) {
        return chosen_way(words, made, term, kinded);
    }
    if is_gathering(*op) {
        return of_list(words, made, term, kinded);
    }
    if matches!(*op, Prefix::Different) {
        return all_different(words, made, term, kinded);
    }
    if matches!(*op, Prefix::Element) {
        return from_table(words, made, term, kinded);
    }
    if !is_taken(*op) {
        return Err(Fault {
            why: Why::WrongForm,
            part: term,
        });
    }
    if !is_same_kind(kind_before(*op), kinded) {
        return Err(Fault {
            why: Why::WrongKind,
            part: term,
        });
    }
    let x = translated(words, made, under, kinded)?;
    match prefixed(words, made, *op, x) {
        Ok(place) => Ok(place),
        Err(why) => Err(Fault { why, part: term }),
    }
}

/// The same of a choice.
#[cycle(translating)]
fn chosen_way<'t, 'a, W: Words>(
    words: &W,
    made: &mut Vec<Made>,
    term: &'t Term<'a>,
    kinded: Kinded,
) -> Result<usize, Fault<'t, 'a>>
    requires sound { IsSound (W.lexicon words.now) made.old.items }
    ensures grown { OnOk result (Grown (W.lexicon words.now) made.old.items made.new.items) }
    ensures shows { IfOk result
        (Shows (W.lexicon words.now) made.new.items kinded (term_of term.now)) }
{
    let wrong = Fault {
        why: Why::WrongForm,
        part: term,
    };
    let Term::One(op, under) = term else {
        return Err(wrong);
    };
    let Term::Two(then, test, ways) = &**under else {
        return Err(wrong);
    };
    let Term::Two(other, left, right) = &**ways else {
        return Err(wrong);
    };
    if !is_choice(*op, *then, *other) {
        return Err(wrong);
    }
    let t = translated(words, made, test, TRUTH)?;
    let x = translated(words, made, left, kinded)?;
    let y = translated(words, made, right, kinded)?;
    match choice(words, made, t, x, y) {
        Ok(place) => Ok(place),
        Err(why) => Err(Fault { why, part: term }),
    }
}

/// The same of what lies in a range.
#[cycle(translating)]
fn in_range<'t, 'a, W: Words>(
    words: &W,
    made: &mut Vec<Made>,
    term: &'t Term<'a>,
    kinded: Kinded,
) -> Result<usize, Fault<'t, 'a>>
    requires sound { IsSound (W.lexicon words.now) made.old.items }
    ensures grown { OnOk result (Grown (W.lexicon words.now) made.old.items made.new.items) }
    ensures shows { IfOk result
        (Shows (W.lexicon words.now) made.new.items kinded (term_of term.now)) }
{
    let wrong = Fault {
        why: Why::WrongForm,
        part: term,
    };
    let Term::Two(op, item, range) = term else {
        return Err(wrong);
    };
    let Term::Two(to, low, high) = &**range else {
        return Err(wrong);
    };
    if !is_range(*op, *to) || is_list(item) {
        return Err(wrong);
    }
    if !is_same_kind(TRUTH, kinded) {
        return Err(Fault {
            why: Why::WrongKind,
            part: term,
        });
    }
    let x = translated(words, made, item, NUMBER)?;
    let from = translated(words, made, low, NUMBER)?;
    let end = translated(words, made, high, NUMBER)?;
    match between(words, made, x, from, end) {
        Ok(place) => Ok(place),
        Err(why) => Err(Fault { why, part: term }),
    }
}

/// The same of what is one of the words in braces.
#[cycle(translating)]
fn in_words<'t, 'a, W: Words>(
    words: &W,
    made: &mut Vec<Made>,
    term: &'t Term<'a>,
    kinded: Kinded,
) -> Result<usize, Fault<'t, 'a>>
    requires sound { IsSound (W.lexicon words.now) made.old.items }
    ensures grown { OnOk result (Grown (W.lexicon words.now) made.old.items made.new.items) }
    ensures shows { IfOk result
        (Shows (W.lexicon words.now) made.new.items kinded (term_of term.now)) }
{
    let wrong = Fault {
        why: Why::WrongForm,
        part: term,
    };
    let Term::Two(op, item, range) = term else {
        return Err(wrong);
    };
    let Term::Braces(labels) = &**range else {
        return Err(wrong);
    };
    if !is_in(*op) || is_list(item) {
        return Err(wrong);
    }
    if !is_same_kind(TRUTH, kinded) {
        return Err(Fault {
            why: Why::WrongKind,
            part: term,
        });
    }
    let Some(both) = kind_of_term(words, item) else {
        return Err(Fault {
            why: Why::NoSuchCell,
            part: item,
        });
    };
    let x = translated(words, made, item, both)?;
    among(words, made, x, both, labels)
}

/// The same of what two terms are worth that may be a pair of a relation.
#[cycle(translating)]
fn in_relation<'t, 'a, W: Words>(
    words: &W,
    made: &mut Vec<Made>,
    term: &'t Term<'a>,
    kinded: Kinded,
) -> Result<usize, Fault<'t, 'a>>
    requires sound { IsSound (W.lexicon words.now) made.old.items }
    ensures grown { OnOk result (Grown (W.lexicon words.now) made.old.items made.new.items) }
    ensures shows { IfOk result
        (Shows (W.lexicon words.now) made.new.items kinded (term_of term.now)) }
{
    let wrong = Fault {
        why: Why::WrongForm,
        part: term,
    };
    let Term::Two(op, items, range) = term else {
        return Err(wrong);
    };
    let Term::Two(comma, left, right) = &**items else {
        return Err(wrong);
    };
    let Term::Name(word) = &**range else {
        return Err(wrong);
    };
    if !is_pair_in(*op, *comma) || is_list(left) {
        return Err(wrong);
    }
    if !is_same_kind(TRUTH, kinded) {
        return Err(Fault {
            why: Why::WrongKind,
            part: term,
        });
    }
    let Some(relation) = words.relation(word) else {
        return Err(Fault {
            why: Why::NoSuchRelation,
            part: range,
        });
    };
    let x = translated(words, made, left, side_kind(relation.from()))?;
    let y = translated(words, made, right, side_kind(relation.to()))?;
    match related(words, made, relation, x, y) {
        Ok(place) => Ok(place),
        Err(why) => Err(Fault { why, part: term }),
    }
}

/// The same of a power.
#[cycle(translating)]
fn to_power<'t, 'a, W: Words>(
    words: &W,
    made: &mut Vec<Made>,
    term: &'t Term<'a>,
    kinded: Kinded,
) -> Result<usize, Fault<'t, 'a>>
    requires sound { IsSound (W.lexicon words.now) made.old.items }
    ensures grown { OnOk result (Grown (W.lexicon words.now) made.old.items made.new.items) }
    ensures shows { IfOk result
        (Shows (W.lexicon words.now) made.new.items kinded (term_of term.now)) }
{
    let wrong = Fault {
        why: Why::WrongForm,
        part: term,
    };
    let Term::Two(op, base, exponent) = term else {
        return Err(wrong);
    };
    let Term::Number(n) = &**exponent else {
        return Err(wrong);
    };
    if !is_power(*op) {
        return Err(wrong);
    }
    if !is_same_kind(NUMBER, kinded) {
        return Err(Fault {
            why: Why::WrongKind,
            part: term,
        });
    }
    let x = translated(words, made, base, NUMBER)?;
    match power(words, made, x, *n) {
        Ok(place) => Ok(place),
        Err(why) => Err(Fault { why, part: term }),
    }
}

/// The same of what an operator makes of a list.
#[cycle(translating)]
fn of_list<'t, 'a, W: Words>(
    words: &W,
    made: &mut Vec<Made>,
    term: &'t Term<'a>,
    kinded: Kinded,
) -> Result<usize, Fault<'t, 'a>>
    requires sound { IsSound (W.lexicon words.now) made.old.items }
    ensures grown { OnOk result (Grown (W.lexicon words.now) made.old.items made.new.items) }
    ensures shows { IfOk result
        (Shows (W.lexicon words.now) made.new.items kinded (term_of term.now)) }
{
    let Term::One(op, list) = term else {
        return Err(Fault {
            why: Why::WrongForm,
            part: term,
        });
    };
    if !is_gathering(*op) {
        return Err(Fault {
            why: Why::WrongForm,
            part: term,
        });
    }
    if !is_same_kind(NUMBER, kinded) {
        return Err(Fault {
            why: Why::WrongKind,
            part: term,
        });
    }
    listed(words, made, *op, list)
}

/// The cell of what an operator makes of the terms between commas, or of the one that there is.
#[cycle(translating)]
fn listed<'t, 'a, W: Words>(
    words: &W,
    made: &mut Vec<Made>,
    op: Prefix,
    list: &'t Term<'a>,
) -> Result<usize, Fault<'t, 'a>>
    requires sound { IsSound (W.lexicon words.now) made.old.items }
    requires gathers { IsTrue (is_gathering op) }
    ensures grown { OnOk result (Grown (W.lexicon words.now) made.old.items made.new.items) }
    ensures shows { IfOk result (Shows (W.lexicon words.now) made.new.items number_kind
        (terms.One op (term_of list.now))) }
{
    if !is_list(list) {
        let x = translated(words, made, list, kind_within(op))?;
        return match alone(words, made, op, x) {
            Ok(place) => Ok(place),
            Err(why) => Err(Fault { why, part: list }),
        };
    }
    let Term::Two(_comma, others, last) = list else {
        return Err(Fault {
            why: Why::WrongForm,
            part: list,
        });
    };
    let x = listed(words, made, op, others)?;
    let y = translated(words, made, last, kind_within(op))?;
    match gathered(words, made, op, x, y) {
        Ok(place) => Ok(place),
        Err(why) => Err(Fault { why, part: list }),
    }
}

/// The same of whether no two of several are equal.
#[cycle(translating)]
fn all_different<'t, 'a, W: Words>(
    words: &W,
    made: &mut Vec<Made>,
    term: &'t Term<'a>,
    kinded: Kinded,
) -> Result<usize, Fault<'t, 'a>>
    requires sound { IsSound (W.lexicon words.now) made.old.items }
    ensures grown { OnOk result (Grown (W.lexicon words.now) made.old.items made.new.items) }
    ensures shows { IfOk result
        (Shows (W.lexicon words.now) made.new.items kinded (term_of term.now)) }
{
    let wrong = Fault {
        why: Why::WrongForm,
        part: term,
    };
    let Term::One(op, list) = term else {
        return Err(wrong);
    };
    if !is_different(*op) {
        return Err(wrong);
    }
    if !is_same_kind(TRUTH, kinded) {
        return Err(Fault {
            why: Why::WrongKind,
            part: term,
        });
    }
    let Some(both) = kind_of_term(words, list) else {
        return Err(Fault {
            why: Why::NoSuchCell,
            part: list,
        });
    };
    differing(words, made, list, both)
}

/// The cell of whether no two of the terms between commas are equal.
#[cycle(translating)]
fn differing<'t, 'a, W: Words>(
    words: &W,
    made: &mut Vec<Made>,
    list: &'t Term<'a>,
    both: Kinded,
) -> Result<usize, Fault<'t, 'a>>
    requires sound { IsSound (W.lexicon words.now) made.old.items }
    ensures grown { OnOk result (Grown (W.lexicon words.now) made.old.items made.new.items) }
    ensures shows { IfOk result (Shows (W.lexicon words.now) made.new.items truth_kind
        (different_of (term_of list.now))) }
{
    if !is_list(list) {
        return itself(words, made, list, both);
    }
    let Term::Two(_comma, others, last) = list else {
        return Err(Fault {
            why: Why::WrongForm,
            part: list,
        });
    };
    let y = translated(words, made, last, both)?;
    if !is_list(others) {
        return apart(words, made, others, y, both);
    }
    let x = differing(words, made, others, both)?;
    let z = apart(words, made, others, y, both)?;
    match combined(words, made, Infix::And, x, z) {
        Ok(place) => Ok(place),
        Err(why) => Err(Fault { why, part: list }),
    }
}

/// The cell of whether a term is worth what it is worth: `yes`, since it has a value.
#[cycle(translating)]
fn itself<'t, 'a, W: Words>(
    words: &W,
    made: &mut Vec<Made>,
    term: &'t Term<'a>,
    both: Kinded,
) -> Result<usize, Fault<'t, 'a>>
    requires sound { IsSound (W.lexicon words.now) made.old.items }
    ensures grown { OnOk result (Grown (W.lexicon words.now) made.old.items made.new.items) }
    ensures shows { IfOk result (Shows (W.lexicon words.now) made.new.items truth_kind
        (terms.Two Equal (term_of term.now) (term_of term.now))) }
{
    let x = translated(words, made, term, both)?;
    match combined(words, made, Infix::Equal, x, x) {
        Ok(place) => Ok(place),
        Err(why) => Err(Fault { why, part: term }),
    }
}

/// The cell of whether each of the terms between commas, or the one that there is, is unequal to
/// what the cell at a place shows.
#[cycle(translating)]
fn apart<'t, 'a, W: Words>(
    words: &W,
    made: &mut Vec<Made>,
    list: &'t Term<'a>,
    y: usize,
    both: Kinded,
) -> Result<usize, Fault<'t, 'a>>
    requires sound { IsSound (W.lexicon words.now) made.old.items }
    requires has { Has (W.lexicon words.now) made.old.items y both }
    ensures grown { OnOk result (Grown (W.lexicon words.now) made.old.items made.new.items) }
    ensures shows { IfOk result (ShowsWith (W.lexicon words.now) made.old.items made.new.items both
        (unequal_to (term_of list.now)) y) }
{
    if !is_list(list) {
        return unequal(words, made, list, y, both);
    }
    let Term::Two(_comma, others, last) = list else {
        return Err(Fault {
            why: Why::WrongForm,
            part: list,
        });
    };
    let x = apart(words, made, others, y, both)?;
    let z = unequal(words, made, last, y, both)?;
    match combined(words, made, Infix::And, x, z) {
        Ok(place) => Ok(place),
        Err(why) => Err(Fault { why, part: list }),
    }
}

/// The cell of whether a term is unequal to what the cell at a place shows.
#[cycle(translating)]
fn unequal<'t, 'a, W: Words>(
    words: &W,
    made: &mut Vec<Made>,
    term: &'t Term<'a>,
    y: usize,
    both: Kinded,
) -> Result<usize, Fault<'t, 'a>>
    requires sound { IsSound (W.lexicon words.now) made.old.items }
    requires has { Has (W.lexicon words.now) made.old.items y both }
    ensures grown { OnOk result (Grown (W.lexicon words.now) made.old.items made.new.items) }
    ensures shows { IfOk result (ShowsWith (W.lexicon words.now) made.old.items made.new.items both
        (terms.Two Unequal (term_of term.now)) y) }
{
    let x = translated(words, made, term, both)?;
    match combined(words, made, Infix::Unequal, x, y) {
        Ok(place) => Ok(place),
        Err(why) => Err(Fault { why, part: term }),
    }
}

/// The same of what a table has behind the first label that is what is looked up.
#[cycle(translating)]
fn from_table<'t, 'a, W: Words>(
    words: &W,
    made: &mut Vec<Made>,
    term: &'t Term<'a>,
    kinded: Kinded,
) -> Result<usize, Fault<'t, 'a>>
    requires sound { IsSound (W.lexicon words.now) made.old.items }
    ensures grown { OnOk result (Grown (W.lexicon words.now) made.old.items made.new.items) }
    ensures shows { IfOk result
        (Shows (W.lexicon words.now) made.new.items kinded (term_of term.now)) }
{
    let wrong = Fault {
        why: Why::WrongForm,
        part: term,
    };
    let Term::One(op, under) = term else {
        return Err(wrong);
    };
    let Term::Two(semicolon, item, rows) = &**under else {
        return Err(wrong);
    };
    if !is_lookup(*op, *semicolon) {
        return Err(wrong);
    }
    let Some(keyed) = kind_of_term(words, item) else {
        return Err(Fault {
            why: Why::NoSuchCell,
            part: item,
        });
    };
    let place = translated(words, made, item, keyed)?;
    let lookup = Lookup {
        place,
        keyed,
        kinded,
    };
    if !has_all_keys(words, made, lookup, rows) {
        return Err(Fault {
            why: Why::MayBeMissing,
            part: item,
        });
    }
    in_rows(words, made, rows, lookup)
}

/// The cell of what is found in rows of which one is labelled by what is looked up: of the last it
/// is not tested.
#[cycle(translating)]
fn in_rows<'t, 'a, W: Words>(
    words: &W,
    made: &mut Vec<Made>,
    rows: &'t Term<'a>,
    lookup: Lookup,
) -> Result<usize, Fault<'t, 'a>>
    requires sound { IsSound (W.lexicon words.now) made.old.items }
    requires has { Has (W.lexicon words.now) made.old.items lookup.place lookup.keyed }
    ensures grown { OnOk result (Grown (W.lexicon words.now) made.old.items made.new.items) }
    ensures finds { IfOk result
        (Finds (W.lexicon words.now) made.new.items lookup (term_of rows.now)) }
{
    let Term::Two(op, before, behind) = rows else {
        return Err(Fault {
            why: Why::WrongForm,
            part: rows,
        });
    };
    if is_list(rows) {
        let z = in_rows(words, made, behind, lookup)?;
        return before_others(words, made, before, lookup, z);
    }
    if !is_row(*op) || !is_label(words, lookup.keyed, before) {
        return Err(Fault {
            why: Why::NotInDomain,
            part: before,
        });
    }
    translated(words, made, behind, lookup.kinded)
}

/// The cell of what is found in rows, or of what another cell shows where nothing is.
#[cycle(translating)]
fn before_others<'t, 'a, W: Words>(
    words: &W,
    made: &mut Vec<Made>,
    rows: &'t Term<'a>,
    lookup: Lookup,
    z: usize,
) -> Result<usize, Fault<'t, 'a>>
    requires sound { IsSound (W.lexicon words.now) made.old.items }
    requires has { Has (W.lexicon words.now) made.old.items lookup.place lookup.keyed }
    requires others { Has (W.lexicon words.now) made.old.items z lookup.kinded }
    ensures grown { OnOk result (Grown (W.lexicon words.now) made.old.items made.new.items) }
    ensures chooses { IfOk result
        (Chooses (W.lexicon words.now) made.new.items lookup (term_of rows.now) z) }
{
    let Term::Two(op, before, behind) = rows else {
        return Err(Fault {
            why: Why::WrongForm,
            part: rows,
        });
    };
    if is_list(rows) {
        let y = before_others(words, made, behind, lookup, z)?;
        return before_others(words, made, before, lookup, y);
    }
    if !is_row(*op) {
        return Err(Fault {
            why: Why::WrongForm,
            part: rows,
        });
    }
    let t = is_labelled(words, made, lookup.place, lookup.keyed, before)?;
    let y = translated(words, made, behind, lookup.kinded)?;
    match choice(words, made, t, y, z) {
        Ok(place) => Ok(place),
        Err(why) => Err(Fault { why, part: rows }),
    }
}
