//! Pairs of elements by their names.
ghost use Rattle.std.specs.Prelude.{◌≡◌, ◌<◌, length};
ghost use Rattle.std.specs.List.{list_any};
ghost use Rattle.prop_vocabulary.specs.Pairs.{texts_of_pairs};
ghost use Rattle.prop_vocabulary.specs.inner.Between.{place_of, with_pairs};
ghost use Rattle.prop_vocabulary.specs.Pairs.{is_outside};
ghost use Rattle.prop_vocabulary.specs.inner.Named.{is_pair_outside};

use prop_sets::{Domain, Rows};

/// Whether a word of one of the pairs is no element of its domain. It takes no memory.
#[tactic(auto, using(crate::proofs::PairLemmas::outside_among))]
pub(crate) fn is_outside(first: &Domain, second: &Domain, pairs: &[(&[u8], &[u8])]) -> bool
    ensures { result ≡ is_outside first.now second.now (texts_of_pairs pairs.now) }
{
    has_outside(first, second, pairs)
}

fn has_outside(first: &Domain, second: &Domain, pairs: &[(&[u8], &[u8])]) -> bool
    ensures { result ≡ list_any (λ pair.
        is_pair_outside first.now second.now (pair.0.now, pair.1.now)) pairs.now }
{
    pairs.iter().any(
        |pair: &(&[u8], &[u8])| -> bool
            ensures { result ≡ is_pair_outside first.entry.now second.entry.now
                (pair.now.0.now, pair.now.1.now) }
        { first.index_of(pair.0).is_none() || second.index_of(pair.1).is_none() },
    )
}

/// The number of the element with the name, 0 where there is none.
fn place_of(domain: &Domain, name: &[u8]) -> u8
    requires { 0 < length domain.now }
    ensures place { result ≡ place_of domain.now name.now }
    ensures within { result < length domain.now }
{
    domain.index_of(name).unwrap_or(0)
}

/// Adds the pairs to a relation between the two domains. It takes no memory.
pub(crate) fn add_pairs(rows: &mut Rows, first: &Domain, second: &Domain, pairs: &[(&[u8], &[u8])])
    requires first { rows.old.from.size ≡ length first.now }
    requires second { rows.old.to.size ≡ length second.now }
    requires some_first { 0 < length first.now }
    requires some_second { 0 < length second.now }
    ensures pairs { rows.new ≡ with_pairs first.now second.now rows.old (texts_of_pairs pairs.now) }
    ensures from { rows.new.from ≡ rows.old.from }
    ensures to { rows.new.to ≡ rows.old.to }
{
    for pair in pairs {
        rows.set(place_of(first, pair.0), place_of(second, pair.1));
    }
}
