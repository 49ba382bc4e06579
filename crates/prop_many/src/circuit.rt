//! Where a tour through some nodes may go on from one of them.
//!
//! The nodes are numbered from 1, and each has a successor. They are one circuit where from the
//! successor of a node the others lead back to it behind all nodes, and no sooner.
ghost use Rattle.std.specs.Prelude.{◌≡◌, ◌<◌, ◌≤◌, ◌^◌, ◌+ℤ◌, ◌-ℤ◌, ◌≤ℤ◌, neg_ℤ, pos, length};
ghost use Rattle.prop_many.specs.Circuit.{around, circuit_of, earliest, entry_at, goes_wrong};
ghost use Rattle.prop_many.specs.Circuit.{is_one, latest, lowered, raised};

use prop_lattice::Info;
use prop_wide::ends::{high_of, known, low_of};

/// Whether a number is known.
pub(crate) fn is_one(number: Info) -> bool
    ensures { result ≡ is_one number }
{
    low_of(number) == high_of(number)
}

/// What is known of the successor of a node, of these successors of which the first is that of the
/// node of this number.
fn entry(first: i128, successors: &[Info], node: i128) -> Option<Info>
    requires above { pos 0 ≤ℤ first }
    requires few { (first +ℤ pos (length successors.now)) ≤ℤ pos (2 ^ 100) }
    ensures { result ≡ entry_at first successors.now node }
{
    match successors {
        [] => None,
        [successor, rest @ ..] => {
            if node == first {
                Some(*successor)
            } else {
                entry(first + 1, rest, node)
            }
        }
    }
}

/// Whether the successors that are known lead from a node to `home` sooner than in so many steps,
/// or to another node in these.
fn goes_wrong(successors: &[Info], home: i128, node: i128, steps: usize) -> bool
    requires { length successors.now < 2 ^ 64 }
    ensures { result ≡ goes_wrong successors.now home node steps }
{
    if steps == 0 {
        return node != home;
    }
    if node == home {
        return true;
    }
    match entry(1, successors, node) {
        Some(next) => {
            is_one(next) && goes_wrong(successors, home, i128::from(low_of(next)), steps - 1)
        }
        None => true,
    }
}

/// The first node from one on from which they don't go wrong, of so many.
fn raised(successors: &[Info], home: i128, node: i128, steps: usize, many: usize) -> i128
    requires least { length successors.now < 2 ^ 64 }
    requires most { (node +ℤ pos many) ≤ℤ pos (2 ^ 100) }
    requires low { neg_ℤ (pos (2 ^ 100)) ≤ℤ node }
    ensures { result ≡ raised successors.now home node steps many }
{
    if 0 < many && goes_wrong(successors, home, node, steps) {
        raised(successors, home, node + 1, steps, many - 1)
    } else {
        node
    }
}

/// The last node back from one from which they don't go wrong, of so many.
fn lowered(successors: &[Info], home: i128, node: i128, steps: usize, many: usize) -> i128
    requires least { length successors.now < 2 ^ 64 }
    requires most { neg_ℤ (pos (2 ^ 100)) ≤ℤ (node -ℤ pos many) }
    requires high { node ≤ℤ pos (2 ^ 100) }
    ensures { result ≡ lowered successors.now home node steps many }
{
    if 0 < many && goes_wrong(successors, home, node, steps) {
        lowered(successors, home, node - 1, steps, many - 1)
    } else {
        node
    }
}

/// The first node that a node may go on to.
fn earliest(successors: &[Info], home: i128, own: Info) -> i128
    requires some { 1 ≤ length successors.now }
    requires few { length successors.now < 2 ^ 64 }
    ensures { result ≡ earliest successors.now home own }
{
    let count = successors.len();
    raised(
        successors,
        home,
        i128::from(low_of(own).max(1)),
        count - 1,
        count,
    )
}

/// The last node that a node may go on to.
fn latest(successors: &[Info], home: i128, own: Info) -> i128
    requires some { 1 ≤ length successors.now }
    requires few { length successors.now < 2 ^ 64 }
    ensures { result ≡ latest successors.now home own }
{
    let count = successors.len();
    let high = i128::from(high_of(own)).min(count as i128);
    lowered(successors, home, high, count - 1, count)
}

/// What is known of the successor of a node that is known.
fn around(successors: &[Info], home: i128, own: Info) -> Info
    ensures { result ≡ around successors.now home own }
{
    if home < 1 || (successors.len() as i128) < home {
        Info::Contradiction
    } else {
        known(
            earliest(successors, home, own),
            latest(successors, home, own),
        )
    }
}

/// What is known of the successor of a node of a circuit: the arguments are what is known of it,
/// the number of the node, and the successors of all nodes.
pub fn successor_around(args: &[Info]) -> Info
    ensures { result ≡ circuit_of args.now }
{
    match args {
        [own, node, successors @ ..] if is_one(*node) => {
            around(successors, i128::from(low_of(*node)), *own)
        }
        _ => Info::Nothing,
    }
}
