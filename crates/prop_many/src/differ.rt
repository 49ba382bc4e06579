//! Which numbers are left beside others, from all of which one has to differ.
//!
//! A Hall interval is one in which as many of the others lie, whichever numbers they are, as it has
//! numbers: they take them all, and none is left for one more.
ghost use Rattle.std.specs.Prelude.{◌≡◌, ◌≤ℤ◌, neg_ℤ};
ghost use Rattle.prop_lattice.specs.declared.span.TheConstants.{B};
ghost use Rattle.prop_many.specs.Differ.{any_crowded, before, before_all, behind, differ_of};
ghost use Rattle.prop_many.specs.Free.{EndsAreFree};
ghost use Rattle.prop_many.specs.Differ.{is_crowded, left_beside, past, past_all, widest};

use prop_lattice::Info;
use prop_lattice::span::B;
use prop_wide::ends::{high_of, known, low_of};

/// How many numbers a Hall interval may have at the most that is looked for.
const WIDEST: usize = 64;

/// The widest Hall interval that begins with a number.
#[derive(Clone, Copy)]
struct Hall {
    /// The first number behind it, the number itself where there is none.
    behind: i64,
    /// Whether in one that begins with the number more of the others lie than it has numbers.
    is_crowded: bool,
}

/// What Hall intervals leave of some numbers.
#[derive(Clone, Copy)]
struct Room {
    earliest: i64,
    latest: i64,
    /// Whether the others alone find no room.
    is_crowded: bool,
}

/// The widest Hall interval of the others that begins with a number. Counted is for each width how
/// many of the others lie in the interval of one number more, but not in that of so many.
fn hall_from(others: &[Info], first: i64) -> Hall
    requires least { neg_ℤ B ≤ℤ first }
    requires most { first ≤ℤ B }
    ensures behind { result.behind ≡ behind others.now first }
    ensures crowded { result.is_crowded ≡ is_crowded others.now first (widest others.now) }
{
    let mut counts = [0; WIDEST];
    for other in others {
        let last = high_of(*other) - first;
        if first <= low_of(*other) && last < 64 {
            counts[last as usize] += 1;
        }
    }
    let mut width = 0;
    let mut is_crowded = false;
    let mut lying = 0;
    for (many, count) in counts[..others.len().min(WIDEST)].iter().enumerate() {
        lying += *count;
        width = if many < lying { many + 1 } else { width };
        is_crowded = is_crowded || many + 1 < lying;
    }
    Hall {
        behind: first + width as i64,
        is_crowded,
    }
}

/// No earlier than behind an interval in which the number lies.
fn past(first: i64, behind: i64, number: i64, earliest: i64) -> i64
    ensures { result ≡ past first behind number earliest }
{
    if first <= number && number < behind {
        earliest.max(behind)
    } else {
        earliest
    }
}

/// No later than before an interval in which the number lies.
fn before(first: i64, behind: i64, number: i64, latest: i64) -> i64
    requires { neg_ℤ B ≤ℤ first }
    ensures { result ≡ before first behind number latest }
{
    if first <= number && number < behind {
        latest.min(first - 1)
    } else {
        latest
    }
}

/// What the Hall intervals of the others leave of the numbers from `low` to `high`.
fn left(low: i64, high: i64, others: &[Info]) -> Room
    ensures earliest { result.earliest ≡ past_all others.now others.now low low }
    ensures latest { result.latest ≡ before_all others.now others.now high high }
    ensures crowded { result.is_crowded ≡ any_crowded others.now others.now }
{
    let mut earliest = low;
    let mut latest = high;
    let mut is_crowded = false;
    for other in others {
        let first = low_of(*other);
        let hall = hall_from(others, first);
        earliest = past(first, hall.behind, low, earliest);
        latest = before(first, hall.behind, high, latest);
        is_crowded = is_crowded || hall.is_crowded;
    }
    Room {
        earliest,
        latest,
        is_crowded,
    }
}

/// The numbers from the earliest to the latest, a contradiction where the others find no room.
fn left_beside(own: Info, others: &[Info]) -> Info
    ensures { result ≡ left_beside own others.now }
{
    let left = left(low_of(own), high_of(own), others);
    if left.is_crowded {
        Info::Contradiction
    } else {
        known(i128::from(left.earliest), i128::from(left.latest))
    }
}

/// What is known of a number that differs from others: the arguments are what is known of it, and
/// of each other.
pub fn number_beside(args: &[Info]) -> Info
    ensures { result ≡ differ_of args.now }
{
    match args {
        [own, others @ ..] => left_beside(*own, others),
        _ => Info::Nothing,
    }
}

/// A law: what is left ends with numbers that are in no Hall interval of up to 64 others.
pub fn ends_are_free()
    ensures { EndsAreFree }
{}
