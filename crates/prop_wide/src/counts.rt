//! How many of some truths are `yes`, and back to one of them.
ghost use Rattle.std.specs.Prelude.{◌≡◌};
ghost use Rattle.prop_wide.specs.Counts.{sure_of, possible_of, count_of, may_lie};
ghost use Rattle.prop_wide.specs.Counts.{count_back_of};

use crate::ends::{high_of, low_of};
use crate::truths::{may_be_no, may_be_yes, told};
use prop_intervals::clipped;
use prop_lattice::Info;

/// How many of the truths can't be `no`.
fn sure(truths: &[Info]) -> usize
    ensures { result ≡ sure_of truths.now }
{
    truths.iter().filter(|truth| !may_be_no(**truth)).count()
}

/// How many of the truths may be `yes`.
fn possible(truths: &[Info]) -> usize
    ensures { result ≡ possible_of truths.now }
{
    truths.iter().filter(|truth| may_be_yes(**truth)).count()
}

/// What is known of how many of the truths are `yes`.
pub fn counter(truths: &[Info]) -> Info
    ensures { result ≡ count_of truths.now }
{
    clipped(sure(truths) as i128, possible(truths) as i128)
}

/// Whether `n` may be a number from `least` to `most`.
fn may_lie(n: Info, least: i128, most: i128) -> bool
    ensures { result ≡ may_lie n least most }
{
    i128::from(low_of(n)) <= most && least <= i128::from(high_of(n))
}

/// What is known of a truth where `n` of it and the others are `yes`.
pub fn count_back(n: Info, others: &[Info]) -> Info
    ensures { result ≡ count_back_of n others.now }
{
    let (least, most) = (sure(others) as i128, possible(others) as i128);
    told(may_lie(n, least + 1, most + 1), may_lie(n, least, most))
}
