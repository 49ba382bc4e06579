//! Iteration over the nogoods of a store.
ghost use Rattle.std.specs.Iterator.{YieldsFirstRef, item_count};

use crate::counted::Counted;
use prop_premises::PremiseSet;
use std::marker::Model;

/// The nogoods of a store that are still to come, the smallest first, and those of one size in the
/// order in which they were added.
#[derive(Drop)]
pub struct Nogoods<'a> {
    rest: &'a [Counted],
}

impl<'a> Model for Nogoods<'a> {
    ghost use Rattle.std.specs.Prelude.{List, ℕ};

    ghost Value = { List (List ℕ) };

    ghost view = { λ n. n.rest.now };
}

impl<'a> Nogoods<'a> {
    ghost use Rattle.std.specs.Prelude.{◌≡◌};

    pub(crate) fn new(rest: &'a [Counted]) -> Nogoods<'a>
        ensures { result ≡ rest.now }
    {
        Nogoods { rest }
    }
}

impl<'a> Iterator for Nogoods<'a> {
    type Item = &'a PremiseSet;

    ghost next_gives = { YieldsFirstRef (λ n. n) };

    ghost remaining = { item_count (λ n. n) };

    fn next(&mut self) -> Option<&'a PremiseSet> {
        let (first, rest) = self.rest.split_first()?;
        self.rest = rest;
        Some(first.premises())
    }
}
