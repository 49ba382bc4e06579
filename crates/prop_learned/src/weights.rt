//! How often each place was in what refuted something.
ghost use Rattle.std.specs.Prelude.{◌≡◌, ◌≢◌, ◌≤◌, ℕ, IfOk, map};
ghost use Rattle.prop_learned.specs.Weighing.{weight_of, lowered, added};

use std::alloc::{AllocError, Global};
use std::marker::Model;

/// As much as a place may weigh: where one would weigh more, all are made to weigh less.
const MOST: u64 = 1 << 50;

/// A weight for each place. What counts later counts more.
#[derive(Drop)]
pub struct Weights {
    each: Vec<u64>,
    bump: u64,
}

impl Model for Weights {
    ghost use Rattle.prop_learned.specs.Weighing.{Weighed, AreWeights};

    ghost Value = { Weighed };

    ghost view = { λ w. record { each = w.each.items; bump = w.bump } };

    ghost invariant = { λ w. AreWeights w.each.items };
}

/// A smaller weight for each.
fn lower(each: &mut [u64])
    ensures { each.new ≡ map lowered each.old }
{
    for weight in each {
        *weight = (*weight >> 30) + 1;
    }
}

impl Weights {
    /// Each of so many places weighs 1.
    pub fn new(alloc: Global, places: usize) -> Result<Weights, AllocError>
        ensures { IfOk result (λ w. (place : ℕ) → weight_of w place ≡ 1) }
    {
        Ok(Weights {
            each: vec![in alloc; 1; places]?,
            bump: 1_024,
        })
    }

    /// The place weighs more, where there is such a place. Where it would weigh too much, all weigh
    /// less then. What weighed no more than another place still does, but for this place.
    pub fn add(&mut self, place: usize)
        ensures added { self.new ≡ added self.old place }
        ensures order { (a b : ℕ) → a ≢ place → weight_of self.old a ≤ weight_of self.old b
            → weight_of self.new a ≤ weight_of self.new b }
    {
        if place >= self.each.len() {
            return;
        }
        let weight = self.each[place].saturating_add(self.bump);
        self.each[place] = weight;
        if weight > MOST {
            lower(&mut self.each);
            self.bump = (self.bump >> 30) + 1;
        }
    }

    /// What is added from now on counts a sixteenth more.
    pub fn grow(&mut self)
        ensures { (place : ℕ) → weight_of self.new place ≡ weight_of self.old place }
    {
        self.bump = self.bump.saturating_add(self.bump >> 4);
    }

    /// What the place weighs: 1 where there is no such place.
    pub fn of(&self, place: usize) -> u64
        ensures same { result ≡ weight_of self.now place }
        ensures least { 1 ≤ result }
    {
        match self.each.get(place) {
            Some(weight) => *weight,
            None => 1,
        }
    }
}
