//! The names of one space, numbered in order of first appearance.
ghost use Rattle.std.specs.Prelude.{◌≡◌, ◌<◌, ◌++◌, ◌∷◌, ◌-◌, [], ℕ, List, length, map, take};
ghost use Rattle.std.specs.Prelude.{string_bytes, unwrap_or, slice_get, Some, None, OnOk};
ghost use Rattle.std.specs.Prelude.{OnErr, IfOk, IfSome};
ghost use Rattle.prop_vocabulary.specs.Names.{number_in, numbers_in};

use crate::crowd::Crowd;
use crate::sorted::SortedNames;
use indexmap::IndexSet;
use std::alloc::{AllocError, Global};
use std::marker::Model;

/// Among so few names it doesn't count how many have a part of their hash in common.
const FEW: usize = 32;

/// The names of one space, each with its number: the first has 0.
#[derive(Drop)]
pub struct Names {
    /// Those that came first, by their hashes.
    hashed: IndexSet<String>,
    /// Those from the first on with whose hash too many of them had a part in common.
    sorted: SortedNames,
    crowd: Crowd,
}

impl Model for Names {
    ghost use Rattle.std.specs.Prelude.{ℕ, List, map, string_bytes, ◌++◌};

    ghost Value = { List (List ℕ) };

    ghost view = { λ n. map string_bytes n.hashed.keys ++ n.sorted };
}

/// A new name behind those in the set. After an error they are as they were.
fn push_hashed(names: &mut IndexSet<String>, alloc: Global, name: &str) -> Result<(), AllocError>
    requires { number_in (map string_bytes names.old.keys) name.now ≡ None }
    ensures ok { OnOk result (map string_bytes names.new.keys
        ≡ map string_bytes names.old.keys ++ name.now ∷ []) }
    ensures err { OnErr result (names.new.keys ≡ names.old.keys) }
{
    let owned = String::from_str(alloc, name)?;
    names.insert(owned)?;
    Ok(())
}

impl Names {
    /// No names. Takes no memory.
    pub fn new(alloc: Global) -> Names
        ensures { result ≡ [] }
    {
        Names {
            hashed: IndexSet::new(alloc),
            sorted: SortedNames::new(alloc),
            crowd: Crowd::new(alloc),
        }
    }

    /// How many names there are.
    pub fn len(&self) -> usize
        ensures { result ≡ length self.now }
    {
        self.hashed.len() + self.sorted.len()
    }

    /// The name with this number.
    pub fn name(&self, number: usize) -> &str
        requires { number < length self.now }
        ensures { slice_get self.now number ≡ Some result.now }
    {
        match self.hashed.get_index(number) {
            Some(name) => name.as_str(),
            None => self.sorted.name(number - self.hashed.len()),
        }
    }

    /// The number of the name, looked up by its hash, or in the order of the names where it is one
    /// that stands behind too many with the like.
    pub fn find(&self, name: &str) -> Option<usize>
        ensures number { result ≡ number_in self.now name.now }
        ensures within { IfSome result (λ n. n < length self.now) }
    {
        match self.hashed.get_index_of(name) {
            Some(number) => Some(number),
            None => {
                let number = self.sorted.find(name)?;
                Some(self.hashed.len() + number)
            }
        }
    }

    /// The number of the name, or 0 where there is none.
    pub fn number(&self, name: &str) -> usize
        ensures { result ≡ unwrap_or (number_in self.now name.now) 0 }
    {
        self.find(name).unwrap_or(0)
    }

    /// The numbers of the names.
    pub fn numbers(&self, alloc: Global, names: &[&str]) -> Result<Vec<usize>, AllocError>
        ensures { IfOk result (λ v. v.items ≡ numbers_in self.now (map (λ x. x.now) names.now)) }
    {
        let mut numbers = Vec::new(alloc);
        for name in names {
            numbers.push(self.number(name))?;
        }
        Ok(numbers)
    }

    /// A new name, which has the next number. After an error the names are as they were.
    pub fn push(&mut self, alloc: Global, name: &str) -> Result<(), AllocError>
        requires { number_in self.old name.now ≡ None }
        ensures ok { OnOk result (self.new ≡ self.old ++ name.now ∷ []) }
        ensures err { OnErr result (self.new ≡ self.old) }
    {
        if self.sorted.len() > 0 {
            return self.sorted.push(alloc, name);
        }
        if self.hashed.len() < FEW || self.crowd.admits(alloc, name)? {
            push_hashed(&mut self.hashed, alloc, name)
        } else {
            self.sorted.push(alloc, name)
        }
    }

    /// Leaves out the last name. Takes no memory.
    pub fn pop(&mut self)
        ensures { self.new ≡ take (length self.old - 1) self.old }
    {
        if self.sorted.len() > 0 {
            self.sorted.pop();
        } else if let Some(name) = self.hashed.pop() {
            self.crowd.leave(name.as_str());
        }
    }

    /// Leaves out all names but the first `count`. Takes no memory.
    pub fn truncate(&mut self, count: usize)
        ensures { self.new ≡ take count self.old }
    {
        while self.len() > count {
            self.pop();
        }
    }
}
