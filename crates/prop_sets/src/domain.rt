//! Domains: finite lists of named elements.
ghost use Rattle.std.specs.Prelude.{◌≡◌, ◌<◌, ◌++◌, ◌∷◌, [], List, ℕ, false, true, length};
ghost use Rattle.std.specs.Prelude.{bytes_eq, position, slice_get, Some, IfSome, IfOk, OnOk};
ghost use Rattle.std.specs.Prelude.{MatchResult};
ghost use Rattle.std.specs.List.{list_any};
ghost use Rattle.prop_sets.specs.Names.{texts_of, names_of, has_repeat, AreElements};
ghost use Rattle.prop_sets.specs.inner.Names.{is_among};
ghost use Rattle.prop_sets.specs.Names.{IsWhy};

use indexmap::IndexSet;
use prop_lattice::{Limit, Refusal};
use std::alloc::{AllocError, Global};
use std::marker::Model;

/// How many elements a domain can have.
const MOST: usize = 64;

/// A domain: its elements by name, numbered in order from 0.
#[derive(Drop)]
pub struct Domain {
    names: IndexSet<String>,
}

impl Model for Domain {
    ghost Value = { List (List ℕ) };

    ghost view = { λ d. names_of d.names.keys };

    ghost invariant = { λ d. AreElements (names_of d.names.keys) };
}

/// Whether the name is one of the names.
fn is_among(name: &str, names: &[&str]) -> bool
    ensures { result ≡ list_any (λ other. bytes_eq name.now other.now) names.now }
{
    names.iter().any(
        |other: &&str| -> bool
            ensures { result ≡ bytes_eq name.entry.now other.now.now }
        { name == *other },
    )
}

/// Whether a name stands twice, each looked up by its hash among those before it.
fn repeats(alloc: Global, names: &[&str]) -> Result<bool, AllocError>
    ensures { IfOk result (λ found. found ≡ has_repeat (texts_of names.now)) }
{
    let mut before = IndexSet::new(alloc);
    for name in names {
        if !before.insert(*name)? {
            return Ok(true);
        }
    }
    Ok(false)
}

/// Whether a name stands twice. Of few names each is compared with those before it, and of many too
/// where memory is refused.
pub fn has_repeat(alloc: Global, names: &[&str]) -> bool
    ensures { result ≡ has_repeat (texts_of names.now) }
{
    if MOST < names.len()
        && let Ok(found) = repeats(alloc, names)
    {
        return found;
    }
    for i in 0..names.len() {
        let before = &names[..i];
        if is_among(names[i], before) {
            return true;
        }
    }
    false
}

/// Puts one more name last.
fn push_name(names: &mut IndexSet<String>, name: &str) -> Result<(), AllocError>
    requires { is_among name.now (names_of names.old.keys) ≡ false }
    ensures { OnOk result (names_of names.new.keys ≡ names_of names.old.keys ++ name.now ∷ []) }
{
    let name = String::from_str(*names.allocator(), name)?;
    names.insert(name)?;
    Ok(())
}

/// The names in order.
fn in_order(alloc: Global, names: &[&str]) -> Result<IndexSet<String>, AllocError>
    requires { has_repeat (texts_of names.now) ≡ false }
    ensures { IfOk result (λ kept. names_of kept.keys ≡ texts_of names.now) }
{
    let mut kept = IndexSet::new(alloc);
    for name in names {
        push_name(&mut kept, name)?;
    }
    Ok(kept)
}

impl Domain {
    /// A domain with these elements, in order.
    ///
    /// A name that stands twice is `NameTaken`, more than 64 of them are `LimitReached`; want of
    /// memory is `Memory`, and stands in the place of neither.
    pub fn new(alloc: Global, names: &[&str]) -> Result<Domain, Refusal>
        requires { 0 < length names.now }
        ensures { MatchResult result
            (λ d. (d ≡ texts_of names.now) × AreElements (texts_of names.now))
            (IsWhy (texts_of names.now)) }
    {
        if has_repeat(alloc, names) {
            return Err(Refusal::NameTaken);
        }
        if names.len() > MOST {
            return Err(Refusal::LimitReached(Limit::Elements));
        }
        let names = in_order(alloc, names)?;
        Ok(Domain { names })
    }

    /// How many elements it has, from 1 to 64.
    pub fn size(&self) -> u8
        ensures size { result ≡ length self.now }
        ensures elements { AreElements self.now }
    {
        self.names.len() as u8
    }

    /// The name of an element, by which `index` finds it.
    pub fn element(&self, i: u8) -> &str
        requires { i < length self.now }
        ensures name { slice_get self.now i ≡ Some result.now }
        ensures index { position (bytes_eq result.now) self.now ≡ Some i }
    {
        prove!(usize::from(i) < self.names.len());
        match self.names.get_index(usize::from(i)) {
            Some(name) => name.as_str(),
            None => unreachable!(),
        }
    }

    /// The number of the element with this name.
    pub fn index(&self, name: &str) -> Option<u8>
        ensures value { result ≡ position (bytes_eq name.now) self.now }
        ensures element { IfSome result (λ i. slice_get self.now i ≡ Some name.now) }
    {
        let i = self.names.get_index_of(name)?;
        Some(i as u8)
    }

    /// The number of the element whose name has these bytes.
    pub fn index_of(&self, name: &[u8]) -> Option<u8>
        ensures { result ≡ position (bytes_eq name.now) self.now }
    {
        match str::from_utf8(name) {
            Ok(name) => self.index(name),
            Err(_) => {
                let _ = &self.names;
                None
            }
        }
    }
}
