//! The names of premises and choices, each with its numbers.
ghost use Rattle.std.specs.Prelude.{◌≡◌, ◌≤◌, ◌<◌, ◌+◌, ◌*◌, ◌++◌, ℕ, List, [], Some, length, take};
ghost use Rattle.std.specs.Prelude.{replicate, None, true, false, slice_get, option_map};
ghost use Rattle.std.specs.Prelude.{IsTrue, IsOk, IfSome, OnOk, OnErr};
ghost use Rattle.std.specs.HashMap.{IsUnique};
ghost use Rattle.std.specs.String.{string_eq};
ghost use Rattle.prop_refusals.specs.Refusals.{most};
ghost use Rattle.prop_refusals.specs.declared.refusal.Limit.TheVariants.{Premises};
ghost use Rattle.prop_numbers.specs.Sets.{union, IsSame};
ghost use Rattle.prop_numbers.specs.Words.{has_bit};
ghost use Rattle.prop_premises.specs.Origins.{Origin, premise_number, is_choice, is_user_at};
ghost use Rattle.prop_premises.specs.Origins.{with_belief_at, is_start, name_of, IsNumbered};
ghost use Rattle.prop_premises.specs.Origins.{choices_of, believed_in};
ghost use Rattle.prop_premises.specs.ChoiceLists.{is_hypothetical};
ghost use Rattle.prop_premises.specs.inner.Named.{origins_of, origins_of_kind, places_from, width};
ghost use Rattle.prop_premises.specs.inner.Named.{told, number_of, is_choices, IsKind};
ghost use Rattle.prop_premises.specs.inner.Named.{AreNumberedFrom};

use crate::named::{Kind, Named, Source};
use crate::premise_set::Premise;
use indexmap::IndexMap;
use prop_numbers::bits::set_bit;
use std::alloc::{AllocError, Global};
use std::marker::Model;

/// The names by number and the numbers by name, no more numbers than there can be.
#[derive(Drop)]
pub(crate) struct Table {
    /// The names in the order in which they first appeared.
    names: IndexMap<String, Named>,
    /// For each number, which of the names has it.
    places: Vec<u16>,
}

impl Model for Table {
    ghost Value = { List Origin };

    ghost view = { λ t. origins_of t.names.entries };

    ghost invariant = { λ t. (length t.places.items ≤ most Premises)
        × AreNumberedFrom 0 t.names.entries × (t.places.items ≡ places_from 0 t.names.entries) };
}

/// What the name stands for, `None` where it is new.
fn look_up(names: &IndexMap<String, Named>, name: &str) -> Option<Named>
    requires { AreNumberedFrom 0 names.now.entries }
    ensures number { number_of result ≡ premise_number (origins_of names.now.entries) name.now }
    ensures choice { is_choices result ≡ is_choice (origins_of names.now.entries) name.now }
{
    let place = names.get_index_of(name)?;
    Some(names[place])
}

/// Puts a new name last.
fn push_name(
    names: &mut IndexMap<String, Named>,
    name: &str,
    named: Named,
) -> Result<(), AllocError>
    requires user { premise_number (origins_of names.old.entries) name.now ≡ None }
    requires choice { is_choice (origins_of names.old.entries) name.now ≡ false }
    requires unique { IsUnique string_eq names.old }
    requires numbered { AreNumberedFrom 0 names.old.entries }
    requires next { named.first ≡ length (origins_of names.old.entries) }
    requires kind { IsKind named.kind }
    ensures ok { OnOk result (origins_of names.new.entries ≡ origins_of
        names.old.entries ++ origins_of_kind name.now named.kind) }
    ensures numbered { OnOk result (AreNumberedFrom 0 names.new.entries) }
    ensures places { OnOk result (places_from 0 names.new.entries ≡ places_from 0
        names.old.entries ++ replicate (width named.kind) (length names.old.entries)) }
    ensures err { OnErr result (names.new.entries ≡ names.old.entries) }
{
    let alloc = *names.allocator();
    let name = String::from_str(alloc, name)?;
    names.insert(name, named)?;
    Ok(())
}

impl Table {
    /// No names. It takes no memory.
    pub(crate) fn new(alloc: Global) -> Table
        ensures { result ≡ [] }
    {
        Table {
            names: IndexMap::new(alloc),
            places: Vec::new(alloc),
        }
    }

    pub(crate) fn alloc(&self) -> Global {
        *self.names.allocator()
    }

    /// How many numbers there are.
    pub(crate) fn len(&self) -> usize
        ensures len { result ≡ length self.now }
        ensures bound { result ≤ most Premises }
        ensures below { (p : ℕ) → IsTrue (is_hypothetical (choices_of self.now) p)
            → p < length self.now }
    {
        self.places.len()
    }

    /// What the name stands for, `None` where it is new.
    pub(crate) fn look_up(&self, name: &str) -> Option<Named>
        ensures number { number_of result ≡ premise_number self.now name.now }
        ensures choice { is_choices result ≡ is_choice self.now name.now }
        ensures user { IfSome (number_of result) (λ p. IsTrue (is_user_at self.now p)) }
    {
        look_up(&self.names, name)
    }

    /// Where the premise with this number comes from.
    pub(crate) fn source(&self, premise: Premise) -> Option<Source<'_>>
        ensures { option_map told result ≡ slice_get self.now premise }
    {
        let place = *self.places.get(usize::from(premise))?;
        let (name, named) = self.names.get_index(usize::from(place))?;
        match named.kind {
            Kind::User(believed) => Some(Source::User(name, believed)),
            Kind::Choice(sides) => {
                let side = (premise - named.first + 1) as u8;
                Some(Source::Side(name, side, sides))
            },
        }
    }

    /// The name of the premise with this number.
    pub(crate) fn name(&self, premise: Premise) -> &str
        requires { premise < length self.now }
        ensures name { option_map name_of (slice_get self.now premise) ≡ Some result.now }
        ensures found { IsTrue (is_user_at self.now premise)
            → premise_number self.now result.now ≡ Some premise }
    {
        let place = usize::from(self.places[usize::from(premise)]);
        prove!(place < self.names.len());
        match self.names.get_index(place) {
            Some((name, _)) => name.as_str(),
            None => unreachable!(),
        }
    }

    /// Adds a new name with the next numbers.
    pub(crate) fn add(&mut self, name: &str, kind: Kind) -> Result<(), AllocError>
        requires user { premise_number self.old name.now ≡ None }
        requires choice { is_choice self.old name.now ≡ false }
        requires kind { IsKind kind }
        requires room { length self.old + width kind ≤ most Premises }
        ensures ok { OnOk result (self.new ≡ self.old ++ origins_of_kind name.now kind) }
        ensures err { OnErr result (self.new ≡ self.old) }
    {
        let count = self.places.len();
        let place = self.names.len() as u16;
        let first = count as Premise;
        self.places.resize(count + kind.width(), place)?;
        match push_name(&mut self.names, name, Named { first, kind }) {
            Ok(()) => Ok(()),
            Err(error) => {
                self.places.truncate(count);
                Err(error)
            },
        }
    }

    /// The user's premise is believed or not, and nothing else changes. It takes no memory.
    pub(crate) fn set_belief(&mut self, premise: Premise, believed: bool)
        requires { IsTrue (is_user_at self.old premise) }
        ensures { self.new ≡ with_belief_at self.old premise believed }
    {
        let place = usize::from(self.places[usize::from(premise)]);
        self.names[place] = Named {
            first: premise,
            kind: Kind::User(believed),
        };
    }

    /// Sets the bit of each believed premise of the user's.
    pub(crate) fn set_believed(&self, words: &mut [u64])
        requires { length self.now ≤ 64 * length words.old }
        ensures len { length words.new ≡ length words.old }
        ensures bits { IsSame (has_bit words.new)
            (union (has_bit words.old) (believed_in self.now)) }
    {
        for place in 0..self.names.len() {
            let named = self.names[place];
            if named.kind.is_believed() {
                set_bit(words, named.first);
            }
        }
    }

    /// Drops the numbers from `count` on. It takes no memory.
    pub(crate) fn back(&mut self, count: usize)
        requires { IsTrue (is_start self.old count) }
        ensures { self.new ≡ take count self.old }
    {
        if count < self.places.len() {
            self.names.truncate(usize::from(self.places[count]));
            self.places.truncate(count);
        }
    }
}
