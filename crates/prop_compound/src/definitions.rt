//! The definitions of a session, by name and by number.
ghost use Rattle.std.specs.Prelude.{◌≡◌, ◌<◌, length, IfSome};
ghost use Rattle.prop_procedures.specs.Stored.{Stored};
ghost use Rattle.prop_vocabulary.specs.Names.{number_in};
ghost use Rattle.prop_compound.specs.Definitions.{no_definitions};
ghost use Rattle.prop_compound.specs.InPlace.{UsesArePutInPlace};
ghost use Rattle.prop_compound.specs.Kept.{IsDefinedOver};
ghost use Rattle.std.specs.Prelude.{List};

use crate::definition::KeptDefinition;
use prop_vocabulary::Names;
use std::alloc::Global;
use std::marker::Model;

/// Definitions of compounds, each numbered in the order in which it was made and known by its name.
/// They are resolved: names neither go nor change what they stand for, so that what a definition
/// means is settled when it is made.
#[derive(Drop)]
pub struct Definitions {
    pub(crate) names: Names,
    pub(crate) definitions: Vec<KeptDefinition>,
}

impl Model for Definitions {
    ghost use Rattle.std.specs.Prelude.{◌≡◌, length};
    ghost use Rattle.prop_compound.specs.Definitions as compounds;
    ghost use Rattle.prop_compound.specs.Kept.{all_bare};
    ghost use Rattle.prop_compound.specs.inner.Kept.{AreKept};

    ghost Value = { compounds.Definitions };

    ghost view = { λ d. record { names = d.names; definitions = all_bare d.definitions.items } };

    ghost invariant = { λ d. (length d.names ≡ length d.definitions.items)
        × AreKept d.definitions.items };
}

impl Definitions {
    /// No definitions. Takes no memory.
    pub fn new(alloc: Global) -> Definitions
        ensures none { result ≡ no_definitions }
        ensures over { (library : List Stored) → IsDefinedOver library result }
    {
        Definitions {
            names: Names::new(alloc),
            definitions: Vec::new(alloc),
        }
    }

    /// A use equals its flat list put in place: whatever was made before, on cells that are there
    /// it adds just the fresh cells and the instances of the flat list, each parameter replaced by
    /// the given cell and each fresh cell by the next one.
    pub fn uses_are_put_in_place(&self)
        ensures { UsesArePutInPlace self.now.definitions }
    {
        let _ = &self.definitions;
    }

    /// How many definitions there are.
    pub fn len(&self) -> usize
        ensures { result ≡ length self.now.definitions }
    {
        self.definitions.len()
    }

    /// The number of the definition with this name, looked up by its hash.
    pub fn find(&self, name: &str) -> Option<usize>
        ensures number { result ≡ number_in self.now.names name.now }
        ensures there { IfSome result (λ n. n < length self.now.definitions) }
    {
        self.names.find(name)
    }
}
