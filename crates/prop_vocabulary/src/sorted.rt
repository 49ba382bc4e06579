//! Names whose numbers are found by the order of the names: in few steps, whoever picked them.
ghost use Rattle.std.specs.Prelude.{◌≡◌, ◌<◌, ◌++◌, ◌∷◌, ◌-◌, ◌^◌, [], ℕ, List, length, take, None};
ghost use Rattle.std.specs.Prelude.{slice_get, Some, IfSome, OnOk, OnErr};
ghost use Rattle.std.specs.BTreeMap.{get_by_text};
ghost use Rattle.std.specs.Map.{update};
ghost use Rattle.std.specs.Str.{bytes_eq};
ghost use Rattle.prop_vocabulary.specs.Names.{number_in};

use std::alloc::{AllocError, Global};
use std::collections::BTreeMap;
use std::marker::Model;

/// Names, each with its number: the first has 0.
#[derive(Drop)]
pub(crate) struct SortedNames {
    /// In the order of their numbers.
    texts: Vec<String>,
    /// The number of each.
    numbers: BTreeMap<String, usize>,
}

impl Model for SortedNames {
    ghost use Rattle.std.specs.Prelude.{◌≡◌, ℕ, List, map, string_bytes};
    ghost use Rattle.std.specs.BTreeMap.{get_by_text};
    ghost use Rattle.prop_vocabulary.specs.Names.{number_in};

    ghost Value = { List (List ℕ) };

    ghost view = { λ n. map string_bytes n.texts.items };

    ghost invariant = { λ n. (name : List ℕ)
        → get_by_text n.numbers name ≡ number_in (map string_bytes n.texts.items) name };
}

/// Takes the number of the name out, where it is this one.
fn forget(numbers: &mut BTreeMap<String, usize>, name: &str, number: usize)
    ensures gone { get_by_text numbers.old name.now ≡ Some number → (other : List ℕ)
        → get_by_text numbers.new other
        ≡ update bytes_eq (get_by_text numbers.old) name.now None other }
    ensures kept { (get_by_text numbers.old name.now ≡ Some number → ⊥) → (other : List ℕ)
        → get_by_text numbers.new other ≡ get_by_text numbers.old other }
{
    if let Some(found) = numbers.get(name).copied() {
        if found == number {
            let _ = numbers.remove(name);
        }
    }
}

impl SortedNames {
    /// No names. Takes no memory.
    pub(crate) fn new(alloc: Global) -> SortedNames
        ensures { result ≡ [] }
    {
        SortedNames {
            texts: Vec::new(alloc),
            numbers: BTreeMap::new(alloc),
        }
    }

    /// How many names there are.
    pub(crate) fn len(&self) -> usize
        ensures len { result ≡ length self.now }
        ensures small { result < 2 ^ 63 }
    {
        self.texts.len()
    }

    /// The name with this number.
    pub(crate) fn name(&self, number: usize) -> &str
        requires { number < length self.now }
        ensures { slice_get self.now number ≡ Some result.now }
    {
        self.texts[number].as_str()
    }

    /// The number of the name.
    pub(crate) fn find(&self, name: &str) -> Option<usize>
        ensures number { result ≡ number_in self.now name.now }
        ensures within { IfSome result (λ n. n < length self.now) }
        ensures small { length self.now < 2 ^ 63 }
    {
        self.numbers.get(name).copied()
    }

    /// A new name, which has the next number. After an error the names are as they were.
    pub(crate) fn push(&mut self, alloc: Global, name: &str) -> Result<(), AllocError>
        requires { number_in self.old name.now ≡ None }
        ensures ok { OnOk result (self.new ≡ self.old ++ name.now ∷ []) }
        ensures err { OnErr result (self.new ≡ self.old) }
    {
        let number = self.texts.len();
        let text = String::from_str(alloc, name)?;
        let key = String::from_str(alloc, name)?;
        self.texts.push(text)?;
        match self.numbers.insert(key, number) {
            Ok(_) => Ok(()),
            Err(_) => {
                let _ = self.texts.pop();
                Err(AllocError)
            }
        }
    }

    /// Leaves out the last name. Takes no memory.
    pub(crate) fn pop(&mut self)
        ensures { self.new ≡ take (length self.old - 1) self.old }
    {
        if let Some(name) = self.texts.pop() {
            forget(&mut self.numbers, name.as_str(), self.texts.len());
        }
    }
}
