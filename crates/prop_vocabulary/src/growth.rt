//! Lists that grow together.
ghost use Rattle.std.specs.Prelude.{◌≡◌, ◌++◌, ◌∷◌, [], None, OnOk, OnErr};
ghost use Rattle.prop_vocabulary.specs.Names.{number_in};

use crate::names::Names;
use std::alloc::{AllocError, Global};

/// One more name, and what has it. After an error both lists are as they were.
pub(crate) fn push_named<T: Drop>(
    alloc: Global,
    names: &mut Names,
    things: &mut Vec<T>,
    name: &str,
    thing: T,
) -> Result<(), AllocError>
    requires { number_in names.old name.now ≡ None }
    ensures names { OnOk result (names.new ≡ names.old ++ name.now ∷ []) }
    ensures things { OnOk result (things.new.items ≡ things.old.items ++ thing ∷ []) }
    ensures same_names { OnErr result (names.new ≡ names.old) }
    ensures same_things { OnErr result (things.new.items ≡ things.old.items) }
{
    things.push(thing)?;
    match names.push(alloc, name) {
        Ok(()) => Ok(()),
        Err(AllocError) => {
            let _ = things.pop();
            Err(AllocError)
        }
    }
}
