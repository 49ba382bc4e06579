//! What is noted of what a layer above requires.
ghost use Rattle.std.specs.Prelude.{◌≡◌};
ghost use Rattle.prop_notes.specs.Notes.{required};
ghost use Rattle.prop_notes.specs.inner.Notes.{note_value};

use crate::notes::{Note, Notes, Use};
use std::alloc::{AllocError, Global};

/// What is noted of what is required, where there are so many cells and instances.
fn required(alloc: Global, cells: usize, instances: usize) -> Note
    ensures { note_value result ≡ required cells instances }
{
    Note::Attached(Use {
        of: None,
        required: true,
        by: String::new(alloc),
        cells,
        instances,
    })
}

impl Notes {
    ghost use Rattle.std.specs.Prelude.{◌≡◌, length, IfOk, OnOk, OnErr};
    ghost use Rattle.prop_notes.specs.Notes.{required, with_note};

    /// Notes that something is required, where there are so many cells and instances, and tells how
    /// much was noted before. After want of memory nothing has changed.
    pub fn require(
        &mut self,
        alloc: Global,
        cells: usize,
        instances: usize,
    ) -> Result<(usize, usize, usize), AllocError>
        ensures ok { OnOk result (self.new ≡ with_note self.old (required cells instances)) }
        ensures counts { IfOk result (λ counts. counts ≡ (
          length self.old.domains,
          length self.old.definitions,
          length self.old.uses,
        )) }
        ensures err { OnErr result (self.new ≡ self.old) }
    {
        let counts = self.counts();
        self.add(required(alloc, cells, instances))?;
        Ok(counts)
    }
}
