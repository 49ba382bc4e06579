//! Why the program ends before its input does.
ghost use Rattle.std.specs.Prelude.{◌≡◌};
ghost use Rattle.prop_program.specs.Faults.{status_of, IsMemory};

use prop_workbench::EngineFault;
use std::alloc::{AllocError, AllocFailed};
use thiserror::Error;

/// Why the program ends before its input does.
#[derive(Clone, Copy, Debug, Error)]
pub enum Fault {
    /// Memory was refused before the session began.
    #[error("out of memory")]
    Memory(AllocError),
    /// The session ended before its input did.
    #[error(transparent)]
    Engine(EngineFault),
}

impl Fault {
    /// The status that the program ends with.
    pub fn status(self) -> u8
        ensures { result ≡ status_of self }
    {
        match self {
            Fault::Engine(EngineFault::Read | EngineFault::Write) => 2,
            Fault::Engine(EngineFault::Reads) => 3,
            Fault::Memory(AllocError) => 4,
        }
    }
}

// By hand, since a derived `From` has no contract.
impl From<AllocError> for Fault {
    ghost from_gives = { λ _ fault. IsMemory fault };

    fn from(error: AllocError) -> Fault {
        Fault::Memory(error)
    }
}

impl<T: Drop> From<AllocFailed<T>> for Fault {
    ghost from_gives = { λ _ fault. IsMemory fault };

    fn from(_failed: AllocFailed<T>) -> Fault {
        Fault::Memory(AllocError)
    }
}
