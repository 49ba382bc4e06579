//! How a session over a reader and a writer ends.

use thiserror::Error;

/// Why a session ended before its input did.
#[derive(Clone, Copy, Debug, PartialEq, Eq, Error)]
pub enum EngineFault {
    /// A read failed.
    #[error("read fault")]
    Read,
    /// A write or a flush failed, or a write took no byte.
    #[error("write fault")]
    Write,
    /// The reads that were allowed did not reach the end of the input.
    #[error("too many reads")]
    Reads,
}

/// How many lines a session carried out, silent ones among them, and how many it refused.
#[derive(Clone, Copy, Debug, PartialEq, Eq)]
pub struct Counts {
    pub lines: u128,
    pub refused: u128,
}
