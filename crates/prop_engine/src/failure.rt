//! Why a call of a device did nothing.

/// Why a call of a device did nothing.
#[derive(Clone, Copy, Debug, PartialEq, Eq)]
pub enum Failure {
    /// A signal interrupted it, as a terminal's change of size does.
    Interrupted,
    /// Anything else.
    Other,
}
