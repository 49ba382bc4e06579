//! One side of a relation.
ghost use Rattle.std.specs.Prelude.{◌≤◌};

/// A domain that a relation is about: its number, and how many elements it has, up to 64.
#[derive(Clone, Copy, Debug, PartialEq, Eq)]
pub struct Side {
    pub domain: u16,
    pub size: u8,
    pub ghost fits: { size ≤ 64 },
}
