//! An entry in a row of entries.
ghost use Rattle.std.specs.Prelude.{◌≡◌, length};

use prop_premises::PremiseSet;

/// An entry: a value, and one of the supports that say so.
#[derive(Clone, Copy)]
pub struct Entry<'a, V: Copy> {
    pub value: V,
    pub support: &'a PremiseSet,
}

/// A believed entry, how many premises it rests on, and what the believed entries before it say
/// together.
#[derive(Drop)]
pub struct Gain<'a, V: Copy> {
    pub before: V,
    pub premises: usize,
    pub entry: Entry<'a, V>,
    pub ghost counted: { premises ≡ length entry.support.now },
}
