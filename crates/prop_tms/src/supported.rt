//! A value with its support.

use prop_premises::PremiseSet;

/// A value that is known where all premises of its support are believed.
#[derive(Drop)]
pub struct Supported<V: Drop> {
    pub value: V,
    pub support: PremiseSet,
}
