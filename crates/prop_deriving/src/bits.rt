//! Elements of a domain by their bits.
ghost use Rattle.std.specs.Prelude.{◌≡◌, ◌<◌, ◌^◌, ◌-◌};

use prop_facts::Fact;
use prop_lattice::Elements;

/// How many elements a set can tell apart.
pub(crate) const BITS: u8 = 64;

/// The bits of the first elements, so many.
pub(crate) fn mask(size: u8) -> u64
    ensures { size < 64 → result ≡ 2 ^ size - 1 }
{
    if size < BITS {
        (1 << size) - 1
    } else {
        u64::MAX
    }
}

/// That the value is one of the elements with these bits; none where there is no bit.
pub(crate) fn among(bits: u64) -> Option<Fact> {
    let elements = Elements::new(bits)?;
    Some(Fact::Among(elements))
}
