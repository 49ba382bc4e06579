//! From one worldview to another.
ghost use Rattle.prop_numbers.specs.Sets.{set_of};
ghost use Rattle.prop_numbers.specs.Changes.{may_change, CoversChange};

use crate::premise_set::PremiseSet;
use crate::worldview::Worldview;
use prop_numbers::Change;

/// A worldview, another one after it, and which premises may be believed in just one of them.
#[derive(Clone, Copy)]
pub struct Shift<'a> {
    pub before: &'a Worldview,
    pub after: &'a Worldview,
    pub change: Change,
    pub ghost covers: { CoversChange (set_of before.now) (set_of after.now) (may_change change) },
}

impl<'a> Shift<'a> {
    ghost use Rattle.std.specs.Prelude.{◌≡◌, ◌≢◌, ℕ, false, IsTrue};

    /// What changes is found out once, for all sets of premises. It takes no memory.
    pub fn new(before: &'a Worldview, after: &'a Worldview) -> Shift<'a>
        ensures before { result.before.now ≡ before.now }
        ensures after { result.after.now ≡ after.now }
    {
        Shift {
            before,
            after,
            change: before.change(after),
        }
    }

    /// Whether some premise of the set is believed in just one of the worldviews. It takes no
    /// memory.
    #[inline]
    pub fn differs_at(&self, premises: &PremiseSet) -> bool
        ensures apart { IsTrue result → (p : ℕ) × IsTrue (set_of premises.now p)
            × (set_of self.now.before.now p ≢ set_of self.now.after.now p) }
        ensures alike { result ≡ false → (p : ℕ) → IsTrue (set_of premises.now p)
            → set_of self.now.before.now p ≡ set_of self.now.after.now p }
    {
        premises.meets(&self.change) && self.before.differs_at(self.after, premises)
    }
}
