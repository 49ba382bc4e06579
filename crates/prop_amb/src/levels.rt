//! Sides of choices that are believed no longer.
ghost use Rattle.std.specs.Prelude.{◌≡◌, ◌≤◌, ◌<◌, ◌*◌, ℕ, IsTrue, false, length, take};
ghost use Rattle.prop_refusals.specs.Refusals.{most};
ghost use Rattle.prop_refusals.specs.declared.refusal.Limit.TheVariants.{Premises};
ghost use Rattle.prop_numbers.specs.Sets.{Members, set_of, IsSame};
ghost use Rattle.prop_premises.specs.ChoiceLists.{worldview, is_hypothetical, IsChoiceList};
ghost use Rattle.prop_premises.specs.ChoiceLists.{AreInOrder};

use prop_premises::{Choice, Premise, Worldview};

/// Of the choices below the level the sides on which they stand were believed, and now those of the
/// choices below another one. It takes no memory.
pub(crate) fn leave(
    believed: &mut Worldview,
    choices: &[Choice],
    list: &[u8],
    from: usize,
    level: usize,
)
    requires list { IsChoiceList choices.now list.now }
    requires room { length choices.now * 4 < 9_223_372_036_854_775_808 }
    requires order { AreInOrder choices.now }
    requires small { (p : ℕ) → IsTrue (is_hypothetical choices.now p) → p < most Premises }
    requires level { level ≤ length list.now }
    requires from { from ≤ level }
    ensures { (users : Members)
        → ((p : ℕ) → IsTrue (users p) → is_hypothetical choices.now p ≡ false)
        → IsSame (set_of believed.old) (worldview users choices.now (take level list.now))
        → IsSame (set_of believed.new) (worldview users choices.now (take from list.now)) }
{
    for place in (from..level).rev() {
        let side = Premise::from(list[place] - 1);
        believed.disbelieve(choices[place].first + side);
    }
}
