//! A premise of which a search forgets what it learned.
ghost use Rattle.std.specs.Prelude.{◌≡◌, IsTrue};
ghost use Rattle.prop_premises.specs.Origins.{is_user_at};
ghost use Rattle.prop_cells.specs.Problems.{Problem};
ghost use Rattle.prop_cells.specs.Forgetting.{Forgets};
ghost use Rattle.prop_nogoods.specs.Stores.{lacking};
ghost use Rattle.prop_amb.specs.Search.{IsStand, IsSearch};
ghost use Rattle.prop_amb.specs.Moving.{restarted};

use crate::search::Search;
use prop_premises::Premise;

impl Search {
    /// The nogoods that hold a premise of the user's go, every choice goes to its first side, and
    /// no reason is kept. The premise keeps its name, its number and whether it is believed. So
    /// what is left holds of the problem without the statements under it. It takes no memory.
    pub fn forget(&mut self, premise: Premise)
        requires { IsTrue (is_user_at self.old.premises premise) }
        ensures only { self.new ≡ record (restarted self.old) {
          listed = lacking self.old.listed
              premise;
          worldview = self.new.worldview;
        } }
        ensures stand { IsStand self.new }
        ensures search { (old new : Problem) → Forgets old new premise → IsSearch old self.old
            → IsSearch new self.new }
    {
        self.restart();
        self.store.purge(premise);
        self.ahead = None;
    }
}
