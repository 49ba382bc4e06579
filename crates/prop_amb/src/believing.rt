//! Changes of belief in a search.
ghost use Rattle.std.specs.Prelude.{◌≡◌, IsTrue, Ok, None, true, false, not, is_some, IfOk, IfSome};
ghost use Rattle.std.specs.Prelude.{OnOk, OnErr};
ghost use Rattle.prop_premises.specs.Origins.{is_user_at, with_belief_at};
ghost use Rattle.prop_cells.specs.Problems.{Problem};
ghost use Rattle.prop_amb.specs.Search.{users_of, IsSearch};
ghost use Rattle.prop_amb.specs.Moving.{restarted};

use crate::levels::leave;
use crate::lists::{level_first, put_first};
use crate::reasons::forget;
use crate::search::Search;
use prop_premises::{Premise, Worldview};
use std::alloc::AllocError;

impl Search {
    /// A premise of the user's is no longer believed, and every choice goes to its first side, with
    /// no reason kept. Where it wasn't believed nothing changes, and no memory is taken. Answers
    /// the worldview of before, where it was.
    ///
    /// After want of memory nothing has changed.
    pub fn kick(&mut self, premise: Premise) -> Result<Option<Worldview>, AllocError>
        requires { IsTrue (is_user_at self.old.premises premise) }
        ensures was { IfOk result (λ before. is_some before ≡ users_of self.old premise) }
        ensures before { IfOk result (λ before. IfSome before (λ w. w ≡ self.old.worldview)) }
        ensures kicked { OnOk result
            (users_of self.old premise ≡ true
            → self.new ≡ record (restarted self.old) {
              premises = with_belief_at self.old.premises
                  premise false;
              worldview = self.new.worldview;
            }) }
        ensures out { users_of self.old premise ≡ false
            → (result ≡ Ok None) × (self.new ≡ self.old) }
        ensures err { OnErr result (self.new ≡ self.old) }
        ensures search { (problem : Problem) → IsSearch problem self.old
            → IsSearch problem self.new }
    {
        if !self.premises.is_in(premise) {
            return Ok(None);
        }
        let before = self.worldview.copy()?;
        self.restart();
        self.premises.kick(premise);
        self.worldview.disbelieve(premise);
        self.ahead = None;
        Ok(Some(before))
    }

    /// A premise of the user's is believed again. The choices stay where they stand, and the
    /// reasons are kept. Where it was believed nothing changes, and no memory is taken. Answers the
    /// worldview of before, where it wasn't.
    ///
    /// After want of memory nothing has changed.
    pub fn bring(&mut self, premise: Premise) -> Result<Option<Worldview>, AllocError>
        requires { IsTrue (is_user_at self.old.premises premise) }
        ensures was { IfOk result (λ before. is_some before ≡ not (users_of self.old premise)) }
        ensures before { IfOk result (λ before. IfSome before (λ w. w ≡ self.old.worldview)) }
        ensures brought { OnOk result
            (users_of self.old premise ≡ false
            → self.new ≡ record self.old {
              premises = with_belief_at self.old.premises premise true;
              worldview = self.new.worldview;
            }) }
        ensures known { users_of self.old premise ≡ true
            → (result ≡ Ok None) × (self.new ≡ self.old) }
        ensures err { OnErr result (self.new ≡ self.old) }
        ensures search { (problem : Problem) → IsSearch problem self.old
            → IsSearch problem self.new }
    {
        if self.premises.is_in(premise) {
            return Ok(None);
        }
        let before = self.worldview.copy()?;
        self.worldview.believe(premise)?;
        self.from = 0;
        self.ahead = None;
        self.premises.bring(premise);
        Ok(Some(before))
    }

    /// Every choice goes to its first side, and no reason is kept. It takes no memory.
    pub fn restart(&mut self)
        ensures only { self.new ≡ record (restarted self.old) { worldview = self.new.worldview } }
        ensures search { (problem : Problem) → IsSearch problem self.old
            → IsSearch problem self.new }
    {
        let (choices, list) = (self.premises.choices(), &self.list);
        let level = level_first(list, self.level);
        leave(&mut self.worldview, choices, list, level, self.level);
        put_first(&mut self.list);
        forget(&mut self.reasons);
        self.level = level;
        self.from = 0;
        self.ahead = None;
    }
}
