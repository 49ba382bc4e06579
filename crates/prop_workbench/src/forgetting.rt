//! The command that forgets a premise.

use crate::session::Session;
use prop_lattice::Refusal;
use prop_procedures::Rule;
use prop_scheduler::{Order, purge};

impl<R: Rule + Drop, O: Order + Drop> Session<R, O> {
    ghost use Rattle.prop_language.specs.Commands as commands;
    ghost use Rattle.prop_engine.specs.Answers.{answer_done};
    ghost use Rattle.prop_workbench.specs.Sessions.{shown_of, library_of, IsInOrder};
    ghost use Rattle.prop_workbench.specs.inner.Sessions.{Stays};
    ghost use Rattle.prop_workbench.specs.inner.Steps.{IsObeyed};
    ghost use Rattle.prop_workbench.specs.inner.Carrying.{HasLeft};

    /// The premise with a name is forgotten: its statements go, and the nogoods that hold it. It
    /// keeps its name, its number and whether it is believed. Every choice stands on its first side
    /// again, and every procedure waits.
    pub(crate) fn forget(&mut self, name: &str) -> Result<(), Refusal>
        requires sound { IsInOrder R.value_of self.old }
        ensures stays { Stays R.value_of self.old self.new }
        ensures step { IsObeyed (library_of R.value_of self.old) (commands.Command.Forget name.now)
            (answer_done result) 0 (shown_of self.old) (shown_of self.new) }
        ensures wakes { HasLeft self.old (commands.Command.Forget name.now) result self.new }
    {
        let premise = self.search.premises().find(name)?;
        self.search.forget(premise);
        purge(&mut self.live, premise);
        Ok(())
    }
}
