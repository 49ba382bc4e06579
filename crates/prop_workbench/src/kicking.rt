//! The commands that change what is believed.

use crate::session::Session;
use prop_lattice::Refusal;
use prop_procedures::Rule;
use prop_scheduler::{Order, alert_shifted};

impl<R: Rule + Drop, O: Order + Drop> Session<R, O> {
    ghost use Rattle.std.specs.Prelude.{◌≡◌};
    ghost use Rattle.prop_language.specs.Commands as commands;
    ghost use Rattle.prop_workbench.specs.Sessions.{IsInOrder};
    ghost use Rattle.prop_workbench.specs.inner.Sessions.{Keeps};
    ghost use Rattle.prop_workbench.specs.inner.Carrying.{IsDone, HasLeft};

    /// The premise with a name is no longer believed. Where that is a change, every choice stands
    /// on its first side again, and of the cells that this shifts the readers and writers wait.
    pub(crate) fn kick(&mut self, name: &str) -> Result<(), Refusal>
        requires sound { IsInOrder R.value_of self.old }
        ensures keeps { Keeps R.value_of self.old self.new }
        ensures step { IsDone R.value_of self.old (commands.Command.Kick name.now) result self.new }
        ensures wakes { HasLeft self.old (commands.Command.Kick name.now) result self.new }
    {
        let premise = self.search.premises().find(name)?;
        let Some(before) = self.search.kick(premise)? else {
            return Ok(());
        };
        alert_shifted(&mut self.live, &before, self.search.worldview());
        Ok(())
    }

    /// The premise with a name is believed from now on. Where that is a change, of the cells that
    /// it shifts the readers and writers wait.
    pub(crate) fn bring(&mut self, name: &str) -> Result<(), Refusal>
        requires sound { IsInOrder R.value_of self.old }
        ensures keeps { Keeps R.value_of self.old self.new }
        ensures step { IsDone R.value_of self.old (commands.Command.Bring name.now) result
            self.new }
        ensures wakes { HasLeft self.old (commands.Command.Bring name.now) result self.new }
    {
        let premise = self.search.premises().find(name)?;
        let Some(before) = self.search.bring(premise)? else {
            return Ok(());
        };
        alert_shifted(&mut self.live, &before, self.search.worldview());
        Ok(())
    }
}
