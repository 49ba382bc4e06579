//! The commands that declare domains, relations, cells and definitions.
use crate::session::Session;
use prop_compound::{KindWord, Step, kind_named};
use prop_lattice::Refusal;
use prop_procedures::Rule;
use prop_scheduler::{Order, new_cell};

impl<R: Rule + Drop, O: Order + Drop> Session<R, O> {
    ghost use Rattle.std.specs.Prelude.{◌≡◌, ◌<◌, ◌++◌, ◌∷◌, [], ◌⊎◌, map, All, None, Some, OnOk};
    ghost use Rattle.std.specs.Prelude.{OnErr, IfOk, IfErr, ℕ, length};
    ghost use Rattle.prop_refusals.specs.declared.refusal.Refusal.TheVariants.{Memory};
    ghost use Rattle.prop_language.specs.Commands as commands;
    ghost use Rattle.prop_language.specs.Said.{kind_of, words, pairs_of, step_of};
    ghost use Rattle.prop_workbench.specs.Sessions.{IsInOrder, IsMeant};
    ghost use Rattle.prop_workbench.specs.inner.Sessions.{Keeps};
    ghost use Rattle.prop_workbench.specs.inner.Carrying.{IsDone, HasLeft};

    /// Declares a domain.
    pub(crate) fn domain(&mut self, name: &str, elements: &[&str]) -> Result<(), Refusal>
        requires sound { IsInOrder R.value_of self.old }
        requires some { 0 < length elements.now }
        ensures keeps { Keeps R.value_of self.old self.new }
        ensures step { IsDone R.value_of self.old
            (commands.Command.Domain name.now (words elements.now)) result self.new }
        ensures wakes { HasLeft self.old
            (commands.Command.Domain name.now (words elements.now))
            result self.new }
    {
        self.words.declare_domain(name, elements)
    }

    /// Declares a relation.
    pub(crate) fn relation(
        &mut self,
        name: &str,
        from: &str,
        to: &str,
        pairs: &[(&[u8], &[u8])],
    ) -> Result<(), Refusal>
        requires sound { IsInOrder R.value_of self.old }
        ensures keeps { Keeps R.value_of self.old self.new }
        ensures step { IsDone R.value_of self.old
            (commands.Command.Relation name.now from.now to.now (pairs_of pairs.now)) result
            self.new }
        ensures wakes { HasLeft self.old
            (commands.Command.Relation name.now from.now to.now (pairs_of pairs.now))
            result self.new }
    {
        self.words.declare_relation(name, from, to, pairs)
    }

    /// Makes a definition.
    pub(crate) fn define(
        &mut self,
        name: &str,
        params: &[&str],
        steps: &[Step],
    ) -> Result<(), Refusal>
        requires sound { IsInOrder R.value_of self.old }
        ensures keeps { Keeps R.value_of self.old self.new }
        ensures step { IsDone R.value_of self.old
            (commands.Command.Define name.now (words params.now) (map step_of steps.now)) result
            self.new }
        ensures wakes { HasLeft self.old
            (commands.Command.Define name.now (words params.now) (map step_of steps.now))
            result self.new }
    {
        self.definitions.define(
            self.alloc,
            self.live.network().library(),
            &self.words,
            name,
            params,
            steps,
        )
    }

    /// Makes a cell.
    pub(crate) fn cell(&mut self, name: &str, kind: KindWord) -> Result<(), Refusal>
        requires sound { IsInOrder R.value_of self.old }
        ensures keeps { Keeps R.value_of self.old self.new }
        ensures step { IsDone R.value_of self.old
            (commands.Command.Cell name.now (kind_of kind.entry)) result self.new }
        ensures wakes { HasLeft self.old
            (commands.Command.Cell name.now (kind_of kind.entry))
            result self.new }
    {
        match self.names.find(name) {
            Some(_) => return Err(Refusal::NameTaken),
            None => {}
        }
        let kind = match kind_named(&self.words, kind) {
            Some(kind) => kind,
            None => return Err(Refusal::NoSuchDomain),
        };
        self.names
            .push(self.alloc, name, self.live.network().cells())?;
        match new_cell(&mut self.live, kind) {
            Ok(()) => Ok(()),
            Err(refusal) => {
                self.names.pop();
                Err(refusal)
            }
        }
    }
}
