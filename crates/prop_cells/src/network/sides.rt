//! A network states the sides of a choice, all or none.
ghost use Rattle.std.specs.Prelude.{◌≡◌, ◌<◌, ◌≤◌, ◌+◌, ◌^◌, ◌++◌, ◌⊎◌, length, All, IsTrue, IfErr};
ghost use Rattle.std.specs.Prelude.{IfSome, OnOk, OnErr, None, Some, Err};
ghost use Rattle.prop_procedures.specs.Fitting.{kind_at};
ghost use Rattle.prop_procedures.specs.Kept.{stored_of};
ghost use Rattle.prop_cells.specs.Data.{IsKept};
ghost use Rattle.prop_cells.specs.Refusing.{may_be_stated, sides_refusal};
ghost use Rattle.prop_cells.specs.Sides.{sides_at, StatesAll, AreUnderBelow};

use super::Network;
use prop_lattice::{Info, Limit, Refusal};
use prop_premises::Premise;
use prop_procedures::Rule;

impl<R: Rule + Drop> Network<R> {
    /// States an information for each side of a choice at a cell, the first side under this premise
    /// and each further one under the next; no statement rests on these premises yet, and each
    /// information may be stated at the cell. Refused with 16 where there would be too many
    /// statements, before any memory is taken, and with 90; a refusal changes nothing.
    pub fn state_sides(
        &mut self,
        first: Premise,
        cell: usize,
        infos: &[Info],
    ) -> Result<(), Refusal>
        requires kept { IsKept (stored_of R.value_of self.old.library) self.old.cells }
        requires cell { cell < length self.old.cells.kinds }
        requires may { All (λ info. IsTrue
            (may_be_stated (kind_at self.old.cells.kinds cell).kind
            (kind_at self.old.cells.kinds cell).size info)) infos.now }
        requires unnamed { AreUnderBelow first self.old.cells.statements }
        requires numbers { first + length infos.now ≤ 2 ^ 16 }
        ensures same { self.new.library ≡ self.old.library }
        ensures kept { IsKept (stored_of R.value_of self.new.library) self.new.cells }
        ensures fits { OnOk result (sides_refusal self.old.cells (length infos.now) ≡ None) }
        ensures ok { OnOk result (StatesAll self.old.cells self.new.cells
            (sides_at first cell infos.now)) }
        ensures rest { OnOk result (self.new.cells
            ≡ record self.old.cells {
              statements = self.old.cells.statements ++ sides_at first cell
                  infos.now;
              contents = self.new.cells.contents;
            }) }
        ensures refused { IfSome (sides_refusal self.old.cells (length infos.now))
            (λ e. result ≡ Err e) }
        ensures err { IfErr result (λ e. (sides_refusal self.old.cells (length infos.now) ≡ Some e)
            ⊎ (e ≡ Refusal.Memory)) }
        ensures err_same { OnErr result (self.new.cells ≡ self.old.cells) }
    {
        if self.cells.statement_count() > Limit::Statements.most() - infos.len() {
            return Err(Refusal::LimitReached(Limit::Statements));
        }
        self.cells.push_sides(first, cell, infos)?;
        Ok(())
    }
}
