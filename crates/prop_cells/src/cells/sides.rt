//! Cells take the statements of a choice, all or none.
ghost use Rattle.std.specs.Prelude.{◌≡◌, ◌<◌, ◌≤◌, ◌+◌, ◌^◌, length, All, IsTrue, OnOk, OnErr};
ghost use Rattle.prop_lattice.specs.Rank.{IsOf};
ghost use Rattle.prop_numbers.specs.Sets.{is_below};
ghost use Rattle.prop_procedures.specs.Fitting.{kind_at};
ghost use Rattle.prop_contents.specs.Contents.{content_of};
ghost use Rattle.prop_cells.specs.Data.{IsWellMade};
ghost use Rattle.prop_cells.specs.Sides.{sides_at, StatesAll};
ghost use Rattle.prop_cells.specs.inner.Sides.{statements_back};

use super::Cells;
use crate::instance::Statement;
use prop_lattice::Info;
use prop_premises::Premise;
use std::alloc::AllocError;

impl Cells {
    /// Takes back the statements from a number on, and the entries of a cell whose support holds a
    /// premise with this number or a larger one.
    fn back_statements(&mut self, count: usize, cell: usize, premise: usize)
        requires cell { cell < length self.old.kinds }
        requires made { IsWellMade (statements_back count cell premise self.old) }
        ensures { self.new ≡ statements_back count cell premise self.old }
    {
        self.statements.truncate(count);
        self.contents.drop_from(cell, premise);
    }

    /// Makes a statement at a cell for each information, the first under this premise and each
    /// further one under the next. After want of memory nothing has changed.
    pub(crate) fn push_sides(
        &mut self,
        first: Premise,
        cell: usize,
        infos: &[Info],
    ) -> Result<(), AllocError>
        requires cell { cell < length self.old.kinds }
        requires of_kinds { All (λ info.
            IsOf (kind_at self.old.kinds cell).kind (kind_at self.old.kinds cell).size info)
            infos.now }
        requires numbers { first + length infos.now ≤ 2 ^ 16 }
        requires below { All (λ e. IsTrue (is_below first e.support))
            (content_of self.old.contents cell) }
        ensures ok { OnOk result (StatesAll self.old self.new (sides_at first cell infos.now)) }
        ensures err { OnErr result (self.new ≡ self.old) }
    {
        let count = self.statements.len();
        for (i, info) in infos.iter().enumerate() {
            let statement = Statement {
                premise: Some(first + i as Premise),
                cell,
                info: *info,
            };
            if let Err(error) = self.push_statement(statement) {
                self.back_statements(count, cell, usize::from(first));
                return Err(error);
            }
        }
        Ok(())
    }
}
