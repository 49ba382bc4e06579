//! Statements under a premise, which may go.
ghost use Rattle.std.specs.Prelude.{◌≡◌};
ghost use Rattle.prop_cells.specs.Forgetting.{not_under};

use crate::instance::Statement;
use prop_premises::Premise;

/// Drops the statements under the premise. It takes no memory.
pub(crate) fn drop_statements(statements: &mut Vec<Statement>, premise: Premise)
    ensures { statements.new.items ≡ not_under premise statements.old.items }
{
    statements.retain(|statement| statement.premise != Some(premise));
}
