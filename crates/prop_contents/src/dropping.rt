//! Entries that rest on a premise, which may go.
ghost use Rattle.std.specs.Prelude.{◌≡◌, map};
ghost use Rattle.prop_contents.specs.Changes.{not_on};

use prop_lattice::Info;
use prop_premises::Premise;
use prop_tms::Tms;

/// Drops the entries of each cell that rest on the premise. It takes no memory.
pub(crate) fn drop_entries(contents: &mut [Tms<Info>], premise: Premise)
    ensures { contents.new ≡ map (λ entries. not_on premise entries) contents.old }
{
    for content in contents {
        let _ = content.purge(premise);
    }
}
