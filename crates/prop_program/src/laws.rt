//! What the laws of rules say of the library that is made of them.
ghost use Rattle.prop_procedures.specs.Forms.{library_of, related_in};
ghost use Rattle.prop_cells.specs.Points.{AreSoundBy};

use prop_procedures::Named;

/// Each procedure of the library that `run` makes of rules holds the points that its rule relates.
/// So values that belong together and satisfy all that is believed lie in each answer.
pub fn rules_are_sound<R: Named>(rules: &[R])
    ensures { AreSoundBy (library_of R.form_of R.value_of rules.now)
        (related_in R.related rules.now) }
{}
