//! Laws of what terms mean.
ghost use Rattle.prop_terms.specs.Meaning.{QuotientsAreRoundedDown, TruthsHaveValues};

/// What `//` gives is the quotient rounded down, whatever the signs.
pub fn quotients_are_rounded_down()
    ensures { QuotientsAreRoundedDown }
{}

/// Where a truth is wanted, an operator between two terms has a value, also around a term that has
/// none.
pub fn truths_have_values()
    ensures { TruthsHaveValues }
{}
