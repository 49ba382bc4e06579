//! What follows from the definitions alone, whatever the search.
ghost use Rattle.prop_amb.specs.Promises.{AdditionsKeepSearches};

/// More cells, statements and instances take nothing from what a search has learned.
pub fn additions_keep_searches()
    ensures { AdditionsKeepSearches }
{}
