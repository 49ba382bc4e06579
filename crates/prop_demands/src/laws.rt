//! Laws of what is posted.
ghost use Rattle.prop_procedures.specs.Kept.{stored_of};
ghost use Rattle.prop_demands.specs.inner.Laws.{MayAllBePosted, PostingDemands};

use prop_procedures::{Library, Rule};

/// What a text becomes may be posted, where the procedures have the rules of expressions.
pub fn what_is_understood_may_be_posted<R: Rule + Drop>(library: &Library<R>)
    ensures { MayAllBePosted (stored_of R.value_of library.now) }
{
    let _ = library;
}

/// And where that was posted, the expression is demanded: no point is lost, and none is wrong.
pub fn what_is_posted_is_demanded<R: Rule + Drop>(library: &Library<R>)
    ensures { PostingDemands (stored_of R.value_of library.now) }
{
    let _ = library;
}
