//! How settling ends.

use prop_premises::PremiseSet;

/// How settling ends.
#[derive(Drop)]
pub enum Outcome {
    /// The choices stand on the first list that isn't refuted, and no instance waits.
    Settled,
    /// Every list is refuted, by these believed premises of the user's.
    Contradiction(PremiseSet),
    /// The budget is used, and more steps are needed.
    Unsettled,
}
