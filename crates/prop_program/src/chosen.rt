//! What the words of a command line choose.

/// In which order waiting procedures are called.
#[derive(Clone, Copy, Debug, PartialEq, Eq)]
pub enum Pick {
    /// The one that has waited longest comes first.
    Fifo,
    /// The one alerted last comes first.
    Lifo,
    /// Any comes first, by numbers that begin with a seed.
    Mixed,
}

/// How a session of the program runs.
#[derive(Clone, Copy, Debug, PartialEq, Eq)]
pub struct Options {
    /// How many steps a running command may take, 0 to 10^15.
    pub limit: u64,
    /// In which order waiting procedures are called.
    pub order: Pick,
    /// What the numbers of `Mixed` begin with.
    pub seed: u64,
}
