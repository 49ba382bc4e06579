//! Sets of numbers below 2^16.
#![tactic(auto)]

pub mod bits;
pub mod change;
pub mod number_set;
pub mod numbers;
pub mod one_word;
pub mod signature;
pub mod words;

pub use change::Change;
pub use number_set::NumberSet;
pub use numbers::Numbers;
pub use signature::Signature;
pub use words::Words;
