//! Rules over rows of cells: sums of products, the entry of a number in a row, how many truths are
//! `yes`, and the greatest and the least of numbers.
//!
//! A coefficient is a cell as any other, so a constant one is a cell that is fixed. Each rule is
//! its plain function, which is its formula; it is monotone, keeps kinds, and holds every related
//! point (`Row`). A number of which nothing is known may be any in range. Rows have up to 128
//! places in all, and nothing here takes memory.
#![tactic(auto)]

pub mod entries;
pub mod extremes;
mod guards;
pub mod laws;
pub mod prelude;
pub mod procedures;
pub mod row;
pub mod sums;

pub use entries::{element, entry, index};
pub use extremes::{greatest, greatest_back, least, least_back};
pub use laws::rows_are_exact;
pub use prelude::{MORE, PRELUDE, more_is_stated, prelude_is_stated};
pub use procedures::{
    COUNTS, GREATEST, LEAST, PROCEDURES, ins, others_are_stated, procedures_are_stated,
};
pub use row::Row;
pub use sums::{addend, sum};
