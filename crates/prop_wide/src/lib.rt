//! Rules of a host's own beside the kit's, for those who plan and measure.
//!
//! Each of the fifteen rules is its plain function, which is its formula; it is monotone, keeps
//! kinds, holds every related point (`Wide`), and is the narrowest information that does
//! (`Wide::narrowest`), the squarer where no square is out of range. A number of which nothing is
//! known may be any in range, and an answer of all these is nothing.
//!
//! The procedures are those that the specs list, each in a form that its rule has
//! (`procedures_are_stated`), and the preludes' lines are those that the specs state
//! (`prelude_is_stated`).
#![tactic(auto)]

pub mod choices;
pub mod counts;
pub mod distances;
pub mod ends;
pub mod extremes;
pub mod hulls;
pub mod prelude;
pub mod procedures;
pub mod quotients;
pub mod squares;
pub mod truths;
pub mod wide;

pub use choices::{chooser, decider};
pub use counts::{count_back, counter};
pub use distances::{abs_back, absoluter};
pub use extremes::{max_back, maximizer, min_back, minimizer};
pub use hulls::hull;
pub use prelude::{DIFFERENT, PRELUDE, prelude_is_stated};
pub use procedures::{PROCEDURES, procedures_are_stated};
pub use quotients::{divisor_back, quotienter, remainderer};
pub use squares::{rooter, squarer};
pub use wide::Wide;
