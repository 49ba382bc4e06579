//! The kit: the rules that come with the program.
//!
//! Each of the twenty rules is its plain function, which is its formula; it is monotone, keeps
//! kinds, and holds every related point (`Kit`). Where nothing is cut off the adder, subtracter,
//! multiplier and squarer answer the narrowest information that does, the rooter, imager and
//! coimager always; the others are claimed no narrower than sound (`narrowest_where_in_range`).
//!
//! The prelude's lines are those that the specs state (`prelude_is_stated`).
#![tactic(auto)]

pub mod comparing;
pub mod functions;
pub mod kit;
pub mod linking;
pub mod logic;
pub mod prelude;

pub use comparing::{above, below, comparer, lesser, parter};
pub use functions::{adder, copier, divider, multiplier, rooter, squarer, subtracter};
pub use kit::{KITS, Kit};
pub use linking::{coimager, imager};
pub use logic::{conjoin_back, conjoiner, disjoin_back, disjoiner, inverter, passer};
pub use prelude::{PRELUDE, prelude_is_stated};
