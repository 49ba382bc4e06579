//! What lines declared, and how things are called by it.
//!
//! `Notes` keeps the domains, the definitions and the uses that lines declared, in order: what a
//! command declares (`note_of`) is added (`add`), and the last of it taken back (`back`). By them
//! cells that have no name of their own, instances and kinds are called (`cell_name`, `made_at`,
//! `kind_text`): by the use that made them, and the path within it.
//!
//! The texts of calls, of sides and of reasons stand here too (`call_text`, `sides_text`,
//! `reason_text`). Each function answers the text that the specs state, or want of memory.
#![tactic(auto)]

mod naming;
mod notes;
mod required;
mod texts;

pub use naming::{Made, kind_text};
pub use notes::{Note, Notes};
pub use texts::{call_text, cell_text, label_text, moved_text, push_text, reason_text, sides_text};
