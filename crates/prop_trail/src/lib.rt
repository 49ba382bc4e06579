//! The data of a search: what is believed of each place on a trail, and who waits to be called.
//!
//! A trail (`Trail`) begins with what is believed of each place. What is said of it since then
//! (`say`, `rule_out`, `say_fact`) is an entry each (`Entry`), which tells what was believed before
//! and who said it (`Source`). Levels are begun (`raise`) and taken back with all their entries
//! (`back`), and then all is believed that was when the level was begun. Numbers within a span that
//! were ruled out are kept where the span was small at the root. The trail answers what was
//! believed before an entry, and since which entry a fact is so (`info_before`, `maker`).
//!
//! `Waiting` is the queue of the instances that wait: cheap ones first, each once.
#![tactic(auto)]

pub mod entry;
mod place;
mod queue;
pub mod trail;
pub mod waiting;
mod window;

pub use entry::{Entry, Outcome, Source};
pub use trail::Trail;
pub use waiting::Waiting;
