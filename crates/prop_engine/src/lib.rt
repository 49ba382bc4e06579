//! Sessions over a reader and a writer: lines in, replies out, and how they end.
//!
//! For whatever carries out lines as a machine does (`Interpreter`), over whatever reads and writes
//! (`Devices`), a session is a dialogue: behind each read, and before the next, each line that the
//! read ended is carried out, its reply is written and passed on, and nothing else is written
//! (`run_session`). A call that a signal interrupted is tried again, 65,536 times at the most.
//!
//! Where a reader and a writer of the standard library tell their bytes (`Streams`), what the reads
//! gave and the writes took is what these had and have (`streams_tell_what_was_said`).
#![tactic(auto)]

mod devices;
mod engine;
mod failure;
mod interpreter;
mod laws;
mod line;
mod outcome;
mod patience;
mod pending;
mod reply;
mod sending;
mod streams;

pub use devices::Devices;
pub use engine::run_session;
pub use failure::Failure;
pub use interpreter::Interpreter;
pub use laws::{ended_lines_come_first, streams_tell_what_was_said};
pub use line::Line;
pub use outcome::{Counts, EngineFault};
pub use pending::Pending;
pub use reply::Reply;
pub use sending::{send, write_reply};
pub use streams::Streams;
