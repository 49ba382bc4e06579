//! The workbench with more rules, for plans and measurements, over standard input and output.
//!
//! By the options that its words give the program holds a dialogue: behind each read, and before
//! the next, each line that the read ended is answered by a step of the workbench over the kit, the
//! wider rules, the excluders, those of many cells and of rows, and their preludes, or, where it is
//! `step`, `how` or `list`, told (prop_telling), or, where it asks for points, answered by a search
//! (prop_seeking), or, where it asks what can't all hold, by searches for that (prop_blaming), with
//! work behind it in the order that was chosen, from the seed that was given.
//! The procedures' answers hold the points that belong together; those of a plan in points do so at
//! each instance but those of `divider` and `parter`. Help and the version are sent on standard
//! output, what else there is to say is said on standard error, and each end has its status
//! (`program`).
#![tactic(auto)]

mod entries;
mod running;
mod words;

use prop_workbench::Streams;
use std::env;
use std::process::ExitCode;
use words::program;

fn main(rt: HostRuntime) -> ExitCode {
    let mut streams = Streams::new(rt.stdin(), rt.stdout());
    program(rt.alloc(), env::args(&rt), &mut streams, &mut rt.stderr())
}
