//! The workbench over standard input and output.
//!
//! By the options that its words give the program holds a dialogue: behind each read, and before
//! the next, each line that the read ended is answered by a step of the workbench over the kit and
//! the prelude, with work behind it in the order that was chosen, from the seed that was given, and
//! the kit's answers hold the points that belong together. Help and the version are sent on standard
//! output, what else there is to say is said on standard error, and each end has its status
//! (`program`).
#![tactic(auto)]

mod running;
mod words;

use prop_workbench::Streams;
use std::env;
use std::process::ExitCode;
use words::program;

fn main(rt: HostRuntime) -> ExitCode {
    let mut streams = Streams::new(rt.stdin(), rt.stdout());
    program(rt.alloc(), env::args(&rt), &mut streams, &mut rt.stderr())
}
