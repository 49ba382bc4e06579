//! What the program does by its words: the options, the session, the status.
ghost use Rattle.std.specs.Prelude.{◌≡◌, codes};
ghost use Rattle.std.specs.Process.{exit_status};
ghost use Rattle.prop_program.specs.Running.{Does, given_words};
ghost use Rattle.prop_cells.specs.Points.{AreSoundBy};
ghost use Rattle.prop_points.specs.Networks.{SinglesSolve};
ghost use Rattle.prop_requiring.specs.Answering.{IsRequired};
ghost use Rattle.propwide.specs.Kits.{lines_in_order, wide, wide_related, wide_tells};

use crate::running::run;
use prop_program::{Said, chosen_options, ended};
use prop_workbench::Devices;
use std::alloc::Global;
use std::env::Args;
use std::io;
use std::io::Write;
use std::process::ExitCode;

/// What the program says of itself.
const SAID: Said = Said {
    name: "propwide",
    version: "1.0 (rattle-kit-13f)",
    about: "Answers commands on a propagator network with truth maintenance, as propbench does,
with more rules for plans and measurements.

Reads commands from standard input, one on each line, and writes a reply or a refusal to each.",
    commands: "Commands:
  networks    domain, relation, define, cell, attach
  statements  fix, tell, choose, require, forget
  premises    kick, bring, worldview, nogoods
  questions   ask, why, core, settle, how, list
  points      solve, least, greatest, plans
  blame       conflicts, repairs
  steps       limit, step

WIDE.md lists what there is beside the kit, and LANGUAGE.md describes each command: in docs/ of the
sources, and in /usr/share/doc/propbench of the Debian package.",
};

/// What the program does by the words of its command line, with the status that it ends with.
///
/// It serves over `devices` with the options that the words give. Where they ask for help or for
/// the version, that is sent there. What else there is to say it says on `errors`.
pub fn program<D: Devices, E: Write>(
    alloc: Global,
    words: io::Result<Args>,
    devices: &mut D,
    errors: &mut E,
) -> ExitCode
    // By the options that the words give it holds a dialogue in which each reply is the session's,
    // earned by steps that were taken in the order that was chosen, or tells a step or what makes
    // up a value.
    ensures told { Does (codes "propwide") (given_words words) D.calls
        (λ options end. IsRequired wide lines_in_order options.order options.seed options.limit
        D.calls devices.old devices.new end)
        devices.old devices.new (exit_status result) }
    // Where all is well, nothing is said on the other device.
    ensures quiet { exit_status result ≡ 0 → errors.new ≡ errors.old }
    // So values that belong together and satisfy all that is believed lie in each answer.
    ensures points { AreSoundBy wide wide_related }
    // And a plan in points lies in all that is stated, and its points belong together at each
    // instance but those of `divider` and `parter`.
    ensures solved { SinglesSolve wide wide_tells }
{
    let options = match chosen_options(alloc, SAID, words, devices, errors) {
        Ok(options) => options,
        Err(status) => return ExitCode::from(status),
    };
    let end = run(alloc, options, devices);
    ExitCode::from(ended(SAID, end, errors))
}
