//! How a program begins and ends: the options that its words give, and its exit status.
ghost use Rattle.std.specs.Prelude.{◌≡◌, IfOk, IfErr, OnOk};
ghost use Rattle.std.specs.Prelude.{ℕ, List, Some};
ghost use Rattle.std.specs.Vec.Iter.{into_iter_items};
ghost use Rattle.clap.specs.Words.{kind_of};
ghost use Rattle.prop_program.specs.Faults.{status_of};
ghost use Rattle.prop_program.specs.Program.{AreGiven, IsReason};
ghost use Rattle.prop_program.specs.Running.{Declines, given_words, status_after};

use crate::chosen::Options;
use crate::fault::Fault;
use crate::options::{Said, options};
use clap::error::ErrorKind;
use prop_workbench::{Counts, Devices, EngineFault, send};
use std::alloc::{AllocError, Global};
use std::env::Args;
use std::io;
use std::io::Write;

/// The options that the words of a command line give. Where they give none, what there is to say is
/// said, help and the version on the devices and all else on `errors`, and the status to end with
/// is told.
pub fn chosen_options<D: Devices, E: Write>(
    alloc: Global,
    said: Said,
    words: io::Result<Args>,
    devices: &mut D,
    errors: &mut E,
) -> Result<Options, u8>
    ensures ok { IfOk result (λ options. (given : List (List ℕ))
        × (given_words words ≡ Some given) × AreGiven said.name.now given options) }
    ensures err { IfErr result (Declines said.name.now (given_words words) D.calls devices.old
        devices.new) }
    ensures untouched { OnOk result (devices.new ≡ devices.old) }
    ensures unheard { OnOk result (errors.new ≡ errors.old) }
    ensures quiet { IfErr result (λ status. status ≡ 0 → errors.new ≡ errors.old) }
{
    let words = match words {
        Ok(words) => words,
        Err(error) if error.kind() == io::ErrorKind::OutOfMemory => {
            return Err(complained(said, Fault::Memory(AllocError), errors));
        }
        Err(_) => {
            let _ = writeln!(errors, "{}: the arguments are not UTF-8", said.name);
            return Err(1);
        }
    };
    let Ok(words) = collected(alloc, words) else {
        return Err(complained(said, Fault::Memory(AllocError), errors));
    };
    match options(alloc, said, &words) {
        Ok(options) => Ok(options),
        Err(error) => Err(declined(alloc, said, &error, devices, errors)),
    }
}

/// The words one behind another.
fn collected(alloc: Global, words: Args) -> Result<Vec<String>, AllocError>
    ensures { IfOk result (λ all. all.items ≡ into_iter_items words) }
{
    words.collect::<Vec<String>>(alloc)
}

/// Says what the option reader says, and gives the status to end with: help is no fault.
fn declined<D: Devices, E: Write>(
    alloc: Global,
    said: Said,
    error: &clap::Error,
    devices: &mut D,
    errors: &mut E,
) -> u8
    ensures declines { (given : List (List ℕ)) → IsReason said.name.now given (kind_of error.now)
        → Declines said.name.now (Some given) D.calls devices.old devices.new result }
    ensures quiet { result ≡ 0 → errors.new ≡ errors.old }
{
    if error.kind() == ErrorKind::OutOfMemory {
        return complained(said, Fault::Memory(AllocError), errors);
    }
    if error.use_stderr() {
        let _ = write!(errors, "{error}");
        return 1;
    }
    let Ok(text) = format!(in alloc; "{error}") else {
        return complained(said, Fault::Memory(AllocError), errors);
    };
    match send(devices, text.as_bytes()) {
        Ok(()) => 0,
        Err(_) => complained(said, Fault::Engine(EngineFault::Write), errors),
    }
}

/// The status behind a session that ended so. Why it ended before its input did is said.
pub fn ended<E: Write>(said: Said, end: Result<Counts, Fault>, errors: &mut E) -> u8
    ensures status { result ≡ status_after end }
    ensures quiet { result ≡ 0 → errors.new ≡ errors.old }
{
    match end {
        Ok(_) => 0,
        Err(fault) => complained(said, fault, errors),
    }
}

/// Says why the program ends before its input does, and gives the status to end with.
fn complained<E: Write>(said: Said, fault: Fault, errors: &mut E) -> u8
    ensures { result ≡ status_of fault }
{
    let _ = writeln!(errors, "{}: {fault}", said.name);
    fault.status()
}
