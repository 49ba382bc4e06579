//! Laws of lines and of streams.
ghost use Rattle.std.specs.Prelude.{◌≡◌, ℕ, ◌++◌, List};
ghost use Rattle.std.specs.Io.KnownBytes.{Appends, Consumes};
ghost use Rattle.prop_engine.specs.Calls.{Call, Leads, bytes_read, bytes_written};
ghost use Rattle.prop_engine.specs.Lines.{lines_of, ended_lines};
ghost use Rattle.prop_engine.specs.Streams.{StreamCall, reader_of, writer_of};
ghost use Rattle.prop_engine.specs.declared.streams.Streams.{Streams};

use crate::streams::Streams;
use std::io::{Read, Write};

/// The lines that a line feed ended are the first lines of the input, whatever follows.
pub fn ended_lines_come_first()
    ensures { (input more : List ℕ)
        → (rest : List (List ℕ)) × (lines_of (input ++ more) ≡ ended_lines input ++ rest) }
{}

/// Where streams tell their bytes, what the reads gave is gone from the reader, and what the writes
/// took stands behind what the writer held.
pub fn streams_tell_what_was_said<Rd: Read, W: Write>(streams: &Streams<Rd, W>)
    ensures { (calls : List Call) (new : Streams Rd W)
        → Leads (StreamCall Rd.remaining W.contents) streams.now calls new
        → Consumes (Rd.remaining (reader_of streams.now)) (Rd.remaining (reader_of new))
        (bytes_read calls)
        × Appends (W.contents (writer_of streams.now)) (W.contents (writer_of new))
        (bytes_written calls) }
{}
