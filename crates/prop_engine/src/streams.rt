//! A reader and a writer of the standard library, as devices.
ghost use Rattle.std.specs.Prelude.{◌≡◌};

use crate::devices::Devices;
use crate::failure::Failure;
use std::io;
use std::io::{ErrorKind, Read, Write};

/// A reader and a writer of the standard library, as devices.
#[derive(Drop)]
pub struct Streams<Rd, W> {
    reader: Rd,
    writer: W,
}

impl<Rd, W> Streams<Rd, W> {
    ghost use Rattle.prop_engine.specs.Streams.{reader_of, writer_of};

    /// The reader and the writer together.
    pub fn new(reader: Rd, writer: W) -> Streams<Rd, W>
        ensures reader { reader_of result ≡ reader }
        ensures writer { writer_of result ≡ writer }
    {
        Streams { reader, writer }
    }

    /// The reader and the writer, as the calls left them.
    pub fn into_inner(self) -> (Rd, W)
        ensures { result ≡ (reader_of self, writer_of self) }
    {
        (self.reader, self.writer)
    }
}

impl<Rd: Read, W: Write> Devices for Streams<Rd, W> {
    ghost use Rattle.prop_engine.specs.Streams.{StreamCall};

    ghost calls = { StreamCall Rd.remaining W.contents };

    fn read(&mut self, buffer: &mut [u8]) -> Result<usize, Failure> {
        match self.reader.read(buffer) {
            Ok(count) => Ok(count),
            Err(error) => Err(failure(&error)),
        }
    }

    fn write(&mut self, bytes: &[u8]) -> Result<usize, Failure> {
        match self.writer.write(bytes) {
            Ok(count) => Ok(count),
            Err(error) => Err(failure(&error)),
        }
    }

    fn flush(&mut self) -> Result<(), Failure> {
        match self.writer.flush() {
            Ok(()) => Ok(()),
            Err(error) => Err(failure(&error)),
        }
    }
}

/// What an error of the standard library tells.
fn failure(error: &io::Error) -> Failure {
    match error.kind() {
        ErrorKind::Interrupted => Failure::Interrupted,
        _ => Failure::Other,
    }
}
