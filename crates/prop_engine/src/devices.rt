//! A reader and a writer as one thing, whose calls have an order.
ghost use Rattle.std.specs.Prelude.{length};
ghost use Rattle.std.specs.Io.{ReadsAtMost, WritesAtMost};
ghost use Rattle.prop_engine.specs.Calls.{Call, ReadCall, WriteCall, FlushCall, given};

use crate::failure::Failure;

/// A reader and a writer as one thing, so that it can be told in which order they were called.
pub trait Devices {
    /// From which state of the devices a call may lead to which, with what came of it.
    ghost calls: { Self → Call → Self → Type 0 };

    /// One read. At the end it gives no byte.
    fn read(&mut self, buffer: &mut [u8]) -> Result<usize, Failure>
        ensures bound { ReadsAtMost result buffer.new }
        ensures call { calls self.old (ReadCall (length buffer.old) (given result buffer.new))
            self.new };

    /// One write, which may take a part of the bytes.
    fn write(&mut self, bytes: &[u8]) -> Result<usize, Failure>
        ensures bound { WritesAtMost result bytes.now }
        ensures call { calls self.old (WriteCall bytes.now result) self.new };

    /// Passes on what was written.
    fn flush(&mut self) -> Result<(), Failure>
        ensures call { calls self.old (FlushCall result) self.new };
}
