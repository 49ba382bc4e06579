//! Calls that are tried again where a signal interrupted them.
ghost use Rattle.std.specs.Prelude.{length, List};
ghost use Rattle.std.specs.Io.{ReadsAtMost, WritesAtMost};
ghost use Rattle.prop_engine.specs.Calls.{Call, Leads, ReadCall, WriteCall, FlushCall, given};
ghost use Rattle.prop_engine.specs.Dialogues.{Patiently};

use crate::devices::Devices;
use crate::failure::Failure;

/// How often a call is tried that is interrupted each time.
const TRIES: u32 = 1 << 16;

/// Reads, and tries again where a signal interrupted it.
pub fn read<D: Devices>(devices: &mut D, buffer: &mut [u8]) -> Result<usize, Failure>
    ensures bound { ReadsAtMost result buffer.new }
    ensures calls { (tries : List Call) × Leads D.calls devices.old tries devices.new
        × Patiently (ReadCall (length buffer.old)) (given result buffer.new) tries }
{
    for _try in 1..TRIES {
        match devices.read(buffer) {
            Err(Failure::Interrupted) => {}
            Err(Failure::Other) => return Err(Failure::Other),
            Ok(count) => return Ok(count),
        }
    }
    devices.read(buffer)
}

/// Writes, and tries again where a signal interrupted it.
pub fn write<D: Devices>(devices: &mut D, bytes: &[u8]) -> Result<usize, Failure>
    ensures bound { WritesAtMost result bytes.now }
    ensures calls { (tries : List Call) × Leads D.calls devices.old tries devices.new
        × Patiently (WriteCall bytes.now) result tries }
{
    for _try in 1..TRIES {
        match devices.write(bytes) {
            Err(Failure::Interrupted) => {}
            Err(Failure::Other) => return Err(Failure::Other),
            Ok(count) => return Ok(count),
        }
    }
    devices.write(bytes)
}

/// Passes on what was written, and tries again where a signal interrupted it.
pub fn flush<D: Devices>(devices: &mut D) -> Result<(), Failure>
    ensures calls { (tries : List Call) × Leads D.calls devices.old tries devices.new
        × Patiently FlushCall result tries }
{
    for _try in 1..TRIES {
        match devices.flush() {
            Err(Failure::Interrupted) => {}
            Err(Failure::Other) => return Err(Failure::Other),
            Ok(()) => return Ok(()),
        }
    }
    devices.flush()
}
