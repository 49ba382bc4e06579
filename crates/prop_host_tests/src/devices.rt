//! Sessions over a reader and a writer that count what they are asked for, since no contract tells
//! that `Streams` makes each call once, as wide as it was asked for, and makes no fault up.
ghost use Rattle.std.specs.Prelude.{⊤};

use prop_engine::{Counts, EngineFault, Interpreter, Reply, Streams, run_session};
use prop_lattice::Refusal;
use std::alloc::Global;
use std::io;
use std::io::{ErrorKind, Read, Write};
use std::test::Fail;

/// How often a device fails before it does what it is asked for, and how.
#[derive(Clone, Copy)]
struct Faults {
    left: usize,
    kind: ErrorKind,
}

const NONE: Faults = Faults {
    left: 0,
    kind: ErrorKind::Other,
};

impl Faults {
    /// The next call fails, or it is let through.
    fn next(&mut self) -> io::Result<()> {
        if self.left == 0 {
            return Ok(());
        }
        self.left -= 1;
        Err(io::Error::from(self.kind))
    }
}

/// A reader of a text that gives at most so many bytes a read.
#[derive(Drop)]
struct Source {
    left: &'static [u8],
    most: usize,
    faults: Faults,
    reads: usize,
    narrowest: usize,
}

impl Read for Source {
    fn read(&mut self, buffer: &mut [u8]) -> io::Result<usize> {
        self.reads = self.reads.saturating_add(1);
        self.narrowest = self.narrowest.min(buffer.len());
        self.faults.next()?;
        let count = self.left.len().min(buffer.len()).min(self.most);
        buffer[..count].copy_from_slice(&self.left[..count]);
        self.left = &self.left[count..];
        Ok(count)
    }
}

/// A writer that takes at most so many bytes a write.
#[derive(Drop)]
struct Sink {
    written: Vec<u8>,
    most: usize,
    faults: Faults,
    flush_faults: Faults,
    widths: Vec<usize>,
    flushes: usize,
}

impl Write for Sink {
    fn write(&mut self, bytes: &[u8]) -> io::Result<usize> {
        self.widths.push(bytes.len())?;
        self.faults.next()?;
        let count = bytes.len().min(self.most);
        self.written.extend_from_slice(&bytes[..count])?;
        Ok(count)
    }

    fn flush(&mut self) -> io::Result<()> {
        self.flushes = self.flushes.saturating_add(1);
        self.flush_faults.next()
    }
}

/// Answers a line by its first byte.
#[derive(Drop)]
struct Teller {
    alloc: Global,
}

impl Interpreter for Teller {
    type Setting = ();

    ghost State = { ⊤ };

    ghost setting = { λ _. tt };

    ghost state = { λ _. tt };

    ghost machine = { λ at old line answer new. ⊤ };

    ghost is_ready = { λ _. ⊤ };

    fn interpret(&mut self, line: &[u8]) -> Reply {
        match line.first() {
            None => Reply::Silent,
            Some(b'd') => Reply::Done,
            Some(b't') => Reply::saying(String::from_str(self.alloc, "a text")),
            Some(_) => Reply::Refused(Refusal::UnknownCommand),
        }
    }

    ghost asks_by_prefix = { λ at old line answer new h. h };
}

const LINES: &[u8] = b"d\n\nt\nx\nd";

const REPLIES: &[u8] = b"ok\na text\nerror 3: unknown command\nok\n";

fn giving(most: usize, faults: Faults) -> Source {
    Source {
        left: LINES,
        most,
        faults,
        reads: 0,
        narrowest: usize::MAX,
    }
}

fn taking(alloc: Global, most: usize, faults: Faults, flush_faults: Faults) -> Sink {
    Sink {
        written: Vec::new(alloc),
        most,
        faults,
        flush_faults,
        widths: Vec::new(alloc),
        flushes: 0,
    }
}

/// Carries out the lines over these devices, and gives them back.
fn carried_out<Rd: Read, W: Write>(
    alloc: Global,
    input: Rd,
    output: W,
) -> (Result<Counts, EngineFault>, Rd, W) {
    let mut streams = Streams::new(input, output);
    let end = run_session(&mut Teller { alloc }, &mut streams, 1 << 32);
    let (input, output) = streams.into_inner();
    (end, input, output)
}

const ALL: Result<Counts, EngineFault> = Ok(Counts {
    lines: 5,
    refused: 1,
});

#[test]
fn asks_each_device_once_and_whole(rt: HostRuntime) -> Result<(), Fail> {
    let alloc = rt.alloc();
    let output = taking(alloc, usize::MAX, NONE, NONE);
    let (end, source, sink) = carried_out(alloc, giving(usize::MAX, NONE), output);
    assert_eq!(rt; end, ALL);
    assert_eq!(rt; source.reads, 2);
    assert_eq!(rt; source.narrowest, 4_096);
    assert_eq!(rt; sink.written.as_slice(), REPLIES);
    assert_eq!(rt; sink.widths.as_slice(), [3, 7, 25, 3].as_slice());
    assert_eq!(rt; sink.flushes, 4);
    Ok(())
}

#[test]
fn asks_for_the_rest_of_what_comes_in_parts(rt: HostRuntime) -> Result<(), Fail> {
    let alloc = rt.alloc();
    let output = taking(alloc, 5, NONE, NONE);
    let (end, source, sink) = carried_out(alloc, giving(1, NONE), output);
    assert_eq!(rt; end, ALL);
    assert_eq!(rt; source.reads, LINES.len() + 1);
    assert_eq!(rt; source.narrowest, 4_096);
    assert_eq!(rt; sink.written.as_slice(), REPLIES);
    assert_eq!(rt;
        sink.widths.as_slice(),
        [3, 7, 2, 25, 20, 15, 10, 5, 3].as_slice()
    );
    assert_eq!(rt; sink.flushes, 4);
    Ok(())
}

#[test]
fn tells_a_fault_of_a_device_at_once(rt: HostRuntime) -> Result<(), Fail> {
    let alloc = rt.alloc();
    for kind in [ErrorKind::WouldBlock, ErrorKind::StorageFull] {
        let once = Faults { left: 1, kind };
        let output = taking(alloc, usize::MAX, NONE, NONE);
        let (end, input, output) = carried_out(alloc, giving(usize::MAX, once), output);
        assert_eq!(rt; end, Err(EngineFault::Read));
        assert_eq!(rt; input.reads, 1);
        assert!(rt; output.widths.is_empty());
        let output = taking(alloc, usize::MAX, once, NONE);
        let (end, _, output) = carried_out(alloc, giving(usize::MAX, NONE), output);
        assert_eq!(rt; end, Err(EngineFault::Write));
        assert_eq!(rt; output.widths.as_slice(), [3].as_slice());
        assert_eq!(rt; output.flushes, 0);
        let output = taking(alloc, usize::MAX, NONE, once);
        let (end, _, output) = carried_out(alloc, giving(usize::MAX, NONE), output);
        assert_eq!(rt; end, Err(EngineFault::Write));
        assert_eq!(rt; output.written.as_slice(), b"ok\n".as_slice());
        assert_eq!(rt; output.flushes, 1);
    }
    Ok(())
}

/// Carries out the lines over devices each of which fails so often first.
fn failing_first(
    alloc: Global,
    read: Faults,
    write: Faults,
    flush: Faults,
) -> (Result<Counts, EngineFault>, Source, Sink) {
    let output = taking(alloc, usize::MAX, write, flush);
    carried_out(alloc, giving(usize::MAX, read), output)
}

#[test]
fn tries_again_where_a_signal_interrupts(rt: HostRuntime) -> Result<(), Fail> {
    let often = Faults {
        left: 5,
        kind: ErrorKind::Interrupted,
    };
    let (end, source, sink) = failing_first(rt.alloc(), often, often, often);
    assert_eq!(rt; end, ALL);
    assert_eq!(rt; source.reads, 5 + 2);
    assert_eq!(rt; sink.written.as_slice(), REPLIES);
    assert_eq!(rt;
        sink.widths.as_slice(),
        [3, 3, 3, 3, 3, 3, 7, 25, 3].as_slice()
    );
    assert_eq!(rt; sink.flushes, 5 + 4);
    Ok(())
}

#[test]
fn gives_up_where_each_try_is_interrupted(rt: HostRuntime) -> Result<(), Fail> {
    let always = Faults {
        left: usize::MAX,
        kind: ErrorKind::Interrupted,
    };
    let (end, source, _) = failing_first(rt.alloc(), always, NONE, NONE);
    assert_eq!(rt; end, Err(EngineFault::Read));
    assert_eq!(rt; source.reads, 65_536);
    let (end, _, sink) = failing_first(rt.alloc(), NONE, always, NONE);
    assert_eq!(rt; end, Err(EngineFault::Write));
    assert_eq!(rt; sink.widths.len(), 65_536);
    let (end, _, sink) = failing_first(rt.alloc(), NONE, NONE, always);
    assert_eq!(rt; end, Err(EngineFault::Write));
    assert_eq!(rt; sink.flushes, 65_536);
    Ok(())
}
