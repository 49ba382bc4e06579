//! The engine: reads pieces, carries out lines, writes replies.
ghost use Rattle.std.specs.Prelude.{◌≡◌, ℕ, ◌+◌, ◌<◌, ◌^◌, List, length, ◌++◌, ◌∷◌, take, drop};
ghost use Rattle.std.specs.Prelude.{IfSome, None, OnOk, OnErr, IfErr, MatchResult};
ghost use Rattle.prop_engine.specs.Answers.{Answer};
ghost use Rattle.prop_engine.specs.Calls.{Call, Leads};
ghost use Rattle.prop_engine.specs.Dialogues.{IsGiven, AreGiven, Speaks};
ghost use Rattle.prop_engine.specs.inner.Progress.{CountsAnswer, Advances, Stops, GrowsAtMost};
ghost use Rattle.prop_engine.specs.inner.Progress.{IsCutAnswer};
ghost use Rattle.prop_engine.specs.inner.Lines.{IsWithoutFeed};

use crate::devices::Devices;
use crate::interpreter::Interpreter;
use crate::outcome::{Counts, EngineFault};
use crate::patience;
use crate::pending::Pending;
use crate::reply::Reply;
use crate::sending::write_reply;

/// Carries out a line and writes its reply.
fn answer<M: Interpreter, D: Devices>(
    interpreter: &mut M,
    line: &[u8],
    devices: &mut D,
    counts: &mut Counts,
) -> Result<(), EngineFault>
    requires ready { M.is_ready interpreter.old }
    requires lines { counts.old.lines < 2 ^ 127 }
    requires refused { counts.old.refused < 2 ^ 127 }
    ensures ready { M.is_ready interpreter.new }
    ensures same { M.setting interpreter.new ≡ M.setting interpreter.old }
    ensures step { (answer : Answer) × (calls : List Call)
        × Leads D.calls devices.old calls devices.new
        × M.machine (M.setting interpreter.old) (M.state interpreter.old) line.now answer
        (M.state interpreter.new)
        × MatchResult result (λ _. IsGiven answer calls × CountsAnswer counts.old counts.new answer)
        (λ _. IsCutAnswer answer calls) }
    ensures fault { IfErr result (λ e. e ≡ EngineFault.Write) }
{
    let reply = interpreter.interpret(line);
    write_reply(devices, &reply)?;
    counts.lines += 1;
    if let Reply::Refused(_) = reply {
        counts.refused += 1;
    }
    Ok(())
}

/// The place of the first line feed.
fn line_end(bytes: &[u8]) -> Option<usize>
    ensures some { IfSome result (λ at. (at < length bytes.now)
        × (bytes.now ≡ take at bytes.now ++ 10 ∷ drop (at + 1) bytes.now)
        × IsWithoutFeed (take at bytes.now)) }
    ensures none { result ≡ None → IsWithoutFeed bytes.now }
{
    for (i, byte) in bytes.iter().enumerate() {
        if *byte == b'\n' {
            return Some(i);
        }
    }
    None
}

/// Takes the next piece of the input.
fn feed<M: Interpreter, D: Devices>(
    interpreter: &mut M,
    piece: &[u8],
    pending: &mut Pending,
    devices: &mut D,
    counts: &mut Counts,
) -> Result<(), EngineFault>
    requires ready { M.is_ready interpreter.old }
    requires lines { counts.old.lines + length piece.now < 2 ^ 127 }
    requires refused { counts.old.refused + length piece.now < 2 ^ 127 }
    ensures ready { M.is_ready interpreter.new }
    ensures same { M.setting interpreter.new ≡ M.setting interpreter.old }
    ensures ok { OnOk result ((said : List Answer) × (calls : List Call)
        × Leads D.calls devices.old calls devices.new × AreGiven said calls
        × Advances (M.machine (M.setting interpreter.old))
        (M.state interpreter.old) pending.old counts.old piece.now said
        (M.state interpreter.new) pending.new counts.new) }
    ensures err { OnErr result ((calls : List Call)
        × Leads D.calls devices.old calls devices.new
        × Stops (M.machine (M.setting interpreter.old))
        (M.state interpreter.old) pending.old counts.old piece.now calls
        (M.state interpreter.new)) }
    ensures bounded { OnOk result (GrowsAtMost counts.old counts.new (length piece.now)) }
    ensures fault { IfErr result (λ e. e ≡ EngineFault.Write) }
{
    let mut left = piece;
    while let Some(end) = line_end(left) {
        pending.extend(&left[..end]);
        answer(interpreter, pending.as_slice(), devices, counts)?;
        pending.clear();
        left = &left[end + 1..];
    }
    pending.extend(left);
    Ok(())
}

/// Reads the input to its end, in at most so many reads of 4,096 bytes each, and writes the replies
/// to its lines. Each reply is written and passed on before the next line is carried out, and each
/// line that a read ended is answered before the next read. It takes no memory beside what the
/// lines take.
pub fn run_session<M: Interpreter, D: Devices>(
    interpreter: &mut M,
    devices: &mut D,
    reads: u64,
) -> Result<Counts, EngineFault>
    requires ready { M.is_ready interpreter.old }
    ensures ready { M.is_ready interpreter.new }
    ensures same { M.setting interpreter.new ≡ M.setting interpreter.old }
    ensures speaks { Speaks D.calls devices.old devices.new
        (M.machine (M.setting interpreter.old)) reads (M.state interpreter.old) result
        (M.state interpreter.new) }
{
    let mut piece = [0; 4096];
    let mut pending = Pending::new();
    let mut counts = Counts {
        lines: 0,
        refused: 0,
    };
    for _turn in 0..reads {
        let count = match patience::read(devices, &mut piece) {
            Ok(count) => count,
            Err(_) => return Err(EngineFault::Read),
        };
        if count == 0 {
            if !pending.is_empty() {
                answer(interpreter, pending.as_slice(), devices, &mut counts)?;
            }
            return Ok(counts);
        }
        feed(
            interpreter,
            &piece[..count],
            &mut pending,
            devices,
            &mut counts,
        )?;
    }
    Err(EngineFault::Reads)
}
