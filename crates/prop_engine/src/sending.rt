//! Replies, written and passed on.
ghost use Rattle.std.specs.Prelude.{◌≡◌, ◌<◌, ◌++◌, ◌∷◌, [], length, List, MatchResult, IfErr};
ghost use Rattle.prop_engine.specs.Answers.{text_written, answer_of};
ghost use Rattle.prop_engine.specs.Calls.{Call, Leads};
ghost use Rattle.prop_engine.specs.Dialogues.{IsWritten, IsSent, IsCut, IsGiven};
ghost use Rattle.prop_engine.specs.inner.Progress.{IsCutAnswer};

use crate::devices::Devices;
use crate::outcome::EngineFault;
use crate::patience;
use crate::reply::Reply;
use arrayvec::ArrayString;

/// Writes all the bytes, or stops at the first write that fails or takes none.
fn put<D: Devices>(devices: &mut D, bytes: &[u8]) -> Result<(), EngineFault>
    ensures calls { (calls : List Call) × Leads D.calls devices.old calls devices.new
        × MatchResult result (λ _. IsWritten bytes.now [] calls) (λ _. IsCut bytes.now calls) }
    ensures fault { IfErr result (λ e. e ≡ EngineFault.Write) }
{
    let mut at = 0;
    while at < bytes.len() {
        let count = match patience::write(devices, &bytes[at..]) {
            Ok(count) => count,
            Err(_) => return Err(EngineFault::Write),
        };
        if count == 0 {
            return Err(EngineFault::Write);
        }
        at += count;
    }
    Ok(())
}

/// Writes a text, in one write where the writer takes it, and passes it on. `EngineFault::Write`
/// where a write or the flush fails, or a write takes no byte: then a prefix of it was written.
pub fn send<D: Devices>(devices: &mut D, text: &[u8]) -> Result<(), EngineFault>
    ensures calls { (calls : List Call) × Leads D.calls devices.old calls devices.new
        × MatchResult result (λ _. IsSent text.now calls) (λ _. IsCut text.now calls) }
    ensures fault { IfErr result (λ e. e ≡ EngineFault.Write) }
{
    put(devices, text)?;
    match patience::flush(devices) {
        Ok(()) => Ok(()),
        Err(_) => Err(EngineFault::Write),
    }
}

/// Writes a reply with its line feed, in one write where the writer takes it, and passes it on. A
/// silent reply leaves the devices as they are. `EngineFault::Write` where a write or the flush
/// fails, or a write takes no byte: then a prefix of the reply was written.
#[tactic(auto, using(crate::proofs::Refusals::short_reply))]
pub fn write_reply<D: Devices>(devices: &mut D, reply: &Reply) -> Result<(), EngineFault>
    ensures calls { (calls : List Call) × Leads D.calls devices.old calls devices.new
        × MatchResult result (λ _. IsGiven (answer_of reply.now) calls)
        (λ _. IsCutAnswer (answer_of reply.now) calls) }
    ensures fault { IfErr result (λ e. e ≡ EngineFault.Write) }
{
    match reply {
        Reply::Silent => Ok(()),
        Reply::Done => send(devices, b"ok\n"),
        Reply::Text(line) => send(devices, line.as_str().as_bytes()),
        Reply::Refused(refusal) => {
            let mut line = ArrayString::<64>::new();
            line.push_str(refusal.reply());
            line.push('\n');
            send(devices, line.as_str().as_bytes())
        }
    }
}
