//! What carries out lines.
ghost use Rattle.std.specs.Prelude.{◌≡◌};
ghost use Rattle.prop_engine.specs.Answers.{answer_of};
ghost use Rattle.prop_engine.specs.Transcripts.{Machine};
ghost use Rattle.prop_engine.specs.Machines.{AsksByPrefix};

use crate::reply::Reply;

/// What carries out lines, one after another, as a machine.
///
/// A line takes the machine from a state to the next, and leaves the setting as it was. The machine
/// has to answer a line as it may answer the prefix of it that is kept, its first 4,097 bytes.
pub trait Interpreter {
    /// What no line changes, such as what words mean.
    type Setting;

    /// What a line may change.
    ghost State: { Type 0 };

    /// The setting as it is.
    ghost setting: { Self → Self.Setting };

    /// The state as it is.
    ghost state: { Self → State };

    /// The machine in a setting: which line may be answered what, and which state follows.
    ghost machine: { Self.Setting → Machine State };

    /// What has to hold between lines.
    ghost is_ready: { Self → Type 0 };

    /// Carries out a line: one step of the machine. A refusal is an answer as any other.
    fn interpret(&mut self, line: &[u8]) -> Reply
        requires ready { is_ready self.old }
        ensures ready { is_ready self.new }
        ensures same { setting self.new ≡ setting self.old }
        ensures step { machine (setting self.old) (state self.old) line.now (answer_of result)
            (state self.new) };

    ghost asks_by_prefix: { (at : Self.Setting) → AsksByPrefix (machine at) };
}
