//! Laws of whole sessions.
ghost use Rattle.std.specs.Prelude.{ℕ, List, Ok, Err};
ghost use Rattle.prop_procedures.specs.Kept.{stored_of, related_of};
ghost use Rattle.prop_cells.specs.Points.{AreSoundBy};
ghost use Rattle.prop_workbench.specs.Machine.{State};
ghost use Rattle.prop_engine.specs.Answers.{Answer};
ghost use Rattle.prop_engine.specs.Calls.{Call, bytes_read, bytes_written};
ghost use Rattle.prop_engine.specs.Dialogues.{IsDialogue};
ghost use Rattle.prop_engine.specs.Transcripts.{Run, IsTranscript, IsPrefixOfTranscript};
ghost use Rattle.prop_engine.specs.declared.outcome.Counts.{Counts};
ghost use Rattle.prop_engine.specs.declared.outcome.EngineFault.{EngineFault};
ghost use Rattle.prop_workbench.specs.Agreeing.{RunsMeet, AnswersMeet, SettledTextsMeet};
ghost use Rattle.prop_workbench.specs.Agreeing.{SettledIsFree, StepsKeepNumbers};
ghost use Rattle.prop_workbench.specs.Engine.{Standing, workbench, working, new_standing, WorkFits};
ghost use Rattle.prop_workbench.specs.Points.{RelatedSatisfy};

use prop_procedures::{Library, Rule};
use prop_scheduler::Order;

/// What the writes of a dialogue took is a transcript of what the reads gave, and where a fault
/// ended it the prefix of one.
pub fn a_dialogue_writes_a_transcript<R: Rule + Drop>(library: &Library<R>)
    ensures whole { (reads : ℕ) (old : State) (counts : Counts) (calls : List Call) (new : State)
        → IsDialogue (workbench (stored_of R.value_of library.now)) reads old (Ok counts) calls new
        → IsTranscript (workbench (stored_of R.value_of library.now)) old (bytes_read calls)
        (bytes_written calls) counts.lines counts.refused new }
    ensures in_part { (reads : ℕ) (old : State) (fault : EngineFault) (calls : List Call)
        (new : State)
        → IsDialogue (workbench (stored_of R.value_of library.now)) reads old (Err fault) calls new
        → IsPrefixOfTranscript (workbench (stored_of R.value_of library.now)) old
        (bytes_read calls) (bytes_written calls) }
{}

/// Two sessions that are given the same lines agree, in whatever orders they call waiting
/// procedures, as long as neither is refused memory: they end in one state, answer alike where
/// nothing is run, and alike wherever both settle, but for the premises that explain a value. Where
/// one settles the other says no contradiction. Every line leaves the premises numbered.
pub fn two_sessions_agree<R: Rule + Drop>(library: &Library<R>)
    ensures states { RunsMeet (workbench (stored_of R.value_of library.now)) }
    ensures answers { AnswersMeet (stored_of R.value_of library.now) }
    ensures settled { SettledTextsMeet (stored_of R.value_of library.now) }
    ensures free { SettledIsFree (stored_of R.value_of library.now) }
    ensures numbers { StepsKeepNumbers (stored_of R.value_of library.now) }
{}

/// The work behind a session fits what it shows, after each line and in whatever order it calls
/// waiting procedures: so what is earned is earned by calls of the session's own procedures, on
/// cells that hold what follows from its own statements.
pub fn work_fits_what_is_shown<R: Rule + Drop, O: Order>(library: &Library<R>)
    ensures { (limit : ℕ) (order : O) (lines : List (List ℕ)) (answers : List Answer)
        (new : Standing O)
        → Run (working O.picks (stored_of R.value_of library.now)) (new_standing limit order)
        lines answers new
        → WorkFits (stored_of R.value_of library.now) new }
{}

/// Points that lie in all that is stated, and belong together at each instance, satisfy a state,
/// where each procedure's answers hold the points that belong together. So they lie in each value
/// that is said, and none satisfy a contradiction.
pub fn points_that_belong_together_satisfy<R: Rule + Drop>(library: &Library<R>)
    ensures { AreSoundBy (stored_of R.value_of library.now) (related_of R.related library.now)
        → RelatedSatisfy (stored_of R.value_of library.now) (related_of R.related library.now) }
{}
