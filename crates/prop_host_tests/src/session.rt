//! A host of the workbench: it makes the kit's procedures and its own, and has a session with them
//! carry out lines.
ghost use Rattle.std.specs.Prelude.{◌≡◌, IfOk, map};
ghost use Rattle.prop_arith.specs.Values.{value_of};
ghost use Rattle.prop_procedures.specs.Both.{either_of};
ghost use Rattle.prop_procedures.specs.Kept.{AllMean, stored_as};
ghost use Rattle.prop_cells.specs.Points.{AreSoundBy};
ghost use Rattle.prop_language.specs.Said.{words};
ghost use Rattle.prop_engine.specs.Answers.{answer_of};
ghost use Rattle.prop_engine.specs.Transcripts.{Run};
ghost use Rattle.prop_workbench.specs.Engine.{machine_of};
ghost use Rattle.prop_workbench.specs.Sessions.{shown_of, IsSound, IsMeant};
ghost use Rattle.prop_host_tests.specs.Host.{value_of as host_value};
ghost use Rattle.prop_host_tests.specs.Answered.{host_library, host_related, IsAnswered};

use crate::host::Host;
use prop_arith::{KITS, Kit};
use prop_cells::Network;
use prop_lattice::Info;
use prop_procedures::{Both, Library, Named, Need, Param, Procedure, Rule, Shape};
use prop_scheduler::{Fifo, Order};
use prop_workbench::{Reply, Session};
use smallvec::SmallVec;
use std::alloc::{AllocError, Global};

/// How many steps a line may take.
const LIMIT: u64 = 1_000_000_000;

/// Makes the kit's procedures in order and the host's behind them, and tells what these lines are
/// answered in a session with them.
pub fn replies(alloc: Global, lines: &[&str]) -> Result<Vec<Reply>, AllocError>
    ensures { IfOk result (λ replies. IsAnswered (words lines.now) (map answer_of replies.items)) }
{
    let mut procedures = Vec::new(alloc);
    for rule in KITS {
        let ins = SmallVec::<Shape, 8>::from_slice(alloc, rule.ins())?;
        let run = Box::new(
            alloc,
            move |param: &Param, args: &[Info]| -> Info
                ensures { result ≡ value_of rule param.now args.now }
            { rule.run(param, args) },
        )?;
        procedures.push(Procedure::new(
            rule.name(),
            ins,
            rule.out(),
            rule.need(),
            Both::One(rule),
            run,
        ))?;
    }
    let ins = SmallVec::<Shape, 8>::from_slice(alloc, &[Shape::Span, Shape::Span])?;
    let run = Box::new(
        alloc,
        move |param: &Param, args: &[Info]| -> Info
            ensures { result ≡ host_value Host.Maxer param.now args.now }
        { Host::Maxer.run(param, args) },
    )?;
    let maxer = Procedure::new(
        "maxer",
        ins,
        Shape::Span,
        Need::Nothing,
        Both::Two(Host::Maxer),
        run,
    );
    procedures.push(maxer)?;
    serve(alloc, procedures, lines)
}

/// The procedures' answers hold the points that belong together, so numbers that belong together
/// and satisfy all that is believed lie in each answer of the session.
pub fn answers_hold_points()
    ensures { AreSoundBy host_library host_related }
{}

/// Makes a session with these procedures and has it carry out lines.
fn serve(
    alloc: Global,
    procedures: Vec<Procedure<Both<Kit, Host>>>,
    lines: &[&str],
) -> Result<Vec<Reply>, AllocError>
    requires means { AllMean (either_of value_of host_value) procedures.items }
    requires listed { map (stored_as (either_of value_of host_value))
        procedures.items ≡ host_library }
    ensures { IfOk result (λ replies. IsAnswered (words lines.now) (map answer_of replies.items)) }
{
    let network = Network::new(alloc, Library::new(procedures));
    let mut session = Session::new(alloc, network, Fifo, LIMIT)?;
    let replies = carry_out(alloc, &mut session, lines);
    // One call in place of the drop of each part, which a proof would go through one by one.
    drop(session);
    replies
}

/// Carries out lines one after another, and tells what each is answered.
fn carry_out<R: Rule + Drop, O: Order + Drop>(
    alloc: Global,
    session: &mut Session<R, O>,
    lines: &[&str],
) -> Result<Vec<Reply>, AllocError>
    requires means { IsMeant R.value_of session.old }
    requires sound { IsSound R.value_of session.old }
    ensures { IfOk result (λ replies. Run (machine_of R.value_of session.old) (shown_of session.old)
        (words lines.now) (map answer_of replies.items) (shown_of session.new)) }
{
    let mut replies = Vec::new(alloc);
    for line in lines {
        replies.push(session.command(line.as_bytes()))?;
    }
    Ok(replies)
}
