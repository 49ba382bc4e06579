//! The host's procedure called alone, and a session with the kit's procedures and the host's.

use crate::calling::larger;
use crate::session::replies;
use prop_lattice::{Info, Span};
use prop_workbench::Reply;
use std::alloc::AllocError;

#[test]
fn a_procedure_alone_answers(rt: HostRuntime) -> Result<(), AllocError> {
    let x = Span::new(3, 5).expect(&rt, "a span");
    let y = Span::new(-7, 4).expect(&rt, "a span");
    assert_eq!(rt; larger(rt.alloc(), x, y)?, Info::between(3, 5));
    Ok(())
}

/// The lines of a session with the kit's procedures and the host's, and what each is answered.
const SESSION: [(&str, &str); 11] = [
    ("cell x span", "ok"),
    ("cell y span", "ok"),
    ("cell z span", "ok"),
    ("attach maxer x y z", "ok"),
    ("fix x 3..5", "ok"),
    ("tell p y 4..9", "ok"),
    ("ask z", "z = 4..9"),
    ("why z", "z = 4..9 because p"),
    ("cell s span", "ok"),
    ("attach adder x z s", "ok"),
    ("ask s", "s = 7..14"),
];

#[test]
fn a_session_has_the_rules_of_both(rt: HostRuntime) -> Result<(), AllocError> {
    let lines = SESSION.map(|(line, _)| line);
    let replies = replies(rt.alloc(), &lines)?;
    assert_eq!(rt; replies.len(), SESSION.len());
    for (reply, (line, answer)) in replies.iter().zip(SESSION) {
        let text = match reply {
            Reply::Silent => "",
            Reply::Done => "ok",
            Reply::Text(line) => line.text(),
            Reply::Refused(refusal) => refusal.reply(),
        };
        assert_eq!(rt; text, answer, "to {line}");
    }
    Ok(())
}
