//! The names of the domains that lines declare, so that a definition can say of which kind its cell
//! is.
ghost use Rattle.std.specs.Prelude.{◌≡◌};
ghost use Rattle.prop_engine.specs.Answers.{answer_of};
ghost use Rattle.prop_notes.specs.Notes.{is_done};

use crate::asking::bare;
use crate::requirer::Requirer;
use prop_engine::Reply;
use prop_guards::Guarded;
use prop_language::{Command, read_line};
use prop_lattice::Kind;
use prop_procedures::Kinded;
use prop_scheduler::Order;
use prop_seeking::begins;
use std::alloc::Global;

/// Whether a line was carried out without a word.
pub(crate) fn is_done(reply: &Reply) -> bool
    ensures { result ≡ is_done (answer_of reply.now) }
{
    matches!(reply, Reply::Done)
}

/// Whether the first word of a line is the one that declares a domain.
fn may_declare(line: &[u8]) -> bool {
    begins(b"domain".as_slice(), bare(line))
}

/// The name of the domain that a line declares.
fn domain_in(alloc: Global, line: &[u8]) -> Option<String> {
    match read_line(alloc, line) {
        Ok(Command::Domain(name, _)) => String::from_str(alloc, name).ok(),
        _ => None,
    }
}

/// Keeps the name of the domain that a line declares, where there is memory for it.
fn keep(alloc: Global, domains: &mut Vec<String>, line: &[u8]) {
    match domain_in(alloc, line) {
        Some(name) => drop(domains.push(name)),
        None => {}
    }
}

impl<R: Guarded + Drop, O: Order + Drop> Requirer<R, O> {
    ghost use Rattle.std.specs.Prelude.{◌≡◌};
    ghost use Rattle.prop_engine.specs.Answers.{answer_of};
    ghost use Rattle.prop_workbench.specs.Sessions.{library_of};
    ghost use Rattle.prop_blaming.specs.Blaming.{blaming};
    ghost use Rattle.prop_seeking.specs.inner.Seekers.{sought_of};
    ghost use Rattle.prop_requiring.specs.inner.Requirers.{IsReady};

    /// Carries out a line as the blamer does, and keeps the name of a domain that it declares.
    pub(crate) fn pass(&mut self, line: &[u8]) -> Reply
        requires ready { IsReady R.value_of self.old }
        ensures same { self.new.blamer.seeker.teller.session.live.network.library
            ≡ self.old.blamer.seeker.teller.session.live.network.library }
        ensures ready { IsReady R.value_of self.new }
        ensures blames { blaming O.picks
            (library_of R.value_of self.old.blamer.seeker.teller.session)
            (sought_of self.old.blamer.seeker) line.now (answer_of result)
            (sought_of self.new.blamer.seeker) }
    {
        let reply = self.blamer.command(line);
        if may_declare(line) && is_done(&reply) {
            keep(self.blamer.alloc(), &mut self.domains, line);
        }
        reply
    }

    /// The name of the domain with this number, where it was kept.
    fn domain_name(&self, domain: u16) -> Option<&[u8]> {
        for name in &self.domains {
            if self.blamer.words().domain_number(name) == Some(domain) {
                return Some(name.as_bytes());
            }
        }
        None
    }

    /// The word for a kind, where it is known.
    pub(crate) fn kind_word(&self, kinded: Kinded) -> Option<&[u8]> {
        match kinded.kind {
            Kind::Span => Some(b"span".as_slice()),
            Kind::Symbol => Some(b"symbol".as_slice()),
            Kind::Set(0) => Some(b"truth".as_slice()),
            Kind::Set(domain) => self.domain_name(domain),
        }
    }
}
