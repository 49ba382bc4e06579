//! Which instances are to be called.
ghost use Rattle.std.specs.Prelude.{◌≡◌, ◌<◌, ◌∷◌, [], None, All, IfOk, IfSome};
ghost use Rattle.std.specs.List.{range_with_len};
ghost use Rattle.prop_scheduler.specs.Agendas.{AllAlerted};
ghost use Rattle.prop_origins.specs.inner.Lines.{Lined};

use prop_scheduler::Agenda;
use std::alloc::{AllocError, Global};
use std::marker::Model;

/// The instances that wait, each once, and behind them those that were not called in order yet: of
/// so many all from a number on.
#[derive(Drop)]
pub(crate) struct Line {
    count: usize,
    fresh: usize,
    agenda: Agenda,
}

impl Model for Line {
    ghost use Rattle.std.specs.Prelude.{◌++◌, ◌-◌};
    ghost use Rattle.std.specs.List.{range_with_len};
    ghost use Rattle.prop_origins.specs.inner.Lines.{Lined, IsLined};

    ghost Value = { Lined };

    ghost view = { λ l. record {
      count = l.count;
      line = l.agenda.line ++ range_with_len l.fresh (l.count - l.fresh);
    } };

    ghost invariant = { λ l. IsLined l.count l.fresh l.agenda };
}

impl Line {
    /// All of so many instances, in order. None waits.
    pub(crate) fn new(alloc: Global, count: usize) -> Result<Line, AllocError>
        ensures { IfOk result (λ line. line
            ≡ record { count = count; line = range_with_len 0 count }) }
    {
        let mut agenda = Agenda::new(alloc);
        agenda.room(count)?;
        Ok(Line {
            count,
            fresh: 0,
            agenda,
        })
    }

    /// These instances wait, behind the others that do. It takes no memory.
    pub(crate) fn alert(&mut self, instances: &[usize])
        requires { All (λ j. j < self.old.count) instances.now }
        ensures count { self.new.count ≡ self.old.count }
        ensures alerted { AllAlerted self.old.line self.new.line instances.now }
    {
        self.agenda.alert_all(instances);
    }

    /// The next to be called: the first that waits, and where none does the next in order.
    pub(crate) fn next(&mut self) -> Option<usize>
        ensures count { self.new.count ≡ self.old.count }
        ensures below { IfSome result (λ i. i < self.old.count) }
        ensures first { IfSome result (λ i. self.old.line ≡ i ∷ self.new.line) }
        ensures none { result ≡ None → self.old.line ≡ [] }
        ensures same { result ≡ None → self.new ≡ self.old }
    {
        if self.agenda.waiting() > 0 {
            let instance = self.agenda.at(0);
            self.agenda.take(0);
            return Some(instance);
        }
        if self.fresh >= self.count {
            return None;
        }
        let instance = self.fresh;
        self.fresh += 1;
        Some(instance)
    }
}
