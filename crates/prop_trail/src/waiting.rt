//! The instances that wait to be called.
ghost use Rattle.std.specs.Prelude.{◌≡◌, ◌↔◌, ◌<◌, [], length, IsTrue, IfOk, IfSome, None};
ghost use Rattle.std.specs.Prelude.{Contains};
ghost use Rattle.std.specs.List.{fold};
ghost use Rattle.prop_trail.specs.Queues.{Lines, woken, numbers_below, IsTaken};

use crate::queue::Queue;
use std::alloc::{AllocError, Global};
use std::marker::Model;

/// The instances that wait to be called: cheap ones first, each in order, none twice.
#[derive(Drop)]
pub struct Waiting {
    dear: Vec<bool>,
    first: Queue,
    last: Queue,
}

impl Model for Waiting {
    ghost use Rattle.std.specs.Prelude.{◌≡◌, length};
    ghost use Rattle.prop_trail.specs.Queues.{Lines};

    ghost Value = { Lines };

    ghost view = { λ w. record {
      dear = w.dear.items;
      first = w.first.line;
      last = w.last.line;
    } };

    ghost invariant = { λ w. (w.first.room ≡ length w.dear.items)
        × (w.last.room ≡ length w.dear.items) };
}

impl Waiting {
    /// No instance waits. For each it is told whether a call of it is dear.
    pub fn new(alloc: Global, dear: Vec<bool>) -> Result<Waiting, AllocError>
        ensures { IfOk result (λ w. w ≡ record { dear = dear.items; first = []; last = [] }) }
    {
        let count = dear.len();
        let first = Queue::new(alloc, count)?;
        let last = Queue::new(alloc, count)?;
        Ok(Waiting { dear, first, last })
    }

    /// How many instances there are, those that don't wait included.
    pub fn instances(&self) -> usize
        ensures { result ≡ length self.now.dear }
    {
        self.dear.len()
    }

    /// Whether no instance waits.
    pub fn is_empty(&self) -> bool
        ensures { IsTrue result ↔ ((self.now.first ≡ []) × (self.now.last ≡ [])) }
    {
        self.first.is_empty() && self.last.is_empty()
    }

    /// The instance waits: it keeps its place where it has one, and else it is the last of the
    /// cheap or of the dear ones. It takes no memory.
    pub fn wake(&mut self, instance: usize)
        requires { instance < length self.old.dear }
        ensures { self.new ≡ woken self.old instance }
    {
        if self.dear[instance] {
            self.last.join(instance);
        } else {
            self.first.join(instance);
        }
    }

    /// Every instance waits: those that didn't behind those that did, in order of number. It takes
    /// no memory.
    pub fn wake_all(&mut self)
        ensures { self.new ≡ fold woken self.old (numbers_below (length self.old.dear)) }
    {
        let count = self.instances();
        for instance in 0..count {
            self.wake(instance);
        }
    }

    /// The first that waits, which no longer does: of the cheap ones, and where none of them waits
    /// of the dear ones. `None` where no instance waits.
    pub fn next(&mut self) -> Option<usize>
        ensures first { IfSome result (λ instance. IsTaken self.old instance self.new) }
        ensures within { IfSome result (λ instance. instance < length self.old.dear) }
        ensures none { result ≡ None → (self.new ≡ self.old) × (self.old.first ≡ [])
            × (self.old.last ≡ []) }
    {
        match self.first.leave() {
            Some(instance) => Some(instance),
            None => self.last.leave(),
        }
    }

    /// No instance waits any longer.
    pub fn clear(&mut self)
        ensures { self.new ≡ record self.old { first = []; last = [] } }
    {
        self.first.clear();
        self.last.clear();
    }
}
