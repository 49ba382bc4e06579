//! Numbers in a queue, each at most once.
ghost use Rattle.std.specs.Prelude.{◌≡◌, ◌↔◌, ◌<◌, List, [], ◌∷◌, length, IsTrue, IfOk, IfSome};
ghost use Rattle.std.specs.Prelude.{OnSome, None, Contains};
ghost use Rattle.std.specs.VecDeque.{deque_capacity};
ghost use Rattle.prop_trail.specs.Queues.{Queued, joined};
ghost use Rattle.prop_trail.specs.inner.Flags.{IsFlagged};

use std::alloc::{AllocError, Global};
use std::collections::VecDeque;
use std::marker::Model;

/// Numbers in a line, with a flag for each number for which there is room.
#[derive(Drop)]
pub(crate) struct Queue {
    line: VecDeque<usize>,
    flags: Vec<bool>,
}

impl Model for Queue {
    ghost Value = { Queued };

    ghost view = { λ q. record { line = q.line.items; room = length q.flags.items } };

    ghost invariant = { λ q. IsFlagged q.line.items q.flags.items (deque_capacity q.line) };
}

impl Queue {
    /// No number, and room for those below this one.
    pub(crate) fn new(alloc: Global, room: usize) -> Result<Queue, AllocError>
        ensures { IfOk result (λ q. q ≡ record { line = []; room = room }) }
    {
        let line = VecDeque::with_capacity(alloc, room)?;
        let mut flags = Vec::new(alloc);
        flags.resize(room, false)?;
        Ok(Queue { line, flags })
    }

    /// Whether no number is queued.
    pub(crate) fn is_empty(&self) -> bool
        ensures { IsTrue result ↔ (self.now.line ≡ []) }
    {
        self.line.is_empty()
    }

    /// The number is queued: it keeps its place where it has one, and else it is the last. It takes
    /// no memory.
    pub(crate) fn join(&mut self, number: usize)
        requires { number < self.old.room }
        ensures { self.new ≡ record self.old { line = joined self.old.line number } }
    {
        if self.flags[number] {
            return;
        }
        self.flags[number] = true;
        self.line.push_back_reserved(number);
    }

    /// The first number leaves, and is queued no longer.
    pub(crate) fn leave(&mut self) -> Option<usize>
        ensures room { self.new.room ≡ self.old.room }
        ensures first { IfSome result (λ number. self.old.line ≡ number ∷ self.new.line) }
        ensures within { IfSome result (λ number. number < self.old.room) }
        ensures once { IfSome result (λ number. Contains self.new.line number → ⊥) }
        ensures none { result ≡ None → (self.old.line ≡ []) × (self.new.line ≡ []) }
    {
        let number = self.line.pop_front()?;
        self.flags[number] = false;
        Some(number)
    }

    /// All leave.
    pub(crate) fn clear(&mut self)
        ensures { self.new ≡ record self.old { line = [] } }
    {
        while self.leave().is_some() {}
    }
}
