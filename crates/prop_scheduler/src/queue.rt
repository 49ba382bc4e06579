//! Numbers in a queue, each at most once.
ghost use Rattle.std.specs.Prelude.{◌≡◌, ◌↔◌, ℕ, ◌<◌, ◌≤◌, max, List, [], length, OnOk, OnErr};
ghost use Rattle.std.specs.Prelude.{OnSome, IfSome, IsSome, All, slice_get, slice_index_or, Some};
ghost use Rattle.std.specs.VecDeque.{deque_capacity};
ghost use Rattle.prop_scheduler.specs.inner.Agendas.{Queued, IsFlagged};
ghost use Rattle.prop_scheduler.specs.Agendas.{Alerted, AllAlerted, FirstAlerted, all_alerted};
ghost use Rattle.prop_scheduler.specs.Agendas.{numbers_below, without, IsLine};

use std::alloc::{AllocError, Global};
use std::collections::VecDeque;
use std::marker::Model;

/// Numbers in a line, with a flag for each number for which there is room.
#[derive(Drop)]
pub(crate) struct Queue {
    line: VecDeque<usize>,
    flags: Vec<bool>,
}

impl Model for Queue {
    ghost Value = { Queued };

    ghost view = { λ a. record { line = a.line.items; room = length a.flags.items } };

    ghost invariant = { λ a. IsFlagged a.line.items a.flags.items (deque_capacity a.line) };
}

/// The number at a place leaves the line: the first one off its front, and in the place of another
/// comes the last.
#[inline]
fn leave(line: &mut VecDeque<usize>, place: usize) -> Option<usize>
    ensures value { IfSome result (λ n. n ≡ slice_index_or line.old.items place n) }
    ensures items { OnSome result (line.new.items ≡ without line.old.items place) }
    ensures variant { IsSome result ↔ (place < length line.old.items) }
    ensures capacity { deque_capacity line.new ≡ deque_capacity line.old }
{
    if place == 0 {
        line.pop_front()
    } else {
        line.swap_remove_back(place)
    }
}

impl Queue {
    /// No number, and room for none. It takes no memory.
    pub(crate) fn new(alloc: Global) -> Queue
        ensures { result ≡ record { line = []; room = 0 } }
    {
        Queue {
            line: VecDeque::new(alloc),
            flags: Vec::new(alloc),
        }
    }

    /// How many numbers are queued.
    pub(crate) fn len(&self) -> usize
        ensures count { result ≡ length self.now.line }
        ensures line { IsLine self.now.line self.now.room }
    {
        self.line.len()
    }

    /// The number at a place.
    pub(crate) fn at(&self, place: usize) -> usize
        requires { place < length self.now.line }
        ensures { slice_get self.now.line place ≡ Some result }
    {
        self.line[place]
    }

    /// The number at a place goes. In the place of any but the first comes the last.
    pub(crate) fn take(&mut self, place: usize)
        requires { place < length self.old.line }
        ensures { self.new ≡ record self.old { line = without self.old.line place } }
    {
        if let Some(number) = leave(&mut self.line, place) {
            self.flags[number] = false;
        }
    }

    /// Makes room for the numbers below this one, those that have some included. Refused memory
    /// changes nothing.
    pub(crate) fn room(&mut self, count: usize) -> Result<(), AllocError>
        ensures ok { OnOk result (self.new ≡ record self.old { room = max self.old.room count }) }
        ensures err { OnErr result (self.new ≡ self.old) }
    {
        if count <= self.flags.len() {
            return Ok(());
        }
        self.line.reserve(count - self.line.len())?;
        self.flags.resize(count, false)?;
        Ok(())
    }

    /// The number is queued: it keeps its place where it has one, and else it is the last. It takes
    /// no memory.
    pub(crate) fn join(&mut self, number: usize)
        requires { number < self.old.room }
        ensures alerted { Alerted self.old.line self.new.line number }
        ensures room { self.new.room ≡ self.old.room }
    {
        if self.flags[number] {
            return;
        }
        self.flags[number] = true;
        let _ = self.line.push_back(number);
    }

    /// Queues these numbers, one after the other. It takes no memory.
    pub(crate) fn join_all(&mut self, numbers: &[usize])
        requires { All (λ j. j < self.old.room) numbers.now }
        ensures line { self.new.line ≡ all_alerted self.old.line numbers.now }
        ensures alerted { AllAlerted self.old.line self.new.line numbers.now }
        ensures room { self.new.room ≡ self.old.room }
    {
        for number in numbers {
            self.join(*number);
        }
    }

    /// Queues the first numbers, in order. It takes no memory.
    pub(crate) fn join_first(&mut self, count: usize)
        requires { count ≤ self.old.room }
        ensures line { self.new.line ≡ all_alerted self.old.line (numbers_below count) }
        ensures alerted { FirstAlerted self.old.line self.new.line count }
        ensures room { self.new.room ≡ self.old.room }
    {
        for number in 0..count {
            self.join(number);
        }
    }
}
