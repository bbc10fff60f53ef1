//! The processes that are ready, in the order of their turns.

use arrayvec::ArrayVec;
use std::marker::Model;

/// Process numbers from 1 to 100, none of them twice. The first one runs.
#[derive(Clone, Debug, Drop)]
pub struct Queue {
    numbers: ArrayVec<u32, 100>,
}

impl Model for Queue {
    ghost use Rattle.std.specs.Prelude.{ℕ, List};
    ghost use Rattle.ds_procs.specs.Inner.Queue.{IsQueue};

    ghost Value = { List ℕ };

    ghost view = { λ q. q.numbers.items };

    ghost invariant = { λ q. IsQueue q.numbers.items };
}

impl Queue {
    ghost use Rattle.std.specs.Prelude.{◌≡◌, ◌<◌, ◌≤◌, [], ◌∷◌, ◌++◌, Contains, take, drop, slice_get};
    ghost use Rattle.ds_procs.specs.Inner.Queue.{IsQueue, without};

    /// A queue with nobody in it.
    pub fn new() -> Self
        ensures { result ≡ [] }
    {
        Queue {
            numbers: ArrayVec::new(),
        }
    }

    /// The process whose turn it is, if there is one.
    pub fn first(&self) -> Option<u32>
        ensures first { result ≡ slice_get self.now 0 }
        ensures queue { IsQueue self.now }
    {
        self.numbers.first().copied()
    }

    /// Puts a process at the end.
    pub fn push(&mut self, process: u32)
        requires number { (0 < process) × (process ≤ 100) }
        requires absent { ¬ Contains self.old process }
        ensures { self.new ≡ self.old ++ process ∷ [] }
    {
        self.numbers.push(process);
    }

    /// Puts a process at the end, wherever it stood, or where it wasn't in.
    pub fn to_end(&mut self, process: u32)
        requires number { (0 < process) × (process ≤ 100) }
        ensures { self.new ≡ without self.old process ++ process ∷ [] }
    {
        self.remove(process);
        self.push(process);
    }

    /// Puts the first process at the end.
    pub fn rotate(&mut self)
        ensures { self.new ≡ drop 1 self.old ++ take 1 self.old }
    {
        if !self.numbers.is_empty() {
            self.numbers.rotate_left(1);
        }
    }

    /// Takes a process out, where it is in.
    pub fn remove(&mut self, process: u32)
        ensures { self.new ≡ without self.old process }
    {
        self.numbers.retain(|number| *number != process);
    }
}
