ghost use Rattle.std.specs.Prelude.{◌≡◌, ℕ, ◌+◌, ◌<◌, ◌≤◌, [], length, IfSome, OnErr, OnOk};
ghost use Rattle.dn_shaper.specs.Refinement.QueueCounts.{count_at, one_for};

use dn_types::Number;
use std::alloc::{AllocError, Global};
use std::marker::Model;

/// How many of the queues in force name each pipe, by its number.
#[derive(Drop)]
pub struct QueueCounts {
    counts: Vec<usize>,
}

impl Model for QueueCounts {
    ghost use Rattle.std.specs.Prelude.{ℕ, List};

    ghost Value = { List ℕ };

    ghost view = { λ a. a.counts.items };
}

impl QueueCounts {
    /// No queue names a pipe. It takes no memory.
    pub fn new(alloc: Global) -> QueueCounts
        ensures { result ≡ [] }
    {
        QueueCounts {
            counts: Vec::new(alloc),
        }
    }

    /// How many queues name the pipe.
    pub fn of(&self, pipe: Number) -> usize
        ensures { result ≡ count_at self.now pipe }
    {
        match self.counts.get(pipe.get() as usize) {
            Some(count) => *count,
            None => 0,
        }
    }

    /// Makes a place for the pipe's count.
    pub fn extend(&mut self, pipe: Number) -> Result<(), AllocError>
        ensures same { (other : ℕ) → count_at self.new other ≡ count_at self.old other }
        ensures longer { length self.old ≤ length self.new }
        ensures place { OnOk result (pipe < length self.new) }
        ensures only_new { OnErr result (length self.old ≤ pipe) }
    {
        let wanted = pipe.get() as usize + 1;
        if self.counts.len() < wanted {
            self.counts.resize(wanted, 0)?;
        }
        Ok(())
    }

    /// Adds a queue to the count of the pipe that it names, if it is one.
    pub fn count(&mut self, pipe: Option<Number>)
        requires place { IfSome pipe (λ p. p < length self.old) }
        requires few { (p : ℕ) → count_at self.old p ≤ 65536 }
        ensures counts { (p : ℕ) → count_at self.new p ≡ count_at self.old p + one_for pipe p }
        ensures places { length self.new ≡ length self.old }
    {
        if let Some(pipe) = pipe {
            self.counts[pipe.get() as usize] += 1;
        }
    }

    /// Takes a queue out of the count of the pipe that it named, if it was one.
    pub fn discount(&mut self, pipe: Option<Number>)
        requires counted { (p : ℕ) → one_for pipe p ≤ count_at self.old p }
        ensures counts { (p : ℕ) → count_at self.new p + one_for pipe p ≡ count_at self.old p }
        ensures places { length self.new ≡ length self.old }
    {
        if let Some(pipe) = pipe {
            self.counts[pipe.get() as usize] -= 1;
        }
    }
}
