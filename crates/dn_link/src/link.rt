ghost use Rattle.std.specs.Prelude.{◌≡◌, ◌+◌, ◌*◌, ◌<◌, ◌≤◌, ◌^◌};
ghost use Rattle.dn_types.specs.Links.{due_by};

use crate::timing::due;
use dn_types::{Delay, Rule};
use std::marker::Model;

/// A link: when it is free, and when its last packet is due, in nanoseconds.
///
/// The first is the moment from which it is free. The second is the due moment of the packet that started last on it.
#[derive(Clone, Copy, Debug, PartialEq, Eq)]
pub struct Link {
    free: u64,
    last_due: u64,
}

impl Model for Link {
    ghost use Rattle.dn_link.specs.LinkState.{LinkState};

    ghost Value = { LinkState };

    ghost view = { λ a. record { free = a.free; last_due = a.last_due } };

    ghost inverse = { λ s. record { free = s.free; last_due = s.last_due } };
}

impl Link {
    /// A link on which no packet has started.
    pub fn new() -> Link
        ensures free { result.free ≡ 0 }
        ensures last_due { result.last_due ≡ 0 }
    {
        Link {
            free: 0,
            last_due: 0,
        }
    }

    /// The moment from which the link is free: the end of its last transmission.
    pub fn free(&self) -> u64
        ensures { result ≡ self.now.free }
    {
        self.free
    }

    /// The due moment of the packet that started last on the link, 0 before the first.
    pub fn last_due(&self) -> u64
        ensures { result ≡ self.now.last_due }
    {
        self.last_due
    }

    /// A transmission of `tx` nanoseconds begins.
    pub fn begin(&mut self, start: u64, tx: u64)
        requires free { self.old.free ≤ start }
        requires fits { start + tx < 2 ^ 64 }
        ensures free { self.new.free ≡ start + tx }
        ensures last_due { self.new.last_due ≡ self.old.last_due }
    {
        self.free = start + tx;
    }

    /// The due moment by the rule of the packet that starts at `start`, which is the last on the link from now on.
    pub fn deliver(&mut self, start: u64, tx: u64, delay: Delay, rule: Rule) -> u64
        requires fits { start + tx + delay * 1000000 < 2 ^ 64 }
        ensures value { result ≡ due_by rule (start + tx + delay * 1000000) self.old.last_due }
        ensures last_due { self.new.last_due ≡ result }
        ensures free { self.new.free ≡ self.old.free }
    {
        let arrival = due(start, tx, delay);
        let due = match rule {
            Rule::Free => arrival,
            Rule::Ordered => self.last_due.max(arrival),
        };
        self.last_due = due;
        due
    }
}
