ghost use Rattle.std.specs.Prelude.{◌≡◌};
ghost use Rattle.dn_flows.specs.Packets.{with_next};

use crate::waiting::Waiting;
use dn_types::{Len, Weight};
use std::marker::Model;

/// A packet in the store of all queues, with the key of the packet behind it in its queue.
///
/// What the last packet of a queue names is never read.
///
/// It takes 16 bytes, so that a line of a cache holds four.
#[derive(Clone, Copy)]
pub struct Stored {
    packet: u64,
    next: u32,
    len: Len,
    weight: Weight,
}

impl Model for Stored {
    ghost use Rattle.dn_flows.specs.Packets.{StoredPacket};

    ghost Value = { StoredPacket };

    ghost view = { λ a. record { waiting = record { packet = a.packet; len = a.len; weight = a.weight }; next = a.next } };

    ghost inverse = { λ s. record { packet = s.waiting.packet; next = s.next; len = s.waiting.len; weight = s.waiting.weight } };
}

impl Stored {
    /// The packet, which names no other yet.
    pub fn new(waiting: Waiting) -> Stored
        ensures { result ≡ record { waiting = waiting; next = 0 } }
    {
        Stored {
            packet: waiting.packet,
            next: 0,
            len: waiting.len,
            weight: waiting.weight,
        }
    }

    /// The packet, without the key of the one behind it.
    pub fn waiting(&self) -> Waiting
        ensures { result ≡ self.now.waiting }
    {
        Waiting {
            packet: self.packet,
            len: self.len,
            weight: self.weight,
        }
    }

    /// The key of the packet behind it.
    pub fn next(&self) -> u32
        ensures { result ≡ self.now.next }
    {
        self.next
    }

    /// Names the packet under the key as the one behind it.
    pub fn name_next(&mut self, key: u32)
        ensures { self.new ≡ with_next key self.old }
    {
        self.next = key;
    }
}
