use crate::destination::{Destination, number};
use dn_types::{FiveTuple, FlowKey, Mask};
use std::test::Fail;

/// The key of a flow, with its pipe as a plain number.
#[derive(Clone, Copy)]
pub struct Key {
    pub destination: Destination,
    pub pipe: u32,
    pub mask: Mask,
    pub tuple: FiveTuple,
}

impl Key {
    /// The key, for a reply.
    pub fn flow_key(&self) -> Result<FlowKey, Fail> {
        Ok(FlowKey {
            target: self.destination.target()?,
            pipe: number(self.pipe)?,
            mask: self.mask,
            tuple: self.tuple,
        })
    }
}

// The key of the flow of all packets to a destination: no bits of a tuple are kept.
fn whole(destination: Destination, pipe: u32) -> Key {
    Key {
        destination,
        pipe,
        mask: Mask {
            src: 0,
            dst: 0,
            proto: 0,
            sport: 0,
            dport: 0,
        },
        tuple: FiveTuple {
            src: 0,
            dst: 0,
            proto: 0,
            sport: 0,
            dport: 0,
        },
    }
}

/// The key of the one flow of a pipe.
pub fn pipe_key(value: u32) -> Key {
    whole(Destination::Pipe(value), value)
}

/// The key of the one flow of a queue on a pipe.
pub fn queue_key(value: u32, on: u32) -> Key {
    whole(Destination::Queue(value), on)
}

/// The key of a flow of pipe 1 by `mask dst-ip 0x000000ff`.
pub fn last_byte_key(dst: u32) -> Key {
    let key = pipe_key(1);
    Key {
        mask: Mask {
            dst: 0xff,
            ..key.mask
        },
        tuple: FiveTuple { dst, ..key.tuple },
        ..key
    }
}
