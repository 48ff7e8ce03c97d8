//! A packet, a flow's state, and parts of keys without bits, for the tests of several crates.

use dn_types::{FiveTuple, FlowKey, FlowStatus, Len, Mask, Number, Packet, Target};

/// The mask that keeps no bit.
pub fn no_bits() -> Mask {
    Mask {
        src: 0,
        dst: 0,
        proto: 0,
        sport: 0,
        dport: 0,
    }
}

/// What a mask that keeps no bit leaves of a tuple.
fn no_tuple() -> FiveTuple {
    FiveTuple {
        src: 0,
        dst: 0,
        proto: 0,
        sport: 0,
        dport: 0,
    }
}

/// The packet of 1,000 bytes from 10.0.0.1 to 10.0.0.2 that the worked examples send.
pub fn example_packet() -> Option<Packet> {
    Some(Packet {
        tuple: FiveTuple {
            src: 0x0a00_0001,
            dst: 0x0a00_0002,
            proto: 17,
            sport: 1000,
            dport: 2000,
        },
        len: Len::new(1000)?,
        word: 0,
    })
}

/// The state of pipe 1's one flow, whose one packet has started.
pub fn one_started() -> Option<FlowStatus> {
    Some(FlowStatus {
        flow: 0,
        key: FlowKey {
            target: Target::Pipe(Number::new(1)?),
            pipe: Number::new(1)?,
            mask: no_bits(),
            tuple: no_tuple(),
        },
        queued: 0,
        bytes: 0,
        lost: 0,
        full: 0,
        started: 1,
        discarded: 0,
    })
}
