use dn_types::{Call, FiveTuple, Len, Moment, Number, Packet, Target};

/// The time between two rounds, in nanoseconds. In a round each thread makes one call.
const ROUND: u64 = 1_500_000;

/// The moment of a round.
fn moment(round: u32) -> Moment {
    Moment::new(u64::from(round) * ROUND).unwrap()
}

/// A packet of 1,000 bytes to pipe 1, of the sender of this number.
pub fn submit(sender: u16, round: u32) -> Call {
    Call::Submit {
        target: Target::Pipe(Number::new(1).unwrap()),
        packet: Packet {
            tuple: FiveTuple {
                src: 0x0a00_0001,
                dst: 0x0a00_0002,
                proto: 17,
                sport: sender,
                dport: 2000,
            },
            len: Len::new(1000).unwrap(),
            word: round,
        },
        moment: moment(round),
    }
}

/// Takes the packets that have come out of the link.
pub fn collect(round: u32) -> Call {
    Call::Collect(moment(round))
}
