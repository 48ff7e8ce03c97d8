use dn_types::{
    Bandwidth, Call, Command, Delay, FiveTuple, Len, Limit, Loss, Mask, Moment, Number, Packet,
    Target,
};

/// Pipe 1, unlimited, so that each packet starts when it is submitted.
///
/// Its delay in ms keeps the packets under way.
pub fn pipe(delay: u32) -> Option<Call> {
    Some(Call::Configure(Command::Pipe {
        number: Number::new(1)?,
        bw: Bandwidth::new(0)?,
        delay: Delay::new(delay)?,
        limit: Limit::slots(50)?,
        loss: Loss::new(0)?,
        buckets: None,
        mask: Mask {
            src: 0,
            dst: 0,
            proto: 0,
            sport: 0,
            dport: 0,
        },
    }))
}

/// A packet of 1,000 bytes to pipe 1.
pub fn packet(moment: u64) -> Option<Call> {
    Some(Call::Submit {
        target: Target::Pipe(Number::new(1)?),
        packet: Packet {
            tuple: FiveTuple {
                src: 0x0a00_0001,
                dst: 0x0a00_0002,
                proto: 17,
                sport: 1000,
                dport: 2000,
            },
            len: Len::new(1000)?,
            word: 0,
        },
        moment: Moment::new(moment)?,
    })
}
