use dn_types::{
    Bandwidth, Call, Command, Delay, FiveTuple, Len, Limit, Loss, Mask, Moment, Number, Packet,
    Target, Weight,
};

/// What is configured, and where the packets go.
#[derive(Clone, Copy)]
pub struct Load {
    pub name: &'static str,
    /// How many queues share pipe 1; 0 where the packets go to the pipe.
    pub queues: u32,
    /// How many flows the packets of a target have, by their destination.
    pub flows: u32,
    /// The bandwidth of pipe 1 in bit/s.
    pub bandwidth: u64,
    /// The delay of pipe 1 in ms.
    pub delay: u32,
    /// The time from one packet to the next, in ns.
    pub interval: u64,
}

/// A pipe's or a queue's flows are told apart by the destination.
pub const MASK: Mask = Mask {
    src: 0,
    dst: 0xffff_ffff,
    proto: 0,
    sport: 0,
    dport: 0,
};

/// The next number of a small generator, so that no cache foresees the flows.
pub fn next(seed: u64) -> u64 {
    seed.wrapping_mul(6364136223846793005)
        .wrapping_add(1442695040888963407)
}

/// The configuration of pipe 1.
pub fn pipe(load: &Load) -> Option<Call> {
    Some(Call::Configure(Command::Pipe {
        number: Number::new(1)?,
        bw: Bandwidth::new(load.bandwidth)?,
        delay: Delay::new(load.delay)?,
        limit: Limit::slots(100)?,
        loss: Loss::new(0)?,
        buckets: None,
        mask: MASK,
    }))
}

/// The configuration of a queue on pipe 1.
pub fn queue(number: u32) -> Option<Call> {
    Some(Call::Configure(Command::Queue {
        number: Number::new(number)?,
        pipe: Number::new(1)?,
        weight: Weight::new((number % 100) as u8 + 1)?,
        limit: Limit::slots(100)?,
        loss: Loss::new(0)?,
        buckets: None,
        mask: MASK,
    }))
}

/// The delete of the queue where packets go to one, and of the pipe where they go to the pipe.
pub fn delete(load: &Load) -> Option<Call> {
    let number = Number::new(1)?;
    let command = if load.queues == 0 {
        Command::DeletePipe(number)
    } else {
        Command::DeleteQueue(number)
    };
    Some(Call::Configure(command))
}

/// A packet of 1,000 bytes, whose target and flow the seed picks.
pub fn packet(load: &Load, seed: u64, moment: u64) -> Option<Call> {
    let pick = (seed >> 33) as u32;
    let target = if load.queues == 0 {
        Target::Pipe(Number::new(1)?)
    } else {
        Target::Queue(Number::new(pick % load.queues + 1)?)
    };
    let flow = if load.flows == 0 {
        0
    } else {
        (seed >> 20 & 0xffff_ffff) as u32 % load.flows
    };
    Some(Call::Submit {
        target,
        packet: Packet {
            tuple: FiveTuple {
                src: 0x0a00_0001,
                dst: flow,
                proto: 17,
                sport: 1000,
                dport: 2000,
            },
            len: Len::new(1000)?,
            word: 0,
        },
        moment: Moment::new(moment)?,
    })
}
