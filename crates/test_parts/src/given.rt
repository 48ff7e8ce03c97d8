//! What the tests are given: keys, packets and rules, and calls of a table, which do nothing where there is no such flow.
use dn_flows::{DropRule, Flows, Verdict, Waiting};
use dn_types::{FiveTuple, FlowKey, Len, Limit, Loss, Mask, Number, Packet, Target, Weight};
use std::alloc::AllocError;

/// UDP from 10.0.0.1 to 10.0.0.`last`.
fn tuple(last: u8) -> FiveTuple {
    FiveTuple {
        src: 0x0a00_0001,
        dst: 0x0a00_0000 + u32::from(last),
        proto: 17,
        sport: 1_000,
        dport: 2_000,
    }
}

/// The key of that packet at pipe 1, whose mask keeps the last number of the destination.
pub(crate) fn key(last: u8) -> FlowKey {
    let number = Number::new(1).unwrap();
    let mask = Mask {
        src: 0,
        dst: 0xff,
        proto: 0,
        sport: 0,
        dport: 0,
    };
    FlowKey {
        target: Target::Pipe(number),
        pipe: number,
        mask,
        tuple: mask.apply(&tuple(last)),
    }
}

pub(crate) fn packet(len: Len, word: u32) -> Packet {
    Packet {
        tuple: tuple(2),
        len,
        word,
    }
}

/// A rule by which no packet is lost.
pub(crate) fn at_most(limit: Limit) -> DropRule {
    DropRule {
        limit,
        loss: Loss::new(0).unwrap(),
    }
}

/// What is decided of a packet of one byte.
pub(crate) fn verdict(flows: &Flows, flow: usize, rule: &DropRule) -> Option<Verdict> {
    if flow >= flows.len() {
        return None;
    }
    Some(flows.verdict(flow, &packet(Len::new(1).unwrap(), 0), rule))
}

/// A packet of a queue of weight 1.
pub(crate) fn waiting(packet: u64, len: Len) -> Waiting {
    Waiting {
        packet,
        len,
        weight: Weight::new(1).unwrap(),
    }
}

/// Puts a packet into the flow's queue, where one of 100 slots takes it.
pub(crate) fn push(flows: &mut Flows, flow: usize, waiting: Waiting) -> Result<(), AllocError> {
    if flow >= flows.len() {
        return Ok(());
    }
    flows.reserve_place(flow)?;
    let rule = at_most(Limit::slots(100).unwrap());
    // The verdict says of the length of the packet that it judged that it fits.
    let sent = packet(waiting.len, 0);
    if let Verdict::Take = flows.verdict(flow, &sent, &rule) {
        flows.push_reserved(
            flow,
            Waiting {
                packet: waiting.packet,
                len: sent.len,
                weight: waiting.weight,
            },
        );
    }
    Ok(())
}

/// The flow's first packet, which starts.
pub(crate) fn pop(flows: &mut Flows, flow: usize) -> Option<Waiting> {
    if flow >= flows.len() || flows.status(flow).started > 100 {
        return None;
    }
    flows.pop_front(flow)
}

/// A packet passes the flow's queue, where none waits there. The answer is whether it did.
pub(crate) fn pass(flows: &mut Flows, flow: usize) -> Result<bool, AllocError> {
    if flow >= flows.len() {
        return Ok(false);
    }
    flows.reserve_place(flow)?;
    if flows.has_backlog(flow) || flows.status(flow).started > 100 {
        return Ok(false);
    }
    flows.pass(flow);
    Ok(true)
}

/// Whether the flow is told by its number and this key.
pub(crate) fn is_told(flows: &Flows, flow: usize, key: &FlowKey) -> bool {
    if flow >= flows.len() {
        return false;
    }
    let status = flows.status(flow);
    status.flow == flow && status.key == *key && flows.key(flow) == *key
}

/// The flow's counts: queued, bytes, lost, full, started and discarded.
pub(crate) fn counts(flows: &Flows, flow: usize) -> Option<[u64; 6]> {
    if flow >= flows.len() {
        return None;
    }
    let status = flows.status(flow);
    Some([
        status.queued,
        status.bytes,
        status.lost,
        status.full,
        status.started,
        status.discarded,
    ])
}

/// Empties the flow's queue.
pub(crate) fn discard(flows: &mut Flows, flow: usize) {
    if flow >= flows.len() {
        return;
    }
    let status = flows.status(flow);
    if status.queued < 100 && status.discarded < 100 {
        flows.discard(flow);
    }
}

/// Notes one packet that is lost and one that finds the queue full.
pub(crate) fn note_both(flows: &mut Flows, flow: usize) {
    if flow >= flows.len() {
        return;
    }
    let status = flows.status(flow);
    if status.lost < 100 && status.full < 100 {
        flows.note_lost(flow);
        flows.note_full(flow);
    }
}
