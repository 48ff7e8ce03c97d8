//! Tests. A test's function makes the table and no more, since what owns a table is dear to prove.
use crate::given::{
    at_most, counts, discard, is_told, key, note_both, packet, pass, pop, push, verdict, waiting,
};
use crate::on_new::on_new;
use dn_flows::{DropRule, Flows, HashKey, Verdict, Waiting};
use dn_types::{Len, Limit, Loss};
use std::alloc::AllocError;
use std::process::Abort;

/// Makes a flow with room for a packet in an empty table, and takes it out again.
fn made_and_forgotten(flows: &mut Flows) -> Result<Option<usize>, AllocError> {
    if flows.len() != 0 {
        return Ok(None);
    }
    let flow = flows.find_or_make(key(1))?;
    flows.reserve_place(flow)?;
    flows.forget_last();
    Ok(Some(flow))
}

/// The flows to which four packets fall: the first flow of the target is found without the hash, and the second by it.
fn four_found(flows: &mut Flows) -> Result<[usize; 4], AllocError> {
    let first = flows.find_or_make(key(2))?;
    let second = flows.find_or_make(key(1))?;
    let third = flows.find_or_make(key(2))?;
    let fourth = flows.find_or_make(key(1))?;
    Ok([first, second, third, fourth])
}

fn check_parts<R: Abort>(rt: &R, flows: &mut Flows) -> Result<(), AllocError> {
    assert!(rt; made_and_forgotten(flows)? == Some(0));
    assert!(rt; flows.len() == 0);
    assert!(rt; four_found(flows)? == [0, 1, 0, 1]);
    assert!(rt; flows.len() == 2);
    assert!(rt; is_told(flows, 1, &key(1)));
    Ok(())
}

// The numbers don't depend on the key of the hash.
#[test]
fn parts_by_themselves(rt: HostRuntime) -> Result<(), AllocError> {
    let key = HashKey(u128::MAX);
    on_new(
        Flows::with_key(rt.alloc(), key),
        |flows| check_parts(&rt, flows),
    )?;
    on_new(Flows::new(rt.alloc()), |flows| check_parts(&rt, flows))
}

// The columns are a loss rate, of which 2^30 is a half and 2^31 is 1, a packet's word and the verdict.
static LOSSES: [(u32, u32, Verdict); 6] = [
    (1 << 30, 1_073_741_823, Verdict::Lost),
    (1 << 30, 2_147_483_648, Verdict::Lost),
    (1 << 30, 1_073_741_824, Verdict::Take),
    (1 << 30, 3_221_225_472, Verdict::Take),
    (1 << 31, 4_294_967_295, Verdict::Lost),
    (0, 0, Verdict::Take),
];

/// The verdict on a packet of 1,000 bytes with that word, by that loss rate.
fn verdict_by_word(flows: &Flows, flow: usize, rate: u32, word: u32) -> Option<Verdict> {
    let loss = Loss::new(rate)?;
    if flow >= flows.len() {
        return None;
    }
    let limit = Limit::slots(1).unwrap();
    let sent = packet(Len::new(1_000).unwrap(), word);
    Some(flows.verdict(flow, &sent, &DropRule { limit, loss }))
}

fn check_losses<R: Abort>(rt: &R, flows: &mut Flows) -> Result<(), AllocError> {
    let flow = flows.find_or_make(key(2))?;
    for (rate, word, want) in LOSSES.iter() {
        assert!(rt;
            verdict_by_word(flows, flow, *rate, *word) == Some(*want),
            "word {word}"
        );
    }
    Ok(())
}

#[test]
fn loss_by_word(rt: HostRuntime) -> Result<(), AllocError> {
    on_new(Flows::new(rt.alloc()), |flows| check_losses(&rt, flows))
}

fn check_byte_limit<R: Abort>(rt: &R, flows: &mut Flows) -> Result<(), AllocError> {
    let flow = flows.find_or_make(key(2))?;
    let slots = at_most(Limit::slots(1).unwrap());
    let bytes = at_most(Limit::kbytes(1).unwrap());
    assert!(rt; verdict(flows, flow, &slots) == Some(Verdict::Take));
    for (packet, len, by_bytes) in [
        (0, Len::new(1_024).unwrap(), Verdict::Take),
        (1, Len::new(1).unwrap(), Verdict::Full),
    ] {
        push(flows, flow, waiting(packet, len))?;
        assert!(rt; verdict(flows, flow, &slots) == Some(Verdict::Full));
        assert!(rt; verdict(flows, flow, &bytes) == Some(by_bytes));
    }
    assert!(rt; counts(flows, flow) == Some([2, 1_025, 0, 0, 0, 0]));
    Ok(())
}

// 1,024 bytes are not above a limit of 1 Kbyte, and 1,025 are. One packet fills a queue of one slot.
#[test]
fn a_byte_limit(rt: HostRuntime) -> Result<(), AllocError> {
    on_new(Flows::new(rt.alloc()), |flows| check_byte_limit(&rt, flows))
}

/// What happens at a flow.
///
/// A packet of 100 bytes comes, the first one starts, which has this number, or all that wait are discarded.
#[derive(Clone, Copy)]
enum Step {
    Comes(u64),
    Starts(Option<u64>),
    Discards,
}

fn take_step<R: Abort>(
    rt: &R,
    flows: &mut Flows,
    flow: usize,
    step: Step,
) -> Result<(), AllocError> {
    match step {
        Step::Comes(packet) => {
            let len = Len::new(100).unwrap();
            push(flows, flow, waiting(packet, len))?;
        }
        Step::Starts(number) => {
            assert!(rt; flows.has_backlog(flow) == number.is_some());
            assert!(rt; pop(flows, flow).map(|first| first.packet) == number);
        }
        Step::Discards => discard(flows, flow),
    }
    Ok(())
}

// The packets of two flows lie in one store, and take the places of those that left.
static TWO_QUEUES: [(usize, Step); 17] = [
    (0, Step::Comes(0)),
    (1, Step::Comes(1)),
    (0, Step::Comes(2)),
    (1, Step::Comes(3)),
    (0, Step::Starts(Some(0))),
    (1, Step::Comes(4)),
    (1, Step::Starts(Some(1))),
    (0, Step::Comes(5)),
    (1, Step::Discards),
    (1, Step::Comes(6)),
    (0, Step::Starts(Some(2))),
    (0, Step::Starts(Some(5))),
    (0, Step::Starts(None)),
    (0, Step::Comes(7)),
    (0, Step::Starts(Some(7))),
    (1, Step::Starts(Some(6))),
    (1, Step::Starts(None)),
];

fn check_two_queues<R: Abort>(rt: &R, flows: &mut Flows) -> Result<(), AllocError> {
    assert!(rt; four_found(flows)? == [0, 1, 0, 1]);
    for (flow, step) in TWO_QUEUES.iter() {
        take_step(rt, flows, *flow, *step)?;
    }
    assert!(rt; !flows.has_backlog(2));
    Ok(())
}

#[test]
fn two_queues_in_one_store(rt: HostRuntime) -> Result<(), AllocError> {
    on_new(Flows::new(rt.alloc()), |flows| check_two_queues(&rt, flows))
}

fn check_passing<R: Abort>(rt: &R, flows: &mut Flows) -> Result<(), AllocError> {
    let flow = flows.find_or_make(key(2))?;
    assert!(rt; pass(flows, flow)?);
    assert!(rt; counts(flows, flow) == Some([0, 0, 0, 0, 1, 0]));
    let len = Len::new(100).unwrap();
    push(flows, flow, waiting(1, len))?;
    assert!(rt; !pass(flows, flow)?);
    assert!(rt; pop(flows, flow) == Some(waiting(1, len)));
    assert!(rt; pass(flows, flow)?);
    assert!(rt; counts(flows, flow) == Some([0, 0, 0, 0, 3, 0]));
    Ok(())
}

// Packets that pass are counted as starts, and none of them waits.
#[test]
fn passing_packets(rt: HostRuntime) -> Result<(), AllocError> {
    on_new(Flows::new(rt.alloc()), |flows| check_passing(&rt, flows))
}

/// Two packets of 1,000 bytes come, and the first starts, which is answered.
fn one_started(flows: &mut Flows, flow: usize) -> Result<Option<Waiting>, AllocError> {
    let len = Len::new(1_000).unwrap();
    push(flows, flow, waiting(7, len))?;
    push(flows, flow, waiting(8, len))?;
    Ok(pop(flows, flow))
}

fn check_status<R: Abort>(rt: &R, flows: &mut Flows) -> Result<(), AllocError> {
    let flow = flows.find_or_make(key(2))?;
    let len = Len::new(1_000).unwrap();
    let first = one_started(flows, flow)?;
    assert!(rt; first == Some(waiting(7, len)));
    assert!(rt; counts(flows, flow) == Some([1, 1_000, 0, 0, 1, 0]));
    note_both(flows, flow);
    discard(flows, flow);
    assert!(rt; counts(flows, flow) == Some([0, 0, 1, 1, 1, 1]));
    assert!(rt; flow == 0 && is_told(flows, flow, &key(2)));
    Ok(())
}

#[test]
fn a_status(rt: HostRuntime) -> Result<(), AllocError> {
    on_new(Flows::new(rt.alloc()), |flows| check_status(&rt, flows))
}

/// Makes a flow, twice more at most if memory was refused, which left none.
fn made_again<R: Abort>(rt: &R, flows: &mut Flows) -> Result<usize, AllocError> {
    for _ in 0..2u64 {
        if let Ok(flow) = flows.find_or_make(key(1)) {
            return Ok(flow);
        }
        assert!(rt; flows.len() == 0);
    }
    flows.find_or_make(key(1))
}

/// Reserves a place. If memory was refused, nothing has changed.
fn reserved_once<R: Abort>(rt: &R, flows: &mut Flows, flow: usize) -> Result<(), AllocError> {
    if flow >= flows.len() {
        return Err(AllocError);
    }
    let before = flows.status(flow);
    if flows.reserve_place(flow).is_ok() {
        return Ok(());
    }
    assert!(rt; flows.status(flow) == before);
    Err(AllocError)
}

/// The same, twice more at most if memory was refused.
fn reserved_again<R: Abort>(rt: &R, flows: &mut Flows, flow: usize) -> Result<(), AllocError> {
    for _ in 0..2u64 {
        if reserved_once(rt, flows, flow).is_ok() {
            return Ok(());
        }
    }
    reserved_once(rt, flows, flow)
}

fn check_growth<R: Abort>(rt: &R, flows: &mut Flows) -> Result<(), AllocError> {
    assert!(rt; made_again(rt, flows)? == 0);
    reserved_again(rt, flows, 0)?;
    // A known key and a place that is reserved take no memory.
    let flow = flows.find_or_make(key(1))?;
    assert!(rt; (flow, flows.reserve_place(flow)) == (0, Ok(())));
    assert!(rt; flows.len() == 1);
    assert!(rt; is_told(flows, 0, &key(1)));
    Ok(())
}

// With each growth refused in turn, or each two in a row, this test passes, since it asks again.
#[test]
fn a_refused_growth_changes_nothing(rt: HostRuntime) -> Result<(), AllocError> {
    on_new(Flows::new(rt.alloc()), |flows| check_growth(&rt, flows))
}
