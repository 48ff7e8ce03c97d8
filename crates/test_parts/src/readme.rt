//! Samples of the READMEs, each run: their lines stand between marks, and tools/gate/samples.py compares them with the pages.
use crate::given::{at_most, key, packet, waiting};
use dn_config::{
    LineFault, NumberFault, Words, number_until, parse_line, print_command, read_address,
    read_number, split_joined,
};
use dn_flows::{DropRule, Flows, HashKey, Verdict, Waiting};
use dn_types::{Call, FiveTuple, FlowKey, Len, Limit, Moment, Number, Packet, Target, Weight};
use dn_wf2q::Sched;
use std::alloc::{AllocError, Global};
use std::test::Fail;

fn packet_to_pipe() -> Result<Call, &'static str> {
    // In the README of dn_types, 1:
    let pipe = Number::new(1).ok_or("1 to 65535")?;
    let packet = Packet {
        tuple: FiveTuple {
            src: 0x0a00_0001,
            dst: 0x0a00_0002,
            proto: 17,
            sport: 1000,
            dport: 2000,
        },
        len: Len::new(1000).ok_or("1 to 65535 bytes")?,
        word: 0,
    };
    let moment = Moment::new(1_000_000).ok_or("up to 2^62 ns")?;
    let call = Call::Submit {
        target: Target::Pipe(pipe),
        packet,
        moment,
    };
    // Up to here.
    Ok(call)
}

#[test]
fn the_types(rt: HostRuntime) -> Result<(), Fail> {
    let Call::Submit { packet, moment, .. } = packet_to_pipe()? else {
        panic!(rt; "a Submit")
    };
    assert!(rt; (packet.len.get(), moment.get()) == (1_000, 1_000_000));
    Ok(())
}

#[test]
fn numbers_words_and_joined_inputs(rt: HostRuntime) {
    let line = b"pipe 1 config".as_slice();
    let input = b"pipe 1 config\n--\nmoment\n".as_slice();
    // In the README of dn_config, 2:
    let port = read_number(b"2000", 0, 65_535);
    let none = read_number(b"02000", 0, 65_535);
    let high = read_number(b"70000", 0, 65_535);
    let host = read_address(b"10.0.0.1");
    let cut = number_until(b"17,2000", b',', 0, 255);
    let first = Words::new(line).next();
    let (config, packets) = split_joined(input);
    // Up to here.
    assert!(rt; port == Ok(2000) && none == Err(NumberFault::Shape));
    assert!(rt; high == Err(NumberFault::Range) && host == Some(0x0a00_0001));
    assert!(rt; cut == Some((17, b"2000".as_slice())));
    assert!(rt; matches!(first, Some((word, _)) if word == b"pipe".as_slice()));
    assert!(rt; config == b"pipe 1 config\n".as_slice() && packets == b"moment\n".as_slice());
}

#[test]
fn lines_of_a_configuration(rt: HostRuntime) -> Result<(), AllocError> {
    let alloc = rt.alloc();
    // In the README of dn_config, 1:
    let command = parse_line("pipe 1 config bw 8Mbit/s queue 20 # uplink");
    let none = parse_line("# note");
    let fault = parse_line("pipe 0 config");
    // Up to here.
    assert!(rt; none == Ok(None) && fault == Err(LineFault::OutOfRange(2)));
    // In the README of dn_config, 1:
    if let Ok(Some(command)) = command {
        let text = print_command(alloc, &command)?;
        // Up to here.
        assert!(rt; text.as_str() == "pipe 1 config bw 8000000bit/s queue 20");
        return Ok(());
        // In the README of dn_config, 1:
    }
    // Up to here.
    panic!(rt; "no command")
}

fn slot_picked(alloc: Global, len: Len, weight: Weight) -> Result<Option<usize>, AllocError> {
    // In the README of dn_wf2q, 1:
    let mut sched = Sched::new(alloc);
    sched.begin_busy();
    sched.reserve_flow(0)?;
    sched.arrive(0, len, weight);
    let sent = sched.pick();
    // Up to here.
    Ok(sent)
}

#[test]
fn the_scheduler(rt: HostRuntime) {
    let len = Len::new(1000).unwrap();
    let weight = Weight::new(1).unwrap();
    let mut sent = slot_picked(rt.alloc(), len, weight);
    if sent.is_err() {
        sent = slot_picked(rt.alloc(), len, weight);
    }
    assert!(rt; sent == Ok(Some(0)));
}

#[test]
fn the_flow_table(rt: HostRuntime) -> Result<(), AllocError> {
    let (alloc, hash_key) = (rt.alloc(), HashKey(7));
    // In the README of dn_flows, 1:
    let mut flows = Flows::with_key(alloc, hash_key);
    // Up to here.
    let len = Len::new(1_000).unwrap();
    let rule = at_most(Limit::slots(1).unwrap());
    let outcome = first_of_flow(&mut flows, key(1), &packet(len, 0), &rule);
    drop(flows);
    assert!(rt; outcome? == Some(waiting(7, len)));
    Ok(())
}

/// Makes the flow and judges the packet, and then the flow's first packet starts.
fn first_of_flow(
    flows: &mut Flows,
    flow_key: FlowKey,
    packet: &Packet,
    rule: &DropRule,
) -> Result<Option<Waiting>, AllocError> {
    // In the README of dn_flows, 1:
    let flow = flows.find_or_make(flow_key)?;
    flows.reserve_place(flow)?;
    // Up to here.
    let counts = flows.status(flow);
    if counts.lost > 100 || counts.full > 100 || counts.started > 100 {
        return Ok(None);
    }
    let (number, weight) = (7, Weight::new(1).unwrap());
    // In the README of dn_flows, 1:
    match flows.verdict(flow, packet, rule) {
        Verdict::Take => flows.push_reserved(
            flow,
            Waiting {
                packet: number,
                len: packet.len,
                weight,
            },
        ),
        Verdict::Lost => flows.note_lost(flow),
        Verdict::Full => flows.note_full(flow),
    }
    let next = flows.pop_front(flow);
    // Up to here.
    Ok(next)
}
