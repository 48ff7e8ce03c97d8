//! Room for a packet that is made before the packet comes, after which its Submit can't be refused memory.

use crate::destination::{Destination, pipe, queue};
use crate::example::{answers_step, is_wanted};
use crate::sent::{Sent, sized, to_host};
use crate::step::{Step, advance, collect, config, submit, to_pipe, to_queue};
use crate::wanted::{Wanted, delivery, queued};
use dn_shaper::Shaper;
use std::alloc::Global;
use std::io::Print;
use std::process::Abort;
use std::test::Fail;

// Whether there is room for a packet. If memory is refused, it is asked for twice more.
fn has_room_for(
    rt: &impl Print,
    shaper: &mut Shaper,
    destination: Destination,
    sent: Sent,
) -> Result<bool, Fail> {
    let target = destination.target()?;
    let packet = sent.packet()?;
    for _ in 0..2u64 {
        if let Ok(there) = shaper.reserve(target, &packet) {
            return Ok(there);
        }
        println!(rt; "a growth was refused")?;
    }
    Ok(shaper.reserve(target, &packet)?)
}

// Whether there is room for a packet of 1,000 bytes.
fn has_room(rt: &impl Print, shaper: &mut Shaper, destination: Destination) -> Result<bool, Fail> {
    has_room_for(rt, shaper, destination, sized(1_000))
}

// A call that finds its room is made once, whatever memory is refused.
fn answers_at_once(
    rt: &impl Abort,
    alloc: Global,
    shaper: &mut Shaper,
    place: usize,
    step: &Step<'_>,
) -> Result<(), Fail> {
    let reply = shaper.apply(&step.asked.call()?)?;
    is_wanted(rt, alloc, place, &reply, step)
}

// Before each step, whether there is room for a packet to the destination.
fn check(
    rt: &(impl Abort + Print),
    alloc: Global,
    shaper: &mut Shaper,
    destination: Destination,
    steps: &[(bool, Step<'_>)],
) -> Result<(), Fail> {
    for (place, (there, step)) in steps.iter().enumerate() {
        assert!(rt; has_room(rt, shaper, destination)? == *there);
        if *there {
            answers_at_once(rt, alloc, shaper, place, step)?;
        } else {
            answers_step(rt, alloc, shaper, place, step)?;
        }
    }
    Ok(())
}

// Steps that are made without a question for room.
fn answers(
    rt: &(impl Abort + Print),
    alloc: Global,
    shaper: &mut Shaper,
    steps: &[Step<'_>],
) -> Result<(), Fail> {
    for (place, step) in steps.iter().enumerate() {
        answers_step(rt, alloc, shaper, place, step)?;
    }
    Ok(())
}

// A packet of 1,000 bytes takes 1 ms. The first one makes the flow, and the others find their room.
fn check_pipe(rt: &(impl Abort + Print), alloc: Global, shaper: &mut Shaper) -> Result<(), Fail> {
    answers(
        rt,
        alloc,
        shaper,
        &[config("pipe 1 config bw 8Mbit/s delay 50ms")],
    )?;
    let steps = [
        (false, to_pipe(1, 0, queued(0, 0, 0))),
        (true, to_pipe(1, 0, queued(0, 0, 1))),
        (true, advance(1_000_000)),
        (true, to_pipe(1, 1_000_000, queued(1_000_000, 0, 2))),
    ];
    check(rt, alloc, shaper, pipe(1), &steps)?;
    let all = [
        delivery(0, 0, 0, 51_000_000),
        delivery(1, 0, 1_000_000, 52_000_000),
        delivery(2, 0, 2_000_000, 53_000_000),
    ];
    answers(rt, alloc, shaper, &[collect(53_000_000, &all)])
}

// The same of a queue, whose packets wait at a slot of the shared link.
fn check_queue(rt: &(impl Abort + Print), alloc: Global, shaper: &mut Shaper) -> Result<(), Fail> {
    let settings = [
        config("pipe 1 config bw 8Mbit/s"),
        config("queue 1 config pipe 1 weight 5"),
    ];
    answers(rt, alloc, shaper, &settings)?;
    let steps = [
        (false, to_queue(1, 0, queued(0, 0, 0))),
        (true, to_queue(1, 0, queued(0, 0, 1))),
        (true, advance(1_000_000)),
        (true, to_queue(1, 1_000_000, queued(1_000_000, 0, 2))),
    ];
    check(rt, alloc, shaper, queue(1), &steps)?;
    let all = [
        delivery(0, 0, 0, 1_000_000),
        delivery(1, 0, 1_000_000, 2_000_000),
        delivery(2, 0, 2_000_000, 3_000_000),
    ];
    answers(rt, alloc, shaper, &[collect(3_000_000, &all)])
}

#[test]
fn room_for_a_packet_to_a_pipe(rt: HostRuntime) -> Result<(), Fail> {
    let mut shaper = Shaper::new(rt.alloc());
    let held = check_pipe(&rt, rt.alloc(), &mut shaper);
    // The proof of a drop by a call has one step, where that of a drop at the end has one for each field.
    drop(shaper);
    held
}

#[test]
fn room_for_a_packet_to_a_queue(rt: HostRuntime) -> Result<(), Fail> {
    let mut shaper = Shaper::new(rt.alloc());
    let held = check_queue(&rt, rt.alloc(), &mut shaper);
    drop(shaper);
    held
}

// A packet to a target that isn't configured needs no room.
#[test]
fn room_for_a_packet_without_a_target(rt: HostRuntime) -> Result<(), Fail> {
    let mut shaper = Shaper::new(rt.alloc());
    let steps = [(true, to_pipe(3, 0, Wanted::NoTarget { at: 0 }))];
    let held = check(&rt, rt.alloc(), &mut shaper, pipe(3), &steps);
    drop(shaper);
    held
}

// The flows of a pipe, each with a link of its own, and then those of a queue, which share one. A flow has its own address.
const FLOWS: u32 = 40;

fn destination_of(flow: u32) -> Destination {
    if flow < 20 { pipe(1) } else { queue(1) }
}

fn sent_by(flow: u32) -> Sent {
    to_host(0x0a00_0100 | flow)
}

// A packet of the flow at 0.
fn packet_of<'a>(flow: u32, packet: u64) -> Step<'a> {
    let wanted = queued(0, flow as usize, packet);
    submit(destination_of(flow), sent_by(flow), 0, wanted)
}

// The first packet of each flow, which makes it.
fn make_flows(rt: &(impl Abort + Print), alloc: Global, shaper: &mut Shaper) -> Result<(), Fail> {
    for flow in 0..FLOWS {
        answers_step(rt, alloc, shaper, 0, &packet_of(flow, u64::from(flow)))?;
    }
    Ok(())
}

// Room for the next packet of each flow.
fn reserve_flows(rt: &(impl Abort + Print), shaper: &mut Shaper) -> Result<(), Fail> {
    for flow in 0..FLOWS {
        assert!(rt; has_room_for(rt, shaper, destination_of(flow), sent_by(flow))?);
    }
    Ok(())
}

// The next packet of each flow. Each finds the room that was made before the first of them came.
fn submit_to_flows(rt: &impl Abort, alloc: Global, shaper: &mut Shaper) -> Result<(), Fail> {
    for flow in 0..FLOWS {
        let packet = u64::from(flow) + u64::from(FLOWS);
        answers_at_once(rt, alloc, shaper, 0, &packet_of(flow, packet))?;
    }
    Ok(())
}

fn check_flows(rt: &(impl Abort + Print), alloc: Global, shaper: &mut Shaper) -> Result<(), Fail> {
    let settings = [
        config("pipe 1 config bw 8Mbit/s mask dst-ip 0xff"),
        config("pipe 2 config bw 8Mbit/s"),
        config("queue 1 config pipe 2 mask dst-ip 0xff"),
    ];
    answers(rt, alloc, shaper, &settings)?;
    make_flows(rt, alloc, shaper)?;
    reserve_flows(rt, shaper)?;
    submit_to_flows(rt, alloc, shaper)
}

#[test]
fn room_for_packets_of_many_flows(rt: HostRuntime) -> Result<(), Fail> {
    let mut shaper = Shaper::new(rt.alloc());
    let held = check_flows(&rt, rt.alloc(), &mut shaper);
    drop(shaper);
    held
}
