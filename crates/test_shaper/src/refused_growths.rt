//! Worked examples whose calls are made again if memory is refused.
//!
//! With any one growth refused (`rt try --test --fail-alloc N`) each of them passes: the refused call has changed nothing.

use crate::destination::pipe;
use crate::flow::{Flow, status};
use crate::key::{last_byte_key, pipe_key, queue_key};
use crate::sent::to_host;
use crate::shown_step::{ShownStep, shown};
use crate::step::{collect, config, line, submit, to_pipe, to_queue};
use crate::trial::holds_when_refused;
use crate::wanted::{Wanted, delivery, lost, queued};
use std::test::Fail;

// The flow of queue 1.
fn first(waiting: (u64, u64), started: u64) -> Flow {
    status(0, queue_key(1, 1), waiting, started, 0)
}

// The flow of queue 2.
fn second(waiting: (u64, u64), started: u64, discarded: u64) -> Flow {
    status(1, queue_key(2, 1), waiting, started, discarded)
}

// A configuration line that is taken, and the flows after it.
fn configured<'a>(text: &'a str, flows: &'a [Flow]) -> ShownStep<'a> {
    shown(config(text), flows)
}

// A packet that queue 1 takes at 0, and the flows after it.
fn to_first(packet: u64, flows: &[Flow]) -> ShownStep<'_> {
    shown(to_queue(1, 0, queued(0, 0, packet)), flows)
}

// A packet that queue 2 takes at 0, and the flows after it.
fn to_second(packet: u64, flows: &[Flow]) -> ShownStep<'_> {
    shown(to_queue(2, 0, queued(0, 1, packet)), flows)
}

#[test]
fn shares_by_weight(rt: HostRuntime) -> Result<(), Fail> {
    let a = first((1, 1_000), 1);
    let given = [
        delivery(0, 0, 0, 1_000_000),
        delivery(2, 1, 1_000_000, 2_000_000),
        delivery(1, 0, 2_000_000, 3_000_000),
        delivery(3, 1, 3_000_000, 4_000_000),
        delivery(4, 1, 4_000_000, 5_000_000),
    ];
    holds_when_refused(
        &rt,
        &[
            configured("pipe 1 config bw 8Mbit/s", &[]),
            configured("queue 1 config pipe 1 weight 1", &[]),
            configured("queue 2 config pipe 1 weight 3", &[]),
            to_first(0, &[first((0, 0), 1)]),
            to_first(1, &[a]),
            to_second(2, &[a, second((1, 1_000), 0, 0)]),
            to_second(3, &[a, second((2, 2_000), 0, 0)]),
            to_second(4, &[a, second((3, 3_000), 0, 0)]),
            shown(
                collect(10_000_000, &given),
                &[first((0, 0), 2), second((0, 0), 3, 0)],
            ),
        ],
    )
}

#[test]
fn a_link_keeps_its_order(rt: HostRuntime) -> Result<(), Fail> {
    let one = [status(0, pipe_key(1), (0, 0), 1, 0)];
    let two = [status(0, pipe_key(1), (0, 0), 2, 0)];
    let late = 2_000_000;
    let due = 51_000_000;
    let both = [delivery(0, 0, 0, due), delivery(1, 0, late, due)];
    holds_when_refused(
        &rt,
        &[
            configured("pipe 1 config bw 8Mbit/s delay 50", &[]),
            shown(to_pipe(1, 0, queued(0, 0, 0)), &one),
            configured("pipe 1 config bw 8Mbit/s", &one),
            shown(to_pipe(1, late, queued(late, 0, 1)), &two),
            shown(collect(3_000_000, &[]), &two),
            shown(collect(51_000_000, &both), &two),
            shown(collect(60_000_000, &[]), &two),
        ],
    )
}

// The flow of pipe 1 to addresses with this last byte, of which no packet waits.
fn masked(flow: usize, last_byte: u32, started: u64) -> Flow {
    status(flow, last_byte_key(last_byte), (0, 0), started, 0)
}

// A packet of pipe 1 to an address, and the flows after it.
fn to_address<'a>(dst: u32, at: u64, wanted: Wanted<'a>, flows: &'a [Flow]) -> ShownStep<'a> {
    shown(submit(pipe(1), to_host(dst), at, wanted), flows)
}

#[test]
fn flows_by_mask(rt: HostRuntime) -> Result<(), Fail> {
    let by_last_byte = "pipe 1 config bw 8Mbit/s mask dst-ip 0x000000ff";
    let losing = "pipe 1 config bw 8Mbit/s mask dst-ip 0x000000ff plr 1";
    let waiting = status(0, last_byte_key(1), (1, 1_000), 1, 0);
    let (a, b, d) = (masked(0, 1, 2), masked(1, 2, 1), masked(3, 4, 1));
    let lost_one = Flow {
        lost: 1,
        ..masked(2, 3, 0)
    };
    let c = Flow {
        started: 1,
        ..lost_one
    };
    let given = [
        delivery(0, 0, 0, 1_000_000),
        delivery(2, 1, 0, 1_000_000),
        delivery(1, 0, 1_000_000, 2_000_000),
    ];
    let at = 2_000_000;
    holds_when_refused(
        &rt,
        &[
            configured(by_last_byte, &[]),
            to_address(0x0a00_0001, 0, queued(0, 0, 0), &[masked(0, 1, 1)]),
            to_address(0x0a01_0001, 0, queued(0, 0, 1), &[waiting]),
            to_address(0x0a00_0002, 0, queued(0, 1, 2), &[waiting, b]),
            shown(collect(at, &given), &[a, b]),
            configured(losing, &[a, b]),
            to_address(0x0a00_0003, at, lost(at, 2), &[a, b, lost_one]),
            configured(by_last_byte, &[a, b, lost_one]),
            to_address(0x0a00_0004, at, queued(at, 3, 3), &[a, b, lost_one, d]),
            to_address(0x0a00_0003, at, queued(at, 2, 4), &[a, b, c, d]),
        ],
    )
}

#[test]
fn a_deleted_queue(rt: HostRuntime) -> Result<(), Fail> {
    let a = first((1, 1_000), 1);
    let b = second((2, 2_000), 0, 0);
    let discarded = second((0, 0), 0, 2);
    let again = second((1, 1_000), 0, 2);
    let longer = first((2, 2_000), 1);
    let given = [
        delivery(0, 0, 0, 1_000_000),
        delivery(1, 0, 1_000_000, 2_000_000),
        delivery(4, 1, 2_000_000, 3_000_000),
        delivery(5, 0, 3_000_000, 4_000_000),
    ];
    holds_when_refused(
        &rt,
        &[
            configured("pipe 1 config bw 8Mbit/s", &[]),
            configured("queue 1 config pipe 1", &[]),
            configured("queue 2 config pipe 1", &[]),
            to_first(0, &[first((0, 0), 1)]),
            to_first(1, &[a]),
            to_second(2, &[a, second((1, 1_000), 0, 0)]),
            to_second(3, &[a, b]),
            shown(line("pipe 1 delete", Wanted::PipeHasQueues), &[a, b]),
            shown(line("queue 2 delete", Wanted::Deleted), &[a, discarded]),
            shown(to_queue(2, 0, Wanted::NoTarget { at: 0 }), &[a, discarded]),
            configured("queue 2 config pipe 1", &[a, discarded]),
            to_second(4, &[a, again]),
            to_first(5, &[longer, again]),
            shown(
                collect(4_000_000, &given),
                &[first((0, 0), 3), second((0, 0), 1, 2)],
            ),
        ],
    )
}
