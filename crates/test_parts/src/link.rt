use crate::on_new::on_new;
use dn_link::{DelayLine, Link, tx_time};
use dn_types::{Bandwidth, Delay, Delivery, Len, Rule};
use std::alloc::{AllocError, Global};
use std::process::Abort;

fn delivery(due: u64, packet: u64) -> Delivery {
    Delivery {
        due,
        packet,
        flow: 0,
        start: 0,
    }
}

/// The delivery of packet 7 of flow 0, which starts at 0.
fn first_delivery(
    alloc: Global,
    len: Len,
    bandwidth: Bandwidth,
    delay: Delay,
) -> Result<Option<Delivery>, AllocError> {
    let (packet, flow, start) = (7, 0, 0);
    // In the README of dn_link, 1:
    let mut line = DelayLine::new(alloc);
    line.reserve(1)?;
    let mut link = Link::new();
    let tx = tx_time(len, bandwidth);
    link.begin(start, tx);
    let due = link.deliver(start, tx, delay, Rule::Ordered);
    line.push_reserved(Delivery {
        due,
        packet,
        flow,
        start,
    });
    let first = line.pop_due(due);
    // Up to here.
    Ok(first)
}

// 1,000 bytes at 8 Mbit/s take 1 ms, and the delay is 50 ms.
#[test]
fn a_packet_over_a_link(rt: HostRuntime) {
    let len = Len::new(1_000).unwrap();
    let bandwidth = Bandwidth::new(8_000_000).unwrap();
    let delay = Delay::new(50).unwrap();
    let mut first = first_delivery(rt.alloc(), len, bandwidth, delay);
    if first.is_err() {
        first = first_delivery(rt.alloc(), len, bandwidth, delay);
    }
    assert_eq!(rt; first, Ok(Some(delivery(51_000_000, 7))));
}

// Bytes, bit/s and nanoseconds, worked out by hand: bits divided by bit/s, rounded up.
static TIMES: [(u16, u64, u64); 6] = [
    (1_000, 300_000, 26_666_667),
    (1_000, 8_000_000, 1_000_000),
    (1_500, 1_000_000_000, 12_000),
    (1, 1_000_000_000_000, 1),
    (65_535, 1, 524_280_000_000_000),
    (65_535, 0, 0),
];

fn check_time(rt: &impl Abort, len: u16, bandwidth: u64, want: u64) {
    let time = Len::new(len)
        .zip(Bandwidth::new(bandwidth))
        .map(|(len, bandwidth)| tx_time(len, bandwidth));
    assert!(rt; time == Some(want), "{len} bytes at {bandwidth} bit/s");
}

#[test]
fn transmission_times(rt: HostRuntime) {
    for (len, bandwidth, want) in TIMES.iter() {
        check_time(&rt, *len, *bandwidth, *want);
    }
}

fn check_link(rt: &impl Abort, link: &Link, free: u64, last_due: u64) {
    assert!(rt; link.free() == free && link.last_due() == last_due);
}

fn check_order(rt: &impl Abort, rule: Rule, second: u64) {
    let mut link = Link::new();
    link.begin(0, 1_000_000);
    let first = link.deliver(0, 1_000_000, Delay::new(50).unwrap(), rule);
    check_link(rt, &link, 1_000_000, 51_000_000);
    link.begin(2_000_000, 1_000_000);
    let due = link.deliver(2_000_000, 1_000_000, Delay::new(0).unwrap(), rule);
    check_link(rt, &link, 3_000_000, second);
    assert!(rt; first == 51_000_000 && due == second);
}

// 1,000 bytes at 8 Mbit/s take 1 ms. The first packet starts at 0 with a delay of 50 ms, and the
// second at 2 ms without a delay.
#[test]
fn a_link_keeps_its_order(rt: HostRuntime) {
    check_order(&rt, Rule::Ordered, 51_000_000);
    check_order(&rt, Rule::Free, 3_000_000);
}

fn check_line(rt: &impl Abort, line: &DelayLine, len: usize, room: usize) {
    assert!(rt; line.len() == len && line.room() == room);
}

fn check_due(rt: &impl Abort, line: &mut DelayLine, moment: u64, want: Option<Delivery>) {
    assert!(rt; line.pop_due(moment) == want);
}

fn check_first_due(rt: &impl Abort, line: &DelayLine, want: Option<u64>) {
    assert!(rt; line.first_due() == want);
}

/// Pushes a packet if there is room.
fn push(line: &mut DelayLine, due: u64, packet: u64) {
    if line.room() > 0 && line.pushed() < 100 {
        line.push_reserved(delivery(due, packet));
    }
}

fn check_parts(rt: &impl Abort, line: &mut DelayLine) -> Result<(), AllocError> {
    line.reserve(2)?;
    push(line, 5, 1);
    push(line, 5, 0);
    assert!(rt; line.pushed() == 2);
    check_due(rt, line, 4, None);
    check_due(rt, line, 5, Some(delivery(5, 0)));
    check_due(rt, line, 5, Some(delivery(5, 1)));
    Ok(())
}

fn check_moments(rt: &impl Abort, line: &mut DelayLine) -> Result<(), AllocError> {
    line.reserve(3)?;
    check_first_due(rt, line, None);
    push(line, 7, 2);
    push(line, 5, 1);
    push(line, 5, 0);
    check_line(rt, line, 3, 0);
    check_first_due(rt, line, Some(5));
    check_due(rt, line, 4, None);
    check_due(rt, line, 5, Some(delivery(5, 0)));
    check_due(rt, line, 5, Some(delivery(5, 1)));
    check_due(rt, line, 5, None);
    check_first_due(rt, line, Some(7));
    check_due(rt, line, 7, Some(delivery(7, 2)));
    check_line(rt, line, 0, 3);
    assert!(rt; line.pushed() == 3);
    Ok(())
}

#[test]
fn a_delay_line(rt: HostRuntime) -> Result<(), AllocError> {
    on_new(DelayLine::new(rt.alloc()), |line| check_parts(&rt, line))?;
    on_new(DelayLine::new(rt.alloc()), |line| check_moments(&rt, line))
}

/// Reserves, twice more at most if memory was refused, which changed nothing.
fn reserved_again(rt: &impl Abort, line: &mut DelayLine, n: usize) -> Result<(), AllocError> {
    let (len, room) = (line.len(), line.room());
    for _ in 0..2u64 {
        if line.reserve(n).is_ok() {
            return Ok(());
        }
        check_line(rt, line, len, room);
    }
    line.reserve(n)
}

fn check_growth(rt: &impl Abort, line: &mut DelayLine) -> Result<(), AllocError> {
    reserved_again(rt, line, 1)?;
    push(line, 5, 0);
    reserved_again(rt, line, 2)?;
    // Room that is there takes no memory.
    assert!(rt; line.reserve(2).is_ok());
    check_line(rt, line, 1, 2);
    check_due(rt, line, 5, Some(delivery(5, 0)));
    check_line(rt, line, 0, 3);
    Ok(())
}

// With each growth refused in turn, or each two in a row, this test passes, since it asks again.
#[test]
fn a_refused_growth_changes_nothing(rt: HostRuntime) -> Result<(), AllocError> {
    on_new(DelayLine::new(rt.alloc()), |line| check_growth(&rt, line))
}
