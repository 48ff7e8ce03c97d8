use crate::load::next;
use dn_heap::RunHeap;
use dn_link::DelayLine;
use dn_types::Delivery;
use std::io;
use std::time::Instant;

/// Puts a key of the size of a link's into the heap.
fn put(heap: &mut RunHeap<u128>, key: u128) {
    if heap.reserve(1).is_ok() && heap.moves() < 1 << 62 {
        heap.push_reserved(key);
    }
}

/// So many keys from the seed on.
fn fill(heap: &mut RunHeap<u128>, keys: u64) {
    let mut seed = 1;
    for _ in 0..keys {
        seed = next(seed);
        put(heap, u128::from(seed >> 20));
    }
}

/// Takes the least key out and puts a later one in, so many times, as a settling does.
///
/// It returns how many were taken out.
fn turn(heap: &mut RunHeap<u128>, times: u64) -> u64 {
    let mut taken = 0u64;
    let mut seed = 1;
    for _ in 0..times {
        if let Some(least) = heap.pop() {
            taken = taken.wrapping_add(1);
            seed = next(seed);
            put(heap, least.wrapping_add(u128::from(seed >> 20)));
        }
    }
    taken
}

/// Puts a packet under way.
fn send(line: &mut DelayLine, packet: u64, due: u64) {
    if line.reserve(1).is_ok() && line.pushed() < 1 << 61 {
        line.push_reserved(Delivery {
            due,
            packet,
            flow: 0,
            start: 0,
        });
    }
}

/// So many packets under way, each due 1,000 ns after the one before.
fn begin(line: &mut DelayLine, packets: u64) {
    for packet in 0..packets {
        send(line, packet, packet.wrapping_mul(1_000));
    }
}

/// Takes the first packet out where it is due, and puts a further one under way, so many times.
///
/// It returns how many were taken out.
fn pass(line: &mut DelayLine, under_way: u64, times: u64) -> u64 {
    let mut given = 0u64;
    for i in 0..times {
        if line.pop_due(i.wrapping_mul(1_000)).is_some() {
            given = given.wrapping_add(1);
        }
        let packet = under_way.wrapping_add(i);
        send(line, packet, packet.wrapping_mul(1_000));
    }
    given
}

/// Tells the count, and the time since the start for each.
fn tell(rt: &HostRuntime, name: &str, size: u64, count: u64, start: &Instant) -> io::Result<()> {
    let nanos = start.elapsed(rt)?.as_nanos();
    println!(rt; "{name} of {size}: {count}")?;
    eprintln!(rt; "{name} of {size}: {nanos} ns for {count}")?;
    Ok(())
}

fn measure_heap(rt: &HostRuntime, keys: u64, times: u64) -> io::Result<()> {
    let mut heap = RunHeap::new(rt.alloc());
    fill(&mut heap, keys);
    let start = Instant::now(rt)?;
    let taken = turn(&mut heap, times);
    tell(rt, "heap", keys, taken, &start)
}

fn measure_line(rt: &HostRuntime, packets: u64, times: u64) -> io::Result<()> {
    let mut line = DelayLine::new(rt.alloc());
    begin(&mut line, packets);
    let start = Instant::now(rt)?;
    let given = pass(&mut line, packets, times);
    tell(rt, "delay line", packets, given, &start)
}

/// Measures each of the two parts so many times, with 1, 1,000 and 16,384 keys or packets in it.
pub fn measure_parts(rt: &HostRuntime, times: u64) -> io::Result<()> {
    for size in [1u64, 1_000, 16_384] {
        measure_heap(rt, size, times)?;
    }
    for size in [1u64, 1_000, 16_384] {
        measure_line(rt, size, times)?;
    }
    Ok(())
}
