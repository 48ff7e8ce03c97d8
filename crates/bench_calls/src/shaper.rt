//! Measures calls of sequential dummynet, and a Submit's parts.

use crate::load::{Load, delete};
use crate::lookups::measure_lookups;
use crate::parts::measure_parts;
use crate::run::{Run, apply, collect, configure, submit};
use dn_shaper::Shaper;
use std::io;
use std::time::Instant;

/// At 1,100 ns a packet the links carry nine tenths of what they can.
///
/// A packet of 1,000 bytes takes 1,000 ns on the pipe that all share, and 16,384 times as long on each of 16,384 links.
const LOADS: [Load; 5] = [
    Load {
        name: "one flow of a pipe",
        queues: 0,
        flows: 1,
        bandwidth: 8_000_000_000,
        delay: 0,
        interval: 1_100,
    },
    Load {
        name: "100 queues on a pipe",
        queues: 100,
        flows: 1,
        bandwidth: 8_000_000_000,
        delay: 0,
        interval: 1_100,
    },
    Load {
        name: "1,000 links",
        queues: 0,
        flows: 1_000,
        bandwidth: 8_000_000,
        delay: 0,
        interval: 1_100,
    },
    Load {
        name: "16,384 links",
        queues: 0,
        flows: 16_384,
        bandwidth: 488_282,
        delay: 0,
        interval: 1_100,
    },
    Load {
        name: "40,000 flows over 10 queues",
        queues: 10,
        flows: 4_000,
        bandwidth: 8_000_000_000,
        delay: 0,
        interval: 1_100,
    },
];

/// What is measured of a load.
#[derive(Clone, Copy)]
enum Measured {
    Rounds,
    Collects,
    Delete,
}

/// One packet under way for each Collect of 1,000.
const COLLECTS: Load = Load {
    name: "a Collect of one packet, 1,000 under way",
    queues: 0,
    flows: 1,
    bandwidth: 0,
    delay: 1,
    interval: 1_000,
};

/// Adds the time since the start, in ns.
fn add_time(rt: &HostRuntime, start: &Instant, nanos: &mut u128) -> io::Result<()> {
    let elapsed = start.elapsed(rt)?;
    *nanos = nanos.wrapping_add(elapsed.as_nanos());
    Ok(())
}

/// Submits 1,000 packets from the moment on, and adds the time that they took.
///
/// It returns the next seed.
fn submit_timed(
    rt: &HostRuntime,
    shaper: &mut Shaper,
    load: &Load,
    from: u64,
    seed: u64,
    run: &mut Run,
) -> io::Result<u64> {
    let start = Instant::now(rt)?;
    let seed = submit(shaper, load, 1_000, from, seed, run);
    add_time(rt, &start, &mut run.submitting)?;
    Ok(seed)
}

/// Collects what is due at the moment, and adds the time that it took.
fn collect_timed(
    rt: &HostRuntime,
    shaper: &mut Shaper,
    moment: u64,
    run: &mut Run,
) -> io::Result<()> {
    let start = Instant::now(rt)?;
    collect(shaper, moment, run);
    add_time(rt, &start, &mut run.collecting)
}

/// Tells what a run came to.
fn tell(rt: &HostRuntime, name: &str, rounds: u64, run: &Run) -> io::Result<()> {
    let queued = run.queued;
    let delivered = run.delivered;
    println!(rt; "{name}: {queued} queued, {delivered} delivered")?;
    let submitting = run.submitting;
    let collecting = run.collecting;
    eprintln!(rt;
        "{name}: {submitting} ns and {collecting} ns for the Collects of {rounds} rounds"
    )?;
    Ok(())
}

/// Submits packets in rounds of 1,000, each followed by a Collect, and tells what they came to.
fn measure_rounds(
    rt: &HostRuntime,
    shaper: &mut Shaper,
    load: &Load,
    rounds: u64,
) -> io::Result<()> {
    let mut run = Run::new();
    configure(shaper, load, &mut run);
    let mut seed = 1;
    let mut moment = 0u64;
    for _ in 0..rounds {
        seed = submit_timed(rt, shaper, load, moment, seed, &mut run)?;
        moment = moment.wrapping_add(load.interval.wrapping_mul(1_000));
        collect_timed(rt, shaper, moment, &mut run)?;
    }
    tell(rt, load.name, rounds, &run)
}

/// With 1,000 packets under way, 1,000 Collects from the moment on that give one packet each.
fn collect_each(
    rt: &HostRuntime,
    shaper: &mut Shaper,
    load: &Load,
    from: u64,
    run: &mut Run,
) -> io::Result<()> {
    for i in 0..1_000u64 {
        let moment = from.wrapping_add(i.wrapping_mul(1_000));
        submit(shaper, load, 1, moment, 1, run);
        collect_timed(rt, shaper, moment, run)?;
    }
    Ok(())
}

/// So many rounds of 1,000 Collects that give one packet of 1,000 under way, and what they came to.
fn measure_collects(
    rt: &HostRuntime,
    shaper: &mut Shaper,
    load: &Load,
    rounds: u64,
) -> io::Result<()> {
    let mut run = Run::new();
    configure(shaper, load, &mut run);
    submit(shaper, load, 1_000, 0, 1, &mut run);
    let mut from = 1_000_000u64;
    for _ in 0..rounds {
        collect_each(rt, shaper, load, from, &mut run)?;
        from = from.wrapping_add(1_000_000);
    }
    tell(rt, load.name, rounds, &run)
}

/// A delete where packets wait, four times as many as there are flows, and what it came to.
fn measure_delete(rt: &HostRuntime, shaper: &mut Shaper, load: &Load) -> io::Result<()> {
    let mut run = Run::new();
    configure(shaper, load, &mut run);
    let packets = u64::from(load.flows).wrapping_mul(4);
    submit(shaper, load, packets, 0, 1, &mut run);
    let start = Instant::now(rt)?;
    apply(shaper, delete(load), &mut run);
    add_time(rt, &start, &mut run.submitting)?;
    tell_delete(rt, load, &run)
}

/// Tells what a delete came to.
fn tell_delete(rt: &HostRuntime, load: &Load, run: &Run) -> io::Result<()> {
    let name = load.name;
    let flows = load.flows;
    let queued = run.queued;
    println!(rt; "a delete of {flows} {name}: {queued} queued")?;
    let nanos = run.submitting;
    eprintln!(rt; "a delete of {flows} {name}: {nanos} ns")?;
    Ok(())
}

/// Measures one thing of a load on a shaper that is made already.
fn measure_on(
    rt: &HostRuntime,
    shaper: &mut Shaper,
    measured: Measured,
    load: &Load,
    rounds: u64,
) -> io::Result<()> {
    match measured {
        Measured::Rounds => measure_rounds(rt, shaper, load, rounds),
        Measured::Collects => measure_collects(rt, shaper, load, rounds),
        Measured::Delete => measure_delete(rt, shaper, load),
    }
}

/// Measures one thing of a load on a shaper of its own.
fn measure(rt: &HostRuntime, measured: Measured, load: &Load, rounds: u64) -> io::Result<()> {
    let mut shaper = Shaper::new(rt.alloc());
    let told = measure_on(rt, &mut shaper, measured, load, rounds);
    // The proof of a drop by a call has one step, where that of a drop at the end has one for each field.
    drop(shaper);
    told
}

/// A load whose delete reaches so many flows, most with waiting packets.
///
/// It deletes a pipe, each of whose flows has a link of its own, or the one queue of a pipe, whose flows share a link.
fn deleted(name: &'static str, queues: u32, flows: u32) -> Load {
    Load {
        name,
        queues,
        flows,
        bandwidth: 1_000,
        delay: 0,
        interval: 0,
    }
}

/// The parts of a Submit that are measured by themselves follow the loads.
const PARTS: usize = LOADS.len();

/// The look-ups of flows follow the parts.
const LOOKUPS: usize = LOADS.len() + 1;

/// Measures the two deletes of so many flows, in one round each.
fn measure_deletes(rt: &HostRuntime, flows: u32) -> io::Result<()> {
    measure(rt, Measured::Delete, &deleted("links", 0, flows), 1)?;
    measure(
        rt,
        Measured::Delete,
        &deleted("flows of one link", 1, flows),
        1,
    )
}

/// Measures each load, the Collects of one packet, the deletes, the parts, and the look-ups.
fn measure_all(rt: &HostRuntime, rounds: u64) -> io::Result<()> {
    for load in &LOADS {
        measure(rt, Measured::Rounds, load, rounds)?;
    }
    measure(rt, Measured::Collects, &COLLECTS, rounds)?;
    for flows in [1_000u32, 4_000, 16_384] {
        measure_deletes(rt, flows)?;
    }
    measure_parts(rt, rounds.saturating_mul(1_000))?;
    measure_lookups(rt, rounds.saturating_mul(1_000))
}

/// Measures the load, the parts or the look-ups at a place, or all of them and more if there is no place.
pub fn measure_shaper(rt: &HostRuntime, rounds: u64, load: Option<usize>) -> io::Result<()> {
    match load {
        Some(PARTS) => measure_parts(rt, rounds.saturating_mul(1_000)),
        Some(LOOKUPS) => measure_lookups(rt, rounds.saturating_mul(1_000)),
        Some(load) => match LOADS.get(load) {
            Some(load) => measure(rt, Measured::Rounds, load, rounds),
            None => Ok(()),
        },
        None => measure_all(rt, rounds),
    }
}
