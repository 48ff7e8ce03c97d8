use crate::load::{MASK, next};
use dn_flows::Flows;
use dn_types::{FiveTuple, FlowKey, Number, Target};
use std::io;
use std::time::Instant;

/// The key of a flow of the pipe, by its destination.
fn key(pipe: Number, dst: u32) -> FlowKey {
    FlowKey {
        target: Target::Pipe(pipe),
        pipe,
        mask: MASK,
        tuple: FiveTuple {
            src: 0,
            dst,
            proto: 0,
            sport: 0,
            dport: 0,
        },
    }
}

/// Makes so many flows.
fn fill(table: &mut Flows, pipe: Number, flows: u32) {
    for dst in 0..flows {
        let _ = table.find_or_make(key(pipe, dst));
    }
}

/// Looks up one of so many flows, so many times, in no order that a cache foresees.
///
/// It returns how many were found.
fn look_up(table: &mut Flows, pipe: Number, flows: u32, times: u64) -> u64 {
    let mut found = 0u64;
    let mut seed = 1;
    for _ in 0..times {
        seed = next(seed);
        let dst = (seed >> 20 & 0xffff_ffff) as u32 % flows.max(1);
        if table.find_or_make(key(pipe, dst)).is_ok() {
            found = found.wrapping_add(1);
        }
    }
    found
}

fn measure_table(rt: &HostRuntime, pipe: Number, flows: u32, times: u64) -> io::Result<()> {
    // In a box, so that the proof of each exit drops a pointer and not each field.
    let mut table = Box::new(rt.alloc(), Flows::new(rt.alloc()))?;
    fill(&mut table, pipe, flows);
    let start = Instant::now(rt)?;
    let found = look_up(&mut table, pipe, flows, times);
    let nanos = start.elapsed(rt)?.as_nanos();
    println!(rt; "look-ups among {flows} flows: {found}")?;
    eprintln!(rt; "look-ups among {flows} flows: {nanos} ns for {found}")?;
    Ok(())
}

/// Measures so many look-ups of a flow among 100 and among 65,536.
pub fn measure_lookups(rt: &HostRuntime, times: u64) -> io::Result<()> {
    let Some(pipe) = Number::new(1) else {
        return Ok(());
    };
    measure_table(rt, pipe, 100, times)?;
    measure_table(rt, pipe, 65_536, times)
}
