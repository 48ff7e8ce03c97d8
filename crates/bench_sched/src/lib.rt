//! A run of the scheduler over a plain C surface, for the benchmark beside its twin in plain Rust.
#![tactic(auto)]

use dn_types::{Len, Weight};
use dn_wf2q::Sched;
use std::alloc::{AllocError, Global};

/// The next number of a small generator, of which both sides take the same lengths.
fn next(seed: u64) -> u64 {
    seed.wrapping_mul(6364136223846793005)
        .wrapping_add(1442695040888963407)
}

/// A packet of 64 to 1,087 bytes arrives at a slot, whose weight is 1 to 64.
fn add(sched: &mut Sched, slot: usize, seed: u64) -> Result<(), AllocError> {
    let bytes = (seed >> 40 & 1023) as u16 + 64;
    let share = (slot % 64) as u8 + 1;
    sched.reserve_flow(slot)?;
    if let (Some(len), Some(weight)) = (Len::new(bytes), Weight::new(share)) {
        if sched.arrivals() < 1 << 62 {
            sched.arrive(slot, len, weight);
        }
    }
    Ok(())
}

/// The same, tried once more where the first growth was refused.
fn add_or_retry(
    sched: &mut Sched,
    slot: usize,
    seed: u64,
    refused: &mut u64,
) -> Result<(), AllocError> {
    if add(sched, slot, seed).is_ok() {
        return Ok(());
    }
    *refused = (*refused).wrapping_add(1);
    add(sched, slot, seed)
}

/// What a run came to: the order of the picks as a checksum, and the growths that were refused.
#[derive(Drop)]
struct Outcome {
    order: u64,
    refused: u64,
}

/// Fills so many flows with so many packets each, then picks and lets a packet of the same flow arrive, so many times.
fn run(
    sched: &mut Sched,
    flows: usize,
    depth: u64,
    steps: u64,
    outcome: &mut Outcome,
) -> Result<(), AllocError> {
    let mut seed = 1;
    for _ in 0..depth {
        for slot in 0..flows {
            seed = next(seed);
            add_or_retry(sched, slot, seed, &mut outcome.refused)?;
        }
    }
    for _ in 0..steps {
        if let Some(slot) = sched.pick() {
            seed = next(seed);
            outcome.order = outcome
                .order
                .wrapping_mul(31)
                .wrapping_add(slot as u64)
                .wrapping_add(1);
            add_or_retry(sched, slot, seed, &mut outcome.refused)?;
        }
    }
    Ok(())
}

/// Returns whether there was memory, at the second try at the latest.
///
/// It reports the order of the picks, virtual time modulo 2^64 and the growths that were refused.
#[unsafe(no_mangle)]
pub extern "C" fn bench_sched(
    alloc: Global,
    flows: usize,
    depth: u64,
    steps: u64,
    order: &mut u64,
    virtual_time: &mut u64,
    refused: &mut u64,
) -> bool {
    let mut sched = Sched::new(alloc);
    let mut outcome = Outcome {
        order: 0,
        refused: 0,
    };
    let ran = run(&mut sched, flows, depth, steps, &mut outcome).is_ok();
    *order = outcome.order;
    *virtual_time = (sched.virtual_time() % 18446744073709551616) as u64;
    *refused = outcome.refused;
    ran
}
