ghost use Rattle.std.specs.Prelude.{◌≡◌};
ghost use Rattle.dn_service.specs.Callers.{IsSameCaller};

use crate::kind::{Kind, before, count_before, measured};
use dn_service::{Caller, Service, Taker};
use dn_shaper::Shaper;
use std::alloc::Global;
use std::sync::Wait;
use std::thread::Threads;
use std::time::{Clock, Instant};
use std::{io, thread};

/// Entries are taken out behind so many calls.
const SEGMENT: u64 = 10_000;

/// Makes the calls before those that are measured.
fn prepare_alone(shaper: &mut Shaper, kind: Kind) {
    for place in 0..count_before(kind) {
        if let Some(call) = before(kind, place) {
            let _ = shaper.apply(&call);
        }
    }
}

/// Makes the calls before those that are measured, by the first caller.
fn prepare<R: Wait>(rt: &R, caller: &mut Caller, kind: Kind)
    ensures { IsSameCaller caller.old caller.new }
{
    for place in 0..count_before(kind) {
        if let Some(call) = before(kind, place) {
            let _ = caller.call(rt, call);
        }
    }
}

/// How many of so many calls the shaper answers, with no service round it.
fn answered_alone(shaper: &mut Shaper, kind: Kind, calls: u64) -> u64 {
    let mut answered = 0u64;
    for moment in 0..calls {
        if let Some(call) = measured(kind, moment) {
            if shaper.apply(&call).is_ok() {
                answered = answered.wrapping_add(1);
            }
        }
    }
    answered
}

/// How many of so many calls the caller gets an answer to.
fn answered_to<R: Wait>(rt: &R, mut caller: Caller, kind: Kind, calls: u64) -> u64 {
    let mut answered = 0u64;
    for moment in 0..calls {
        if let Some(call) = measured(kind, moment) {
            if caller.call(rt, call).is_ok() {
                answered = answered.wrapping_add(1);
            }
        }
    }
    answered
}

/// The same, and the entries are taken out behind each `SEGMENT` calls.
fn answered_and_taken<R: Wait>(
    rt: &R,
    alloc: Global,
    taker: &mut Taker,
    kind: Kind,
    calls: u64,
) -> u64 {
    let mut answered = 0u64;
    let mut list = Vec::new(alloc);
    for moment in 0..calls {
        if let Some(call) = measured(kind, moment) {
            if taker.call(rt, call).is_ok() {
                answered = answered.wrapping_add(1);
            }
        }
        if moment % SEGMENT == SEGMENT - 1 {
            list.clear();
            let _ = taker.take_into(rt, &mut list);
        }
    }
    answered
}

/// How many calls were answered, and in what time.
#[derive(Clone, Copy)]
struct Tally {
    answered: u64,
    nanos: u128,
}

/// So many calls on a shaper alone.
fn measure_alone<R: Clock + AllocGlobal>(rt: &R, kind: Kind, calls: u64) -> io::Result<Tally> {
    // In a box, so that the proof of each exit drops a pointer and not each field.
    let mut shaper = Box::new(rt.alloc(), Shaper::new(rt.alloc()))?;
    prepare_alone(&mut shaper, kind);
    let start = Instant::now(rt)?;
    let answered = answered_alone(&mut shaper, kind, calls);
    let nanos = start.elapsed(rt)?.as_nanos();
    Ok(Tally { answered, nanos })
}

/// So many calls in all on a service, by so many callers.
fn measure<R: Wait + Threads + Sync + Clock>(
    rt: &R,
    alloc: Global,
    callers: usize,
    kind: Kind,
    calls: u64,
) -> io::Result<Tally> {
    let mut answered = 0u64;
    let Ok((_service, mut opened)) = Service::open(alloc, callers) else {
        return Ok(Tally { answered, nanos: 0 });
    };
    if let Some(first) = opened.first_mut() {
        prepare(rt, first, kind);
    }
    let each = calls.checked_div(callers as u64).unwrap_or(0);
    let start = Instant::now(rt)?;
    let counts = thread::map_vec(rt, opened, &|caller| answered_to(rt, caller, kind, each))?;
    let nanos = start.elapsed(rt)?.as_nanos();
    for count in counts {
        answered = answered.wrapping_add(count);
    }
    Ok(Tally { answered, nanos })
}

/// So many calls on a service that lasts, by one caller that takes the entries out.
fn measure_taking<R: Wait + Clock>(
    rt: &R,
    alloc: Global,
    kind: Kind,
    calls: u64,
) -> io::Result<Tally> {
    let mut answered = 0u64;
    let Ok((service, mut opened)) = Service::open(alloc, 1) else {
        return Ok(Tally { answered, nanos: 0 });
    };
    let lasting = service.lasting();
    let Some(mut caller) = opened.pop() else {
        return Ok(Tally { answered, nanos: 0 });
    };
    prepare(rt, &mut caller, kind);
    let mut taker = Taker::new(lasting, caller);
    let start = Instant::now(rt)?;
    answered = answered_and_taken(rt, alloc, &mut taker, kind, calls);
    let nanos = start.elapsed(rt)?.as_nanos();
    Ok(Tally { answered, nanos })
}

/// Measures so many calls of each kind, and tells what was answered and in what time.
pub fn measure_callers<R: Wait + Threads + Clock + Sync + AllocGlobal + Print + Eprint>(
    rt: &R,
    calls: u64,
) -> io::Result<()> {
    for kind in [Kind::Moves, Kind::Packets, Kind::Collects] {
        measure_kind(rt, kind, calls)?;
    }
    Ok(())
}

fn measure_kind<R: Wait + Threads + Clock + Sync + AllocGlobal + Print + Eprint>(
    rt: &R,
    kind: Kind,
    calls: u64,
) -> io::Result<()> {
    let name = kind.name();
    let Tally { answered, nanos } = measure_alone(rt, kind, calls)?;
    println!(rt; "no service: {answered} {name}")?;
    eprintln!(rt; "no service: {nanos} ns for {answered} {name}")?;
    let Tally { answered, nanos } = measure_taking(rt, rt.alloc(), kind, calls)?;
    println!(rt; "1 caller that takes: {answered} {name}")?;
    eprintln!(rt; "1 caller that takes: {nanos} ns for {answered} {name}")?;
    for callers in [1usize, 2, 4, 8, 16] {
        let Tally { answered, nanos } = measure(rt, rt.alloc(), callers, kind, calls)?;
        println!(rt; "{callers} callers: {answered} {name}")?;
        eprintln!(rt; "{callers} callers: {nanos} ns for {answered} {name}")?;
    }
    Ok(())
}
