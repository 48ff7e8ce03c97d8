//! Two callers on one thread.
ghost use Rattle.dn_service.specs.Callers.{IsSameCaller};

use crate::calls::{advance, collect, history_of, made, packet, pipe};
use crate::replies::{check_delivered, check_queued};
use dn_service::{Caller, HashKey, OpenFault, Service};
use dn_types::{Delivery, Entry, Reply};
use std::alloc::Global;
use std::process::Abort;
use std::test::Fail;

fn take_turns<R: Abort>(rt: &R, zero: &mut Caller, one: &mut Caller)
    ensures zero { IsSameCaller zero.old zero.new }
    ensures one { IsSameCaller one.old one.new }
{
    for i in 0..1000u64 {
        let even = made(rt, zero, advance(2 * i));
        assert!(rt; matches!(even, Reply::Advanced { at } if at == 2 * i));
        let odd = made(rt, one, advance(2 * i + 1));
        assert!(rt; matches!(odd, Reply::Advanced { at } if at == 2 * i + 1));
    }
}

fn count_of(entries: &[Entry], caller: usize) -> usize {
    entries.iter().filter(|e| e.caller == caller).count()
}

/// Each of the two callers has made 1,000 calls.
fn check_turns<R: Abort>(rt: &R, history: &[Entry]) {
    assert!(rt; history.len() == 2000);
    assert!(rt; count_of(history, 1) == 1000);
}

#[test]
fn tries_of_two_callers_by_turns(rt: HostRuntime) -> Result<(), Fail> {
    let (service, mut callers) = Service::open_with_key(rt.alloc(), 2, HashKey(7))?;
    let (zero, one) = callers.split_at_mut(1);
    take_turns(&rt, &mut zero[0], &mut one[0]);
    let history = history_of(service, callers)?;
    check_turns(&rt, history.as_slice());
    Ok(())
}

/// A service can't have so many callers.
fn check_bad_count<R: Abort>(rt: &R, alloc: Global, n: usize) {
    assert!(rt; matches!(Service::open(alloc, n), Err(OpenFault::BadCount)));
}

/// The callers are numbered from 0 to 15.
fn check_numbers<R: Abort>(rt: &R, callers: &[Caller]) {
    let numbers = callers.iter().map(|c| c.number());
    assert!(rt; numbers.eq(0..16));
}

#[test]
fn a_service_has_one_to_sixteen_callers(rt: HostRuntime) -> Result<(), Fail> {
    check_bad_count(&rt, rt.alloc(), 0);
    check_bad_count(&rt, rt.alloc(), 17);
    let (service, callers) = Service::open(rt.alloc(), 16)?;
    check_numbers(&rt, callers.as_slice());
    let history = history_of(service, callers)?;
    assert!(rt; history.is_empty());
    Ok(())
}

/// One caller moves the clock on, and another one's earlier calls act at that moment.
fn act_late<R: Abort>(rt: &R, zero: &mut Caller, one: &mut Caller) {
    let _ = made(rt, zero, pipe(8_000_000));
    let _ = made(rt, zero, advance(9_000_000));
    let late = made(rt, one, packet(5_000_000));
    check_queued(rt, &late, 9_000_000);
    let none = made(rt, one, collect(0));
    check_delivered(rt, &none, 9_000_000, &[]);
    let first = Delivery {
        due: 10_000_000,
        packet: 0,
        flow: 0,
        start: 9_000_000,
    };
    let due = made(rt, one, collect(10_000_000));
    check_delivered(rt, &due, 10_000_000, &[first]);
}

#[test]
fn the_clock_never_goes_back(rt: HostRuntime) -> Result<(), Fail> {
    let (_service, mut callers) = Service::open(rt.alloc(), 2)?;
    let (zero, one) = callers.split_at_mut(1);
    act_late(&rt, &mut zero[0], &mut one[0]);
    Ok(())
}
