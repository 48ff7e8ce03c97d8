//! One caller: the four entries of its history.
ghost use Rattle.std.specs.Prelude.{◌≡◌, All, length};
ghost use Rattle.dn_service.specs.Callers.{IsOf, IsSameCaller};

use crate::calls::{collect, history_of, packet, pipe};
use crate::replies::{check_delivered, check_queued};
use dn_service::{Caller, OpenFault, Service, TryFault};
use dn_types::{Call, Delivery, Entry, Reply};
use std::alloc::Global;
use std::process::Abort;
use std::sync::Wait;
use std::test::Fail;
use test_devices::one_started;

/// The four calls of the one caller.
fn four_calls() -> Option<[Call; 4]> {
    Some([
        pipe(8_000_000)?,
        packet(0)?,
        collect(1_000_000)?,
        Call::Show,
    ])
}

/// The history of one caller that configures the pipe, submits a packet, collects it and asks for the flows.
fn check_four<R: Abort>(rt: &R, history: &[Entry]) {
    let calls = four_calls().expect(rt, "calls in range");
    assert!(rt; history.iter().all(|entry| entry.caller == 0));
    assert!(rt; history.iter().map(|entry| entry.call).eq(calls));
    check_four_replies(rt, history);
}

/// The replies of that history.
fn check_four_replies<R: Abort>(rt: &R, history: &[Entry]) {
    let [configured, queued, delivered, status] = history else {
        panic!(rt; "there are four entries")
    };
    let first = Delivery {
        due: 1_000_000,
        packet: 0,
        flow: 0,
        start: 0,
    };
    assert!(rt; matches!(configured.reply, Reply::Configured));
    check_queued(rt, &queued.reply, 0);
    check_delivered(rt, &delivered.reply, 1_000_000, &[first]);
    check_status(rt, &status.reply);
}

/// The reply to the Show: one flow, whose one packet has started.
fn check_status<R: Abort>(rt: &R, reply: &Reply) {
    let Reply::Status { list } = reply else {
        panic!(rt; "the fourth entry is a Show")
    };
    let started = one_started().expect(rt, "numbers in range");
    assert!(rt; list.as_slice() == [started].as_slice());
}

/// Tries the call again if memory was refused, three times at most.
///
/// It is never busy, so a refused call has given the word back.
fn tried_again<R: Abort>(rt: &R, caller: &mut Caller, call: &Call)
    ensures { IsSameCaller caller.old caller.new }
{
    for _ in 0..3u64 {
        match caller.try_call(*call) {
            Ok(_) => return,
            Err(fault) => assert!(rt; fault == TryFault::OutOfMemory),
        }
    }
    panic!(rt; "refused again and again")
}

/// The same after a `call`.
fn called_again<R: Abort + Wait>(rt: &R, caller: &mut Caller, call: &Call)
    ensures { IsSameCaller caller.old caller.new }
{
    if caller.call(rt, *call).is_err() {
        tried_again(rt, caller, call);
    }
}

/// Opens a service with one caller, again where memory was refused, three times at most.
fn opened_again<R: Abort>(rt: &R, alloc: Global) -> (Service, Vec<Caller>)
    ensures of { All (IsOf result.0) result.1.items }
    ensures callers { length result.1.items ≡ 1 }
{
    for _ in 0..3u64 {
        match Service::open(alloc, 1) {
            Ok(opened) => return opened,
            Err(fault) => assert!(rt; fault == OpenFault::OutOfMemory),
        }
    }
    panic!(rt; "refused again and again")
}

/// Makes the four calls by `tried_again`.
fn try_four_again<R: Abort>(rt: &R, caller: &mut Caller, calls: &[Call; 4])
    ensures { IsSameCaller caller.old caller.new }
{
    let [pipe, packet, collect, show] = calls;
    tried_again(rt, caller, pipe);
    tried_again(rt, caller, packet);
    tried_again(rt, caller, collect);
    tried_again(rt, caller, show);
}

/// It passes whichever growth is refused, or whichever two in a row: a refused try leaves no trace.
#[test]
fn a_try_that_memory_refuses_leaves_no_trace(rt: HostRuntime) -> Result<(), Fail> {
    let calls = four_calls().ok_or("calls")?;
    let (service, mut callers) = opened_again(&rt, rt.alloc());
    try_four_again(&rt, &mut callers[0], &calls);
    let history = history_of(service, callers)?;
    check_four(&rt, history.as_slice());
    Ok(())
}

/// Makes the four calls by `called_again`.
fn call_four_again<R: Abort + Wait>(rt: &R, caller: &mut Caller, calls: &[Call; 4])
    ensures { IsSameCaller caller.old caller.new }
{
    let [pipe, packet, collect, show] = calls;
    called_again(rt, caller, pipe);
    called_again(rt, caller, packet);
    called_again(rt, caller, collect);
    called_again(rt, caller, show);
}

/// The same of `call`.
#[test]
fn a_call_that_memory_refuses_leaves_no_trace(rt: HostRuntime) -> Result<(), Fail> {
    let calls = four_calls().ok_or("calls")?;
    let (service, mut callers) = opened_again(&rt, rt.alloc());
    call_four_again(&rt, &mut callers[0], &calls);
    let history = history_of(service, callers)?;
    check_four(&rt, history.as_slice());
    Ok(())
}
