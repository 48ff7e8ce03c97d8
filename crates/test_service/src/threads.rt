//! Callers in threads of their own.
ghost use Rattle.std.specs.Prelude.{◌≡◌, All, IfOk};
ghost use Rattle.dn_service.specs.Callers.{IsOf, IsSameCaller};

use crate::calls::{history_of, made, packet, pipe};
use dn_history::{Verdict, audit_with_key};
use dn_service::{Caller, CloseFault, OpenFault, Service, TryFault};
use dn_shaper::HashKey;
use dn_types::{Call, Entry, Reply, Rule};
use std::alloc::Global;
use std::process::Abort;
use std::sync::Wait;
use std::test::Fail;
use std::thread;

/// How many packets of flow 0 a Show has seen.
fn seen(reply: &Reply) -> u64 {
    let Reply::Status { list } = reply else {
        return 0;
    };
    list.as_slice()
        .first()
        .map_or(0, |flow| flow.queued.saturating_add(flow.started))
}

/// Submits one packet, and then asks until two packets are seen.
fn until_two_are_seen<R: Abort>(rt: &R, mut caller: Caller) -> Caller
    ensures { result.service ≡ caller.service }
{
    let packet = packet(0).expect(rt, "a packet");
    let mut submitted = false;
    for _ in 0..10_000_000u64 {
        let call = if submitted { Call::Show } else { packet };
        match caller.try_call(call) {
            Ok(reply) => {
                if seen(&reply) == 2 {
                    return caller;
                }
                submitted = true;
            }
            Err(TryFault::Busy(holder)) => {
                assert!(rt; holder < 2 && holder != caller.number());
                thread::yield_now();
            }
            Err(TryFault::OutOfMemory) => panic!(rt; "memory"),
        }
    }
    panic!(rt; "the other caller's packet was not seen")
}

#[test]
fn tries_of_two_callers_in_threads(rt: HostRuntime) -> Result<(), Fail> {
    let (service, mut callers) = Service::open(rt.alloc(), 2)?;
    let _ = made(&rt, &mut callers[0], pipe(8_000_000));
    let one = callers.pop().ok_or("one")?;
    let zero = callers.pop().ok_or("zero")?;
    let (zero, one) = thread::join(
        &rt,
        || until_two_are_seen(&rt, zero),
        || until_two_are_seen(&rt, one),
    );
    callers.push(zero)?;
    let Err(mut back) = service.close(callers) else {
        panic!(rt; "closed without caller 1")
    };
    assert!(rt; back.fault == CloseFault::Absent(1));
    assert!(rt; back.callers.len() == 1);
    let _ = made(&rt, &mut back.callers[0], Some(Call::Show));
    back.callers.push(one)?;
    let history = history_of(back.service, back.callers)?;
    assert!(rt; history.len() > 5);
    Ok(())
}

/// Submits 1,000 packets, the i-th of them at moment i.
fn submit_thousand<R: Wait + Abort>(rt: &R, mut caller: Caller) -> Caller
    ensures { result.service ≡ caller.service }
{
    for moment in 0..1000u64 {
        let packet = packet(moment).expect(rt, "a packet");
        let reply = caller.call(rt, packet);
        assert!(rt; matches!(reply, Ok(Reply::Queued { .. })));
    }
    caller
}

/// The same by tries, each packet again after Busy.
fn try_thousand<R: Abort>(rt: &R, mut caller: Caller) -> Caller
    ensures { result.service ≡ caller.service }
{
    for moment in 0..1000u64 {
        let packet = packet(moment).expect(rt, "a packet");
        try_until_queued(rt, &mut caller, &packet);
    }
    caller
}

fn try_until_queued<R: Abort>(rt: &R, caller: &mut Caller, packet: &Call)
    ensures { IsSameCaller caller.old caller.new }
{
    for _ in 0..10_000_000u64 {
        match caller.try_call(*packet) {
            Ok(reply) => {
                assert!(rt; matches!(reply, Reply::Queued { .. }));
                return;
            }
            Err(TryFault::Busy(holder)) => {
                assert!(rt; holder < 16 && holder != caller.number());
                thread::yield_now();
            }
            Err(TryFault::OutOfMemory) => panic!(rt; "memory"),
        }
    }
    panic!(rt; "always busy")
}

/// Each packet number below 16,000 stands once, and the moments of each caller's packets ascend.
fn check_thousands<R: Abort>(rt: &R, history: &[Entry]) {
    let mut numbers = [false; 16_000];
    let mut next = [0u64; 16];
    for entry in history {
        let Reply::Queued { packet, .. } = entry.reply else {
            continue;
        };
        let Call::Submit { moment, .. } = entry.call else {
            panic!(rt; "a packet that nobody submitted")
        };
        let number = numbers
            .get_mut(packet as usize)
            .expect(rt, "a packet number");
        assert!(rt; !*number);
        *number = true;
        let due = next.get_mut(entry.caller).expect(rt, "a caller");
        assert!(rt; moment.get() == *due);
        *due = moment.get() + 1;
    }
    assert!(rt; next.iter().all(|n| *n == 1000));
}

/// One caller has configured the pipe, and each of sixteen has submitted a thousand packets.
///
/// A new shaper that is given the calls again answers each as the history says.
fn check_history<R: Abort>(rt: &R, alloc: Global, history: &[Entry]) {
    assert!(rt; history.len() == 16_001);
    check_thousands(rt, history);
    assert!(rt; audit_with_key(alloc, HashKey(7), Rule::Ordered, history) == Ok(Verdict::Lawful));
}

/// A service with sixteen callers, the first of which has configured the pipe.
fn sixteen<R: Abort>(rt: &R, alloc: Global) -> Result<(Service, Vec<Caller>), OpenFault>
    ensures { IfOk result (λ opened. All (IsOf opened.0) opened.1.items) }
{
    let (service, mut callers) = Service::open(alloc, 16)?;
    let zero = callers.first_mut().expect(rt, "caller 0");
    let _ = made(rt, zero, pipe(0));
    Ok((service, callers))
}

#[test]
fn sixteen_threads_submit_a_thousand_packets_each(rt: HostRuntime) -> Result<(), Fail> {
    let (service, callers) = sixteen(&rt, rt.alloc())?;
    let callers = thread::map_vec(&rt, callers, &|caller| submit_thousand(&rt, caller))?;
    let history = history_of(service, callers)?;
    check_history(&rt, rt.alloc(), history.as_slice());
    Ok(())
}

#[test]
fn sixteen_threads_try_a_thousand_packets_each(rt: HostRuntime) -> Result<(), Fail> {
    let (service, callers) = sixteen(&rt, rt.alloc())?;
    let callers = thread::map_vec(&rt, callers, &|caller| try_thousand(&rt, caller))?;
    let history = history_of(service, callers)?;
    check_history(&rt, rt.alloc(), history.as_slice());
    Ok(())
}
