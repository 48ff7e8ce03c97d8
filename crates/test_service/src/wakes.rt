//! Callers that ask when the next packet is due or starts.
ghost use Rattle.dn_service.specs.Callers.{IsSameCaller};

use crate::calls::{collect, history_of, made, packet, pipe};
use dn_service::{Caller, Service};
use std::process::Abort;
use std::test::Fail;

/// By one try, which is never busy, it has to be this moment.
fn check_wake<R: Abort>(rt: &R, caller: &mut Caller, moment: Option<u64>)
    ensures { IsSameCaller caller.old caller.new }
{
    let Ok(next) = caller.try_wake() else {
        panic!(rt; "busy")
    };
    assert!(rt; next == moment);
}

/// Each caller sees what the other's packets of 1 ms make of the link.
fn check_wakes<R: Abort>(rt: &R, zero: &mut Caller, one: &mut Caller)
    ensures zero { IsSameCaller zero.old zero.new }
    ensures one { IsSameCaller one.old one.new }
{
    let _ = made(rt, zero, pipe(8_000_000));
    check_wake(rt, one, None);
    let _ = made(rt, zero, packet(0));
    let _ = made(rt, zero, packet(0));
    check_wake(rt, one, Some(1_000_000));
    let _ = made(rt, one, collect(1_500_000));
    check_wake(rt, zero, Some(2_000_000));
    let _ = made(rt, zero, collect(2_000_000));
    check_wake(rt, one, None);
}

#[test]
fn a_wake_is_no_call(rt: HostRuntime) -> Result<(), Fail> {
    let (service, mut callers) = Service::open(rt.alloc(), 2)?;
    let (zero, one) = callers.split_at_mut(1);
    check_wakes(&rt, &mut zero[0], &mut one[0]);
    let history = history_of(service, callers)?;
    assert!(rt; history.len() == 5);
    Ok(())
}
