//! A service that lasts: what is taken out of it, and what callers learn from one another.
ghost use Rattle.std.specs.Prelude.{◌≡◌, All};
ghost use Rattle.dn_service.specs.Callers.{IsOf, IsSameCaller};

use crate::calls::{advance, made};
use dn_service::{Caller, Lasting, Segment, Service};
use dn_types::Reply;
use std::process::Abort;
use std::test::Fail;

/// Takes what there is, by one try, which is never busy.
fn taken<R: Abort>(rt: &R, lasting: &mut Lasting, caller: &mut Caller) -> Segment
    requires { IsOf lasting.old.service caller.old }
    ensures same_caller { IsSameCaller caller.old caller.new }
    ensures same_service { lasting.new.service ≡ lasting.old.service }
{
    let Ok(segment) = caller.try_take(lasting) else {
        panic!(rt; "busy")
    };
    segment
}

/// The segment has the places from `start` on, and its entries are the moves of the clock to these moments.
fn check<R: Abort>(rt: &R, segment: &Segment, start: u64, count: usize) {
    assert!(rt; segment.start == start && segment.entries.len() == count);
    let mut at = start;
    for entry in segment.entries.as_slice() {
        assert!(rt; matches!(&entry.reply, Reply::Advanced { at: moment } if *moment == at));
        at = at.wrapping_add(1);
    }
}

/// Both callers move the clock on, by turns.
fn both<R: Abort>(rt: &R, zero: &mut Caller, one: &mut Caller, moment: u64)
    ensures zero { IsSameCaller zero.old zero.new }
    ensures one { IsSameCaller one.old one.new }
{
    let _ = made(rt, zero, advance(moment));
    let _ = made(rt, one, advance(moment.wrapping_add(1)));
}

/// Entries are taken by the one caller and by the other, and the last two stay.
fn take_by_turns<R: Abort>(rt: &R, lasting: &mut Lasting, zero: &mut Caller, one: &mut Caller)
    requires zero { IsOf lasting.old.service zero.old }
    requires one { IsOf lasting.old.service one.old }
    ensures zero { IsSameCaller zero.old zero.new }
    ensures one { IsSameCaller one.old one.new }
    ensures same_service { lasting.new.service ≡ lasting.old.service }
{
    both(rt, zero, one, 0);
    both(rt, zero, one, 2);
    check(rt, &taken(rt, lasting, zero), 0, 4);
    check(rt, &taken(rt, lasting, one), 4, 0);
    both(rt, zero, one, 4);
    check(rt, &taken(rt, lasting, one), 4, 2);
    both(rt, zero, one, 6);
}

#[test]
fn segments_follow_one_another(rt: HostRuntime) -> Result<(), Fail> {
    let (service, mut callers) = Service::open(rt.alloc(), 2)?;
    let mut lasting = service.lasting();
    let (zero, one) = callers.split_at_mut(1);
    take_by_turns(&rt, &mut lasting, &mut zero[0], &mut one[0]);
    let Ok(closed) = lasting.close(callers) else {
        panic!(rt; "not closed")
    };
    let rest = Segment {
        start: 6,
        entries: closed.history,
    };
    check(&rt, &rest, 6, 2);
    Ok(())
}

/// The one caller tells the other what it has seen.
fn tell(zero: &mut Caller, one: &mut Caller)
    requires { one.old.service ≡ zero.old.service }
    ensures zero { IsSameCaller zero.old zero.new }
    ensures one { IsSameCaller one.old one.new }
{
    one.learn(zero.seen());
}

#[test]
fn a_caller_learns_from_a_token(rt: HostRuntime) -> Result<(), Fail> {
    let (service, mut callers) = Service::open(rt.alloc(), 2)?;
    let (zero, one) = callers.split_at_mut(1);
    both(&rt, &mut zero[0], &mut one[0], 0);
    tell(&mut zero[0], &mut one[0]);
    both(&rt, &mut zero[0], &mut one[0], 2);
    let Ok(closed) = service.close(callers) else {
        panic!(rt; "not closed")
    };
    assert!(rt; closed.history.len() == 4);
    Ok(())
}
