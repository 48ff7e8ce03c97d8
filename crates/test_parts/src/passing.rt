use crate::on_new::on_new;
use dn_types::{Len, Weight};
use dn_wf2q::Sched;
use std::alloc::AllocError;
use std::process::Abort;

/// A packet of 1,000 bytes and weight 2 comes to the slot, and passes if none waits, which is returned.
fn come(sched: &mut Sched, slot: usize) -> Result<bool, AllocError> {
    let len = Len::new(1_000).unwrap();
    let weight = Weight::new(2).unwrap();
    sched.reserve_flow(slot)?;
    if sched.arrivals() > 100 {
        return Ok(false);
    }
    if sched.is_idle() {
        sched.pass(slot, len, weight);
        return Ok(true);
    }
    sched.arrive(slot, len, weight);
    Ok(false)
}

/// A packet of the same kind waits at the slot, in the busy period that there is.
fn wait(sched: &mut Sched, slot: usize) -> Result<(), AllocError> {
    sched.reserve_flow(slot)?;
    if sched.arrivals() < 100 {
        sched.arrive(slot, Len::new(1_000).unwrap(), Weight::new(2).unwrap());
    }
    Ok(())
}

/// Virtual time, and the counts of arrivals, picks and pushes.
fn counts(sched: &Sched) -> (u128, u64, u64, u64) {
    (
        sched.virtual_time(),
        sched.arrivals(),
        sched.picks(),
        sched.moves(),
    )
}

fn check_passing(rt: &impl Abort, sched: &mut Sched) -> Result<(), AllocError> {
    assert!(rt; come(sched, 1)?);
    assert!(rt; sched.is_idle());
    assert!(rt; counts(sched) == (32_768_000, 1, 1, 1));
    wait(sched, 1)?;
    assert!(rt; !come(sched, 0)?);
    // The packet at slot 0 finishes with the other, and the tie goes to the lower slot.
    assert!(rt; sched.pick() == Some(0));
    assert!(rt; counts(sched) == (49_152_000, 3, 2, 3));
    assert!(rt; sched.pick() == Some(1));
    assert!(rt; come(sched, 1)?);
    assert!(rt; counts(sched) == (32_768_000, 4, 4, 4));
    Ok(())
}

// A packet costs 1,000 * 65,536 / 2 units. After the first has passed, two wait beside one another, and virtual time grows by
// half as much for each; the last one begins a busy period of its own.
#[test]
fn packets_that_pass(rt: HostRuntime) -> Result<(), AllocError> {
    on_new(Sched::new(rt.alloc()), |sched| check_passing(&rt, sched))
}
