use dn_types::{
    Call, Deliveries, Delivery, Entry, FlowKey, FlowStatus, Moment, Reply, Statuses, Target,
};
use std::alloc::{AllocError, Global};
use std::process::Abort;
use std::test::Fail;
use test_devices::one_started;

#[test]
fn deliveries_go_by_due_moment_and_packet(rt: HostRuntime) {
    let delivery = |due, packet| Delivery {
        due,
        packet,
        flow: 0,
        start: 0,
    };
    assert!(rt; delivery(4, 9) < delivery(5, 0));
    assert!(rt; delivery(5, 0) < delivery(5, 1));
}

// The packet that the Collect of `third_entry` gives.
fn delivered(alloc: Global) -> Result<Vec<Delivery>, Fail> {
    let mut list = Vec::new(alloc);
    list.push(Delivery {
        due: 1_000_000,
        packet: 0,
        flow: 0,
        start: 0,
    })?;
    Ok(list)
}

// The states of one flow, which is a pipe's.
fn states(alloc: Global) -> Result<Vec<FlowStatus>, Fail> {
    // The prover asks that a body that moves a state into a list names the types in it.
    let _key: Option<FlowKey> = None;
    let _target: Option<Target> = None;
    let mut list = Vec::new(alloc);
    list.push(one_started().ok_or("numbers in range")?)?;
    Ok(list)
}

// The third of four calls of one caller. A pipe of 8 Mbit/s was configured, one packet of 1,000 bytes was submitted
// at 0, and the Collect at 1 ms gives it.
fn third_entry(alloc: Global) -> Result<Entry, Fail> {
    Ok(Entry {
        caller: 0,
        call: Call::Collect(Moment::new(1_000_000).ok_or("1 ms is a moment")?),
        reply: Reply::Delivered {
            at: 1_000_000,
            list: Deliveries::from_vec(delivered(alloc)?),
        },
    })
}

fn check_clone(rt: &impl Abort, reply: &Reply) -> Result<(), AllocError> {
    assert!(rt; reply.try_clone()? == *reply);
    Ok(())
}

fn check_plain_clones(rt: &impl Abort) -> Result<(), AllocError> {
    check_clone(rt, &Reply::Configured)?;
    check_clone(rt, &Reply::NoSuchPipe)?;
    check_clone(rt, &Reply::Deleted)?;
    check_clone(rt, &Reply::PipeHasQueues)?;
    check_clone(rt, &Reply::NoSuchQueue)?;
    check_clone(
        rt,
        &Reply::Queued {
            at: 3,
            flow: 2,
            packet: 1,
        },
    )?;
    check_clone(rt, &Reply::Lost { at: 3, flow: 2 })?;
    check_clone(rt, &Reply::Full { at: 3, flow: 2 })?;
    check_clone(rt, &Reply::NoTarget { at: 3 })?;
    check_clone(rt, &Reply::Advanced { at: 3 })?;
    check_clone(rt, &Reply::Exhausted)
}

fn check_entry_clone(rt: &impl Abort, entry: &Entry) -> Result<(), AllocError> {
    assert!(rt; entry.try_clone()? == *entry);
    check_clone(rt, &entry.reply)
}

#[test]
fn clones_are_equal(rt: HostRuntime) -> Result<(), Fail> {
    check_plain_clones(&rt)?;
    let entry = third_entry(rt.alloc())?;
    check_entry_clone(&rt, &entry)?;
    let status = Reply::Status {
        list: Statuses::from_vec(states(rt.alloc())?),
    };
    check_clone(&rt, &status)?;
    assert!(rt; status != entry.reply);
    Ok(())
}

fn check_deliveries(rt: &impl Abort, given: Vec<Delivery>, want: &[Delivery]) {
    let list = Deliveries::from_vec(given);
    assert!(rt; list.as_slice() == want);
    assert!(rt; list.into_vec().as_slice() == want);
}

fn check_statuses(rt: &impl Abort, given: Vec<FlowStatus>, want: &[FlowStatus]) {
    let list = Statuses::from_vec(given);
    assert!(rt; list.as_slice() == want);
    assert!(rt; list.into_vec().as_slice() == want);
}

#[test]
fn lists_give_their_items_back(rt: HostRuntime) -> Result<(), Fail> {
    let alloc = rt.alloc();
    check_deliveries(&rt, delivered(alloc)?, delivered(alloc)?.as_slice());
    check_statuses(&rt, states(alloc)?, states(alloc)?.as_slice());
    Ok(())
}
