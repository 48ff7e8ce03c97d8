//! Tests of which flows a delete finds. A test's function makes the table and no more, since what owns a table is dear to prove.
use crate::given::{discard, key, pass};
use crate::on_new::on_new;
use dn_flows::Flows;
use dn_types::{Number, Target};
use std::alloc::AllocError;
use std::process::Abort;

/// The active flows on the pipe of the test's keys and of its queue of that number, after two flows had a packet.
fn check_active<R: Abort>(rt: &R, flows: &mut Flows) -> Result<(), AllocError> {
    let first = flows.find_or_make(key(1))?;
    let second = flows.find_or_make(key(2))?;
    let number = Number::new(1).unwrap();
    assert!(rt; flows.active(Target::Pipe(number)) == None);
    assert!(rt; pass(flows, second)?);
    assert!(rt; flows.active(Target::Queue(number)) == None);
    assert!(rt; flows.active(Target::Pipe(number)) == Some(1));
    discard(flows, second);
    assert!(rt; flows.active(Target::Pipe(number)) == None);
    assert!(rt; pass(flows, first)?);
    assert!(rt; flows.active(Target::Pipe(number)) == Some(0));
    Ok(())
}

// A flow is active from its packet to its discard.
#[test]
fn active_flows(rt: HostRuntime) -> Result<(), AllocError> {
    on_new(Flows::new(rt.alloc()), |flows| check_active(&rt, flows))
}
