//! A test of the homes of flows.
use crate::given::{is_told, key};
use crate::on_new::on_new;
use dn_flows::{Flows, Home};
use std::alloc::AllocError;
use std::process::Abort;

const AWAY: Home = Home {
    place: 4_294_967_295,
    slot: 3,
};

/// The home of the flow, if it is there.
fn home(flows: &Flows, flow: usize) -> Option<Home> {
    if flow >= flows.len() {
        return None;
    }
    Some(flows.home(flow))
}

/// The homes of two flows and one more.
fn told(flows: &Flows) -> [Option<Home>; 3] {
    [home(flows, 0), home(flows, 1), home(flows, 2)]
}

fn check_homes<R: Abort>(rt: &R, flows: &mut Flows) -> Result<(), AllocError> {
    let none = Home { place: 0, slot: 0 };
    let _first = flows.find_or_make(key(2))?;
    assert!(rt; told(flows) == [Some(none), None, None]);
    let _second = flows.find_or_make(key(1))?;
    if flows.len() > 1 {
        flows.set_home(1, AWAY);
    }
    assert!(rt; told(flows) == [Some(none), Some(AWAY), None]);
    assert!(rt; is_told(flows, 1, &key(1)));
    Ok(())
}

// A flow's home is the one that it was given, and no other flow's.
#[test]
fn the_home_of_a_flow(rt: HostRuntime) -> Result<(), AllocError> {
    on_new(Flows::new(rt.alloc()), |flows| check_homes(&rt, flows))
}
