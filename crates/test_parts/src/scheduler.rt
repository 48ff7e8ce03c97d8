ghost use Rattle.std.specs.Prelude.{◌<◌, OnOk};
ghost use Rattle.dn_wf2q.specs.Schedule.{room_at};

use crate::on_new::on_new;
use dn_types::{Len, Weight};
use dn_wf2q::Sched;
use std::alloc::AllocError;
use std::process::Abort;

/// What a scheduler tells of itself: whether it is idle, virtual time, arrivals, picks and pushes.
fn told(sched: &Sched) -> (bool, u128, u64, u64, u64) {
    (
        sched.is_idle(),
        sched.virtual_time(),
        sched.arrivals(),
        sched.picks(),
        sched.moves(),
    )
}

/// Makes a flow with room for a packet, twice more at most if a growth is refused, which changes nothing.
fn reserved_again(rt: &impl Abort, sched: &mut Sched, slot: usize) -> Result<(), AllocError>
    ensures reserved { OnOk result (0 < room_at sched.new.room slot) }
{
    let before = told(sched);
    for _ in 0..2u64 {
        if sched.reserve_flow(slot).is_ok() {
            return Ok(());
        }
        assert!(rt; told(sched) == before);
    }
    sched.reserve_flow(slot)
}

/// A packet of 1,000 bytes arrives.
fn arrive(rt: &impl Abort, sched: &mut Sched, slot: usize, weight: u8) -> Result<(), AllocError> {
    reserved_again(rt, sched, slot)?;
    if let (Some(len), Some(weight)) = (Len::new(1000), Weight::new(weight)) {
        if sched.arrivals() < 1 << 62 {
            sched.arrive(slot, len, weight);
        }
    }
    Ok(())
}

fn begin(sched: &mut Sched) {
    if sched.is_idle() {
        sched.begin_busy();
    }
}

fn check_pick(rt: &impl Abort, sched: &mut Sched, slot: Option<usize>, virtual_time: u128) {
    let picked = sched.pick();
    assert!(rt; picked == slot);
    assert!(rt; sched.virtual_time() == virtual_time);
}

fn check_parts(rt: &impl Abort, sched: &mut Sched) -> Result<(), AllocError> {
    assert!(rt; sched.is_idle());
    arrive(rt, sched, 0, 1)?;
    check_pick(rt, sched, Some(0), 65_536_000);
    check_pick(rt, sched, None, 65_536_000);
    assert!(rt; (sched.arrivals(), sched.picks()) == (1, 1));
    assert!(rt; 1 <= sched.moves() && sched.moves() <= 2);
    Ok(())
}

#[test]
fn parts_by_themselves(rt: HostRuntime) -> Result<(), AllocError> {
    on_new(Sched::new(rt.alloc()), |sched| check_parts(&rt, sched))
}

/// What a scan over 100 flows picks.
///
/// Flow f has weight f + 1 and had 100 packets of 1,000 bytes at first, of which so many have been sent.
fn scan(sent: &[u128; 100], virtual_time: &mut u128) -> Option<usize> {
    let mut least: Option<u128> = None;
    let mut weights: u128 = 0;
    for flow in 0..100usize {
        if sent[flow] < 100 {
            let start = sent[flow] * (65_536_000 / (flow as u128 + 1));
            least = Some(least.map_or(start, |l| l.min(start)));
            weights = weights.saturating_add(flow as u128 + 1);
        }
    }
    *virtual_time = (*virtual_time).max(least?);
    let mut first: Option<(u128, usize)> = None;
    for flow in 0..100usize {
        let cost = 65_536_000 / (flow as u128 + 1);
        if sent[flow] < 100 && sent[flow] * cost <= *virtual_time {
            let key = (sent[flow] * cost + cost, flow);
            first = Some(first.map_or(key, |f| f.min(key)));
        }
    }
    let growth = 65_536_000u128.checked_div(weights).unwrap_or(0);
    *virtual_time = (*virtual_time).saturating_add(growth);
    Some(first?.1)
}

/// A hundred packets of 1,000 bytes arrive at each of 100 slots, of which slot f has weight f + 1.
fn fill(rt: &impl Abort, sched: &mut Sched) -> Result<(), AllocError> {
    for packet in 0..10_000usize {
        let slot = packet % 100;
        arrive(rt, sched, slot, slot as u8 + 1)?;
    }
    Ok(())
}

/// Whether each pick and virtual time after it are those of the scan, and a checksum of the slots.
fn compare(sched: &mut Sched) -> (bool, u32) {
    let mut sent = [0u128; 100];
    let mut virtual_time = 0;
    let mut same = true;
    let mut checksum: u32 = 0;
    for _ in 0..10001 {
        let slot = sched.pick();
        same = same
            && slot == scan(&sent, &mut virtual_time)
            && sched.virtual_time() == virtual_time;
        if let Some(f) = slot {
            if f < 100 {
                sent[f] = sent[f].saturating_add(1);
                checksum = checksum.wrapping_mul(31).wrapping_add(f as u32 + 1);
            }
        }
    }
    (same, checksum)
}

// The last figures come from an independent reference.
fn check_hundred(rt: &impl Abort, sched: &mut Sched) -> Result<(), AllocError> {
    begin(sched);
    fill(rt, sched)?;
    assert!(rt; compare(sched) == (true, 1_019_959_014));
    assert!(rt; told(sched) == (true, 6_583_152_876, 10000, 10000, 17530));
    Ok(())
}

#[test]
fn a_hundred_flows(rt: HostRuntime) -> Result<(), AllocError> {
    on_new(Sched::new(rt.alloc()), |sched| check_hundred(&rt, sched))
}

fn check_slots(rt: &impl Abort, sched: &mut Sched) {
    assert!(rt; sched.reserve_flow(1 << 32).is_err());
    assert!(rt; told(sched) == (true, 0, 0, 0, 0));
}

#[test]
fn slots_beyond_the_last(rt: HostRuntime) {
    on_new(Sched::new(rt.alloc()), |sched| check_slots(&rt, sched))
}
