//! Collects of packets that are due, during a replay and at its end.

ghost use Rattle.std.specs.Prelude.{OnOk};
ghost use Rattle.dn_replay.specs.Passing.{Collects, PassesBy};

use crate::report::delivered_by;
use dn_shaper::Shaper;
use dn_types::{Call, Delivery, Moment};
use std::alloc::AllocError;

// After so many Submits packets are collected in passing.
const STRETCH: usize = 256;

/// Takes the packets that are due by a moment or by the clock, behind those that were given before.
pub(crate) fn collect(
    shaper: &mut Shaper,
    given: &mut Vec<Delivery>,
    moment: Moment,
) -> Result<(), AllocError>
    ensures { OnOk result (Collects moment shaper.old given.old.items shaper.new given.new.items) }
{
    let reply = shaper.apply(&Call::Collect(moment))?;
    given.extend_from_slice(delivered_by(&reply))?;
    Ok(())
}

/// Takes the packets that are due by the clock, after every 256th Submit.
///
/// So a shaper needn't hold all packets until the last Collect.
pub(crate) fn collect_in_passing(
    shaper: &mut Shaper,
    given: &mut Vec<Delivery>,
    submits: usize,
) -> Result<(), AllocError>
    ensures { OnOk result (PassesBy shaper.old given.old.items shaper.new given.new.items) }
{
    if submits % STRETCH == 0 {
        return collect(shaper, given, Moment::new(0).unwrap());
    }
    Ok(())
}
