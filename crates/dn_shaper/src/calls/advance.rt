ghost use Rattle.std.specs.Prelude.{◌<◌, ◌^◌};
ghost use Rattle.dn_types.specs.declared.call.Call.TheVariants.{Advance};
ghost use Rattle.dn_shaper.specs.Refinement.Calls.{Does};
ghost use Rattle.dn_shaper.specs.Refinement.Sound.{IsSound};
ghost use Rattle.dn_shaper.specs.Room.{KeepsRoom};

use crate::links::settle::settle;
use crate::state::State;
use dn_types::{Moment, Reply};

/// Moves the clock, and starts all that starts by then. It takes no memory.
pub fn advance(state: &mut State, moment: Moment) -> Reply
    requires sound { IsSound state.old }
    requires few { state.old.calls < 2 ^ 62 }
    ensures does { Does (Advance moment) state.old state.new result }
    ensures sound { IsSound state.new }
    ensures leaves { KeepsRoom state.old state.new }
{
    let at = state.now.max(moment.get());
    settle(&mut state.parts, &mut state.heap, &state.configured, at);
    state.now = at;
    state.calls += 1;
    Reply::Advanced { at }
}
