//! The callers of a replay and their calls.
ghost use Rattle.std.specs.Prelude.{◌≡◌, ◌<◌, ◌^◌, ◌∷◌, ◌++◌, map, vec_len, Ok, IfOk, OnOk};
ghost use Rattle.dn_types.specs.History.{calls_of};
ghost use Rattle.dn_types.specs.declared.call.Call.TheVariants.{Collect};
ghost use Rattle.dn_service.specs.Callers.{IsSameCaller};
ghost use Rattle.dn_replay.specs.Callers.{AllSubmitted, calls_by, HasSubmitted, Replay};

use crate::callers::gate::Gate;
use crate::config::run::submit;
use dn_files::Row;
use dn_service::Caller;
use dn_types::{Call, Entry, Moment};
use std::alloc::AllocError;
use std::sync::Wait;
use std::thread;
use std::thread::Threads;

/// A caller makes the calls of some entries, in order.
fn repeat<R: Wait>(rt: &R, caller: &mut Caller, entries: &[Entry]) -> Result<(), AllocError>
    ensures same { IsSameCaller caller.old caller.new }
    ensures calls { OnOk result (calls_by caller.new ≡ calls_of entries.now ++ calls_by caller.old) }
{
    for entry in entries {
        caller.call(rt, entry.call)?;
    }
    Ok(())
}

/// A caller takes all that is due by the last moment.
fn collect<R: Wait>(rt: &R, caller: &mut Caller) -> Result<(), AllocError>
    ensures same { IsSameCaller caller.old caller.new }
    ensures calls { OnOk result (calls_by caller.new ≡ Collect (2 ^ 62) ∷ calls_by caller.old) }
{
    caller.call(rt, Call::Collect(Moment::new(1 << 62).unwrap()))?;
    Ok(())
}

/// A caller submits the rows that fall to it among n callers.
fn submit_own<G: Gate, R: Wait>(
    rt: &R,
    mut caller: Caller,
    n: usize,
    rows: &[Row],
    gate: &G,
) -> Result<Caller, AllocError>
    requires { 0 < n }
    ensures { IfOk result (λ after. HasSubmitted n rows.now caller after) }
{
    let number = caller.number();
    let mut turn = 0;
    for place in 0..rows.len() {
        if place % n == number {
            gate.before(number, turn);
            caller.call(rt, submit(&rows[place]))?;
            gate.after(number, turn);
            turn += 1;
        }
    }
    Ok(caller)
}

/// The callers that came back from their threads, if none was refused memory.
fn gathered(back: Vec<Result<Caller, AllocError>>) -> Result<Vec<Caller>, AllocError>
    ensures { IfOk result (λ callers. map Ok callers.items ≡ back.items) }
{
    let mut callers = Vec::new(*back.allocator());
    for caller in back {
        callers.push(caller?)?;
    }
    Ok(callers)
}

/// Each caller submits its rows, in a thread of its own.
fn submit_all<G: Gate + Sync, R: Threads + Wait + Sync>(
    rt: &R,
    callers: Vec<Caller>,
    n: usize,
    rows: &[Row],
    gate: &G,
) -> Result<Vec<Caller>, AllocError>
    requires { 0 < n }
    ensures { IfOk result (λ after. AllSubmitted n rows.now callers.items after.items) }
{
    let submit = |caller: Caller| -> Result<Caller, AllocError>
        requires { 0 < n }
        ensures { IfOk result (λ after. HasSubmitted n rows.entry.now caller after) }
    { submit_own(rt, caller, n, rows, gate) };
    gathered(thread::map_vec(rt, callers, &submit)?)
}

/// Caller 0 makes the calls of a configuration.
///
/// Then all callers submit their rows at the same time, and when they have all come back caller 0 takes what is delivered.
pub(crate) fn run_callers<G: Gate + Sync, R: Threads + Wait + Sync>(
    rt: &R,
    mut callers: Vec<Caller>,
    n: usize,
    config: &[Entry],
    rows: &[Row],
    gate: &G,
) -> Result<Vec<Caller>, AllocError>
    requires { (0 < n) × (0 < vec_len callers) }
    ensures { IfOk result (λ after. Replay n (calls_of config.now) rows.now callers.items after.items) }
{
    repeat(rt, &mut callers[0], config)?;
    let mut callers = submit_all(rt, callers, n, rows, gate)?;
    collect(rt, &mut callers[0])?;
    Ok(callers)
}
