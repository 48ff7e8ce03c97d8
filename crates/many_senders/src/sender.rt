ghost use Rattle.std.specs.Prelude.{◌≡◌, All, IfOk};
ghost use Rattle.dn_service.specs.Callers.{ServiceView, IsOf};

use crate::calls::submit;
use crate::pace::Pace;
use dn_service::Caller;
use std::alloc::AllocError;
use std::sync::Wait;
use std::thread;
use std::thread::Threads;

/// Submits a packet in each round. It ends early if memory is refused, or if another thread has.
fn send<R: Wait>(rt: &R, mut caller: Caller, pace: &Pace, rounds: u32) -> Caller
    ensures { result.service ≡ caller.service }
{
    let port = u16::try_from(caller.number()).unwrap_or(u16::MAX);
    for round in 0..rounds {
        if !pace.wait(rt, round) {
            return caller;
        }
        if caller.call(rt, submit(port, round)).is_err() {
            pace.end(rt);
            return caller;
        }
    }
    caller
}

/// Each caller submits its packets in a thread of its own.
pub fn send_all<R: Threads + Wait + Sync>(
    rt: &R,
    callers: Vec<Caller>,
    pace: &Pace,
    rounds: u32,
) -> Result<Vec<Caller>, AllocError>
    ensures { IfOk result (λ back. (service : ServiceView) → All (IsOf service) callers.items → All (IsOf service) back.items) }
{
    thread::map_vec(rt, callers, &|caller| send(rt, caller, pace, rounds))
}
