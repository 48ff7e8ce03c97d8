ghost use Rattle.std.specs.Prelude.{◌≡◌, [], length, map, replicate, OnOk};
ghost use Rattle.hingetulip_c.specs.Services.{all_held, held_new};

use crate::caller_handle::CallerHandle;
use crate::client::Client;
use dn_service::Caller;
use std::alloc::{AllocError, Global};

/// Opens each handle with the caller of its place. What they held is let go.
pub(crate) fn hand_out(
    alloc: Global,
    mut callers: Vec<Caller>,
    handles: &mut [CallerHandle],
) -> Result<(), AllocError>
    requires { length callers.items ≡ length handles.old }
    ensures len { length handles.new ≡ length handles.old }
    ensures held { OnOk result (all_held handles.new ≡ map held_new callers.items) }
{
    for place in 0..handles.len() {
        match Box::new(alloc, Client::new(callers.remove(0))) {
            Ok(client) => {
                let _old = handles[place].put(alloc, client);
            }
            Err(_) => return Err(AllocError),
        }
    }
    Ok(())
}

/// Closes each handle.
#[tactic(auto, using(crate::proofs::Serving::closed_more))]
pub(crate) fn close_all(alloc: Global, handles: &mut [CallerHandle])
    ensures len { length handles.new ≡ length handles.old }
    ensures closed { all_held handles.new ≡ replicate (length handles.old) [] }
{
    for place in 0..handles.len() {
        let _old = handles[place].take(alloc);
    }
}
