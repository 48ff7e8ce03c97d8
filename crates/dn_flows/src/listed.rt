//! Which flows are in the lists of their pipes and queues.
//!
//! The lists hold also flows that aren't active. These are taken out as they come to the end.
ghost use Rattle.std.specs.Prelude.{◌≡◌, ℕ, ◌<◌, ◌≤◌, List, true, false, length, slice_get, slice_set, Some, IfSome, IfNone, OnOk};
ghost use Rattle.dn_flows.specs.Members.{AreListed, IsListed, KeepQueues, LetsGo};
ghost use Rattle.dn_flows.specs.Store.{reservations};
ghost use Rattle.dn_flows.specs.Table.{is_at};
ghost use Rattle.dn_flows.specs.declared.flow_queue.FlowQueue.{FlowQueue as Queue};
ghost use Rattle.dn_types.specs.declared.flow_key.FlowKey.{FlowKey as Key};

use crate::flow_queue::FlowQueue;
use crate::keyed_hash::KeyedHash;
use crate::members::Members;
use crate::table_key::TableKey;
use dn_types::{FlowKey, Target};
use indexmap::IndexSet;
use std::alloc::AllocError;

/// Puts the flow into the list of its pipe, unless it is there.
fn list_on_pipe(
    members: &mut Members,
    queue: &mut FlowQueue,
    key: &FlowKey,
    flow: usize,
) -> Result<(), AllocError>
    ensures listed { (keys : List Key) (queues : List Queue) → AreListed keys queues members.old → slice_get queues flow ≡ Some queue.old → slice_get keys flow ≡ Some key.now → AreListed keys (slice_set queues flow queue.new) members.new }
    ensures on_pipe { OnOk result (queue.new.on_pipe ≡ true) }
    ensures same { queue.new ≡ record queue.old { on_pipe = queue.new.on_pipe } }
{
    if queue.on_pipe {
        return Ok(());
    }
    members.push(&Target::Pipe(key.pipe), flow)?;
    queue.on_pipe = true;
    Ok(())
}

/// Puts the flow into the list of its queue, unless it is there or is of none.
fn list_of_queue(
    members: &mut Members,
    queue: &mut FlowQueue,
    key: &FlowKey,
    flow: usize,
) -> Result<(), AllocError>
    ensures listed { (keys : List Key) (queues : List Queue) → AreListed keys queues members.old → slice_get queues flow ≡ Some queue.old → slice_get keys flow ≡ Some key.now → AreListed keys (slice_set queues flow queue.new) members.new }
    ensures of_queue { OnOk result (queue.new.of_queue ≡ true) }
    ensures same { queue.new ≡ record queue.old { of_queue = queue.new.of_queue } }
{
    if queue.of_queue {
        return Ok(());
    }
    let Target::Queue(_) = key.target else {
        queue.of_queue = true;
        return Ok(());
    };
    members.push(&key.target, flow)?;
    queue.of_queue = true;
    Ok(())
}

/// Puts the flow into the lists of its pipe and its queue, where it isn't.
#[inline(never)]
fn list_anew(
    members: &mut Members,
    queue: &mut FlowQueue,
    keys: &IndexSet<TableKey, KeyedHash>,
    flow: usize,
) -> Result<(), AllocError>
    requires { flow < length keys.now.keys }
    ensures listed { (queues : List Queue) → AreListed keys.now.keys queues members.old → slice_get queues flow ≡ Some queue.old → AreListed keys.now.keys (slice_set queues flow queue.new) members.new }
    ensures on_pipe { OnOk result (queue.new.on_pipe ≡ true) }
    ensures of_queue { OnOk result (queue.new.of_queue ≡ true) }
    ensures same { queue.new ≡ record queue.old { on_pipe = queue.new.on_pipe; of_queue = queue.new.of_queue } }
{
    let key = keys.get_index(flow).unwrap().get();
    list_on_pipe(members, queue, &key, flow)?;
    list_of_queue(members, queue, &key, flow)
}

/// Puts the flow into the lists of its pipe and its queue, where it isn't.
///
/// Most flows that get a packet are active, and so they are there.
#[inline(always)]
pub fn list(
    members: &mut Members,
    queue: &mut FlowQueue,
    keys: &IndexSet<TableKey, KeyedHash>,
    flow: usize,
) -> Result<(), AllocError>
    requires within { flow < length keys.now.keys }
    requires is_listed { IsListed queue.old }
    ensures listed { (queues : List Queue) → AreListed keys.now.keys queues members.old → slice_get queues flow ≡ Some queue.old → AreListed keys.now.keys (slice_set queues flow queue.new) members.new }
    ensures on_pipe { OnOk result (queue.new.on_pipe ≡ true) }
    ensures of_queue { OnOk result (queue.new.of_queue ≡ true) }
    ensures same { queue.new ≡ record queue.old { on_pipe = queue.new.on_pipe; of_queue = queue.new.of_queue } }
{
    if queue.active {
        return Ok(());
    }
    list_anew(members, queue, keys, flow)
}

/// Whether the flow is at the target and active.
fn is_active_at(
    queues: &[FlowQueue],
    keys: &IndexSet<TableKey, KeyedHash>,
    target: &Target,
    flow: usize,
) -> bool
    ensures yes { result ≡ true → (q : Queue) × (slice_get queues.now flow ≡ Some q) × (q.active ≡ true) × ((key : Key) × (slice_get keys.now.keys flow ≡ Some key) × (is_at target.now key ≡ true)) }
    ensures no { result ≡ false → (q : Queue) (key : Key) → slice_get queues.now flow ≡ Some q → slice_get keys.now.keys flow ≡ Some key → is_at target.now key ≡ true → q.active ≡ false }
{
    let Some(queue) = queues.get(flow) else {
        return false;
    };
    let Some(key) = keys.get_index(flow) else {
        return false;
    };
    if !queue.active {
        return false;
    }
    is_at(target, &key.get())
}

/// Whether the flow with the key is on the pipe, or of the queue.
fn is_at(target: &Target, key: &FlowKey) -> bool
    ensures { result ≡ is_at target.now key.now }
{
    match target {
        Target::Pipe(pipe) => key.pipe == *pipe,
        Target::Queue(_) => key.target == *target,
    }
}

/// The flow whose entry was taken out of the target's list is no longer there, unless it is active, and so at another target.
fn let_go(queues: &mut Vec<FlowQueue>, reserved: &mut usize, target: &Target, flow: usize)
    requires counted { reserved.old ≡ reservations queues.old.items }
    ensures lets_go { LetsGo target.now flow queues.old.items queues.new.items }
    ensures counted { reserved.new ≡ reservations queues.new.items }
    ensures fewer { reserved.new ≤ reserved.old }
{
    if queues.len() <= flow {
        return;
    }
    let queue = &mut queues[flow];
    if queue.active {
        return;
    }
    *reserved -= queue.let_go(target);
}

/// The last flow in the target's list that is active and at the target. Those that come after it in the list are taken out.
pub fn last_active(
    members: &mut Members,
    queues: &mut Vec<FlowQueue>,
    keys: &IndexSet<TableKey, KeyedHash>,
    reserved: &mut usize,
    target: &Target,
) -> Option<usize>
    requires listed { AreListed keys.now.keys queues.old.items members.old }
    requires counted { reserved.old ≡ reservations queues.old.items }
    ensures listed { AreListed keys.now.keys queues.new.items members.new }
    ensures counted { reserved.new ≡ reservations queues.new.items }
    ensures fewer { reserved.new ≤ reserved.old }
    ensures keeps { KeepQueues queues.old.items queues.new.items }
    ensures some { IfSome result (λ flow. (q : Queue) × (slice_get queues.new.items flow ≡ Some q) × (q.active ≡ true) × ((key : Key) × (slice_get keys.now.keys flow ≡ Some key) × (is_at target.now key ≡ true))) }
    ensures none { IfNone result ((flow : ℕ) (q : Queue) (key : Key) → slice_get queues.new.items flow ≡ Some q → slice_get keys.now.keys flow ≡ Some key → is_at target.now key ≡ true → q.active ≡ false) }
{
    'entries: while let Some(flow) = members.last(target) {
        if is_active_at(queues, keys, target, flow) {
            return Some(flow);
        }
        members.take_out(target, flow);
        let_go(queues, reserved, target, flow);
    }
    None
}
