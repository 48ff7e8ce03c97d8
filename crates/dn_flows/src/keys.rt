//! The keys of the flows: a flow is looked up by its target alone, which its key confirms, and then by the hash of its key.
ghost use Rattle.std.specs.Prelude.{◌≡◌, ◌-◌, ◌<◌, false, true, length, slice_get, take, is_some, IfSome};
ghost use Rattle.std.specs.Option.{option_map_or};
ghost use Rattle.dn_types.specs.Flows.{flow_number, key_eq};
ghost use Rattle.dn_flows.specs.Members.{HasDistinctKeys, KeepsOthers};
ghost use Rattle.dn_flows.specs.Table.{is_known};

use crate::keyed_hash::KeyedHash;
use crate::members::Members;
use crate::table_key::TableKey;
use dn_types::{FlowKey, Target};
use indexmap::IndexSet;

/// Whether the flow is there and has the key.
#[inline(always)]
fn has_key(keys: &IndexSet<TableKey, KeyedHash>, flow: usize, key: &TableKey) -> bool
    ensures { result ≡ option_map_or (key_eq key.now) (slice_get keys.now.keys flow) false }
{
    match keys.get_index(flow) {
        Some(stored) => key == stored,
        None => false,
    }
}

/// The first flow in the list of the key's target, if it has the key.
///
/// It is found without a hash, and if the mask has no bits there is no other, unless the target was configured anew.
#[inline(always)]
pub fn first_with_key(
    keys: &IndexSet<TableKey, KeyedHash>,
    members: &Members,
    key: &FlowKey,
    table_key: &TableKey,
) -> Option<usize>
    requires distinct { HasDistinctKeys keys.now.keys }
    requires same { table_key.now ≡ key.now }
    ensures number { IfSome result (λ flow. flow ≡ flow_number keys.now.keys key.now) }
    ensures known { IfSome result (λ flow. is_known key.now keys.now.keys ≡ true) }
    ensures within { IfSome result (λ flow. flow < length keys.now.keys) }
{
    let first = members.first(key)?;
    if has_key(keys, first, table_key) {
        Some(first)
    } else {
        None
    }
}

/// The flow with the key, where there is one, by the hash of the key.
pub fn flow_by_hash(keys: &IndexSet<TableKey, KeyedHash>, key: &TableKey) -> Option<usize>
    ensures number { IfSome result (λ flow. flow ≡ flow_number keys.now.keys key.now) }
    ensures known { is_some result ≡ is_known key.now keys.now.keys }
    ensures within { IfSome result (λ flow. flow < length keys.now.keys) }
{
    let flow = keys.get_index_of(key)?;
    Some(flow)
}

/// Takes out the last key, and the flow from the lists.
pub fn forget_last_key(keys: &mut IndexSet<TableKey, KeyedHash>, members: &mut Members, flow: usize)
    ensures keys { keys.new.keys ≡ take (length keys.old.keys - 1) keys.old.keys }
    ensures members { KeepsOthers flow members.old members.new }
{
    if let Some(key) = keys.pop() {
        let key = key.get();
        members.take_out(&Target::Pipe(key.pipe), flow);
        members.take_out(&key.target, flow);
    }
}
