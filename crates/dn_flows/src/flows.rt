ghost use Rattle.std.specs.Prelude.{false, ◌≡◌, ◌+◌, ◌-◌, ◌<◌, ◌≤◌, ◌^◌, [], take, length, nat_lt, sum, slice_get, slice_set, true, Some, IfOk, OnOk, OnErr, IsOk};
ghost use Rattle.dn_types.specs.Flows.{flow_number, with_key};
ghost use Rattle.dn_flows.specs.Table.{flow_at, is_known, flows_with, IsUnused, lengths, verdict_of, with_place, pushed, popped, one_lost, one_full, emptied, status_of};

mod active;
mod find;
mod homes;
mod pass;
mod places;
mod second;

use crate::drop_rule::DropRule;
use crate::flow_queue::FlowQueue;
use crate::hash_key::HashKey;
use crate::keyed_hash::KeyedHash;
use crate::keys::{first_with_key, forget_last_key};
use crate::listed::list;
use crate::members::Members;
use crate::packet_store::PacketStore;
use crate::table_key::TableKey;
use crate::unsent::Unsent;
use crate::verdict::Verdict;
use crate::waiting::Waiting;
use dn_types::{FlowKey, FlowStatus, Packet};
use indexmap::IndexSet;
use std::alloc::{AllocError, Global};
use std::marker::Model;

/// The flows, numbered from 0 in order of first sight.
///
/// Contracts see the keys and the states of the flows as two lists. Flows never expire.
///
/// The packets of all queues lie in one store, in which the place that a packet left last is taken
/// first. So the memory that is in use stays small and near, where a buffer for each queue would be
/// gone through round and round.
#[derive(Drop)]
pub struct Flows {
    keys: IndexSet<TableKey, KeyedHash>,
    queues: Vec<FlowQueue>,
    /// The other counts of each flow, in the order of the queues.
    unsent: Vec<Unsent>,
    packets: PacketStore,
    /// The count of flows with a reserved place. The store has room for a packet of each.
    reserved: usize,
    members: Members,
}

impl Model for Flows {
    ghost use Rattle.std.specs.Prelude.{◌≡◌, length, map};
    ghost use Rattle.dn_flows.specs.Members.{AreListed};
    ghost use Rattle.dn_flows.specs.Store.{AreStored, HasReserved, all_with_unsent, spare_of, state_of};
    ghost use Rattle.dn_flows.specs.Table.{Table};
    ghost use Rattle.indexmap.specs.IndexSet.{spare};

    ghost Value = { Table };

    ghost view = { λ a. record { keys = a.keys.keys; flows = all_with_unsent (map (state_of a.packets) a.queues.items) a.unsent.items; spare = spare_of a.queues a.unsent (spare a.keys) } };

    ghost invariant = { λ a. (length a.keys.keys ≡ length a.queues.items) × HasReserved a.packets a.queues.items a.reserved × AreStored a.packets a.queues.items × (length a.unsent.items ≡ length a.queues.items) × AreListed a.keys.keys a.queues.items a.members };
}

impl Flows {
    /// The table without a flow, whose hash has no secret: for packets that no stranger chooses.
    ///
    /// It takes no memory.
    pub fn new(alloc: Global) -> Flows
        ensures keys { result.keys ≡ [] }
        ensures flows { result.flows ≡ [] }
    {
        Flows::with_key(alloc, HashKey(0))
    }

    /// The table without a flow, which hashes by the key. It takes no memory.
    pub fn with_key(alloc: Global, key: HashKey) -> Flows
        ensures keys { result.keys ≡ [] }
        ensures flows { result.flows ≡ [] }
    {
        Flows {
            keys: IndexSet::with_hasher(alloc, KeyedHash::new(key)),
            queues: Vec::new(alloc),
            unsent: Vec::new(alloc),
            packets: PacketStore::new(alloc),
            reserved: 0,
            members: Members::new(alloc),
        }
    }

    /// The count of flows.
    pub fn len(&self) -> usize
        ensures flows { result ≡ length self.now.flows }
        ensures keys { result ≡ length self.now.keys }
    {
        self.queues.len()
    }

    /// The number of the flow with the key, which is made if no flow has it.
    ///
    /// A key that is known takes no memory. It is inlined, so that if the first flow of the target has the key, this is
    /// never written.
    #[inline(always)]
    pub fn find_or_make(&mut self, key: FlowKey) -> Result<usize, AllocError>
        ensures number { IfOk result (λ flow. flow ≡ flow_number self.old.keys key) }
        ensures within { IfOk result (λ flow. flow < length self.new.flows) }
        ensures keys { OnOk result (self.new.keys ≡ with_key key self.old.keys) }
        ensures flows { OnOk result (self.new.flows ≡ flows_with key self.old) }
        ensures err { OnErr result ((self.new.keys ≡ self.old.keys) × (self.new.flows ≡ self.old.flows)) }
        ensures succeeds { is_known key self.old.keys ≡ true → IsOk result }
        ensures roomy { 0 < self.old.spare → IsOk result }
        ensures spare { OnOk result (self.old.spare ≤ self.new.spare + 1) }
        ensures known { is_known key self.old.keys ≡ true → self.new ≡ self.old }
    {
        let table_key = TableKey::new(key);
        if let Some(flow) = first_with_key(&self.keys, &self.members, &key, &table_key) {
            return Ok(flow);
        }
        self.find_by_hash_or_make(table_key)
    }

    /// Makes room in the table for `n` new flows, which are then made without memory.
    ///
    /// A packet of such a flow may take memory still.
    pub fn reserve_flows(&mut self, n: usize) -> Result<(), AllocError>
        ensures ok { OnOk result (n ≤ self.new.spare) }
        ensures succeeds { n ≤ self.old.spare → IsOk result }
        ensures keys { self.new.keys ≡ self.old.keys }
        ensures flows { self.new.flows ≡ self.old.flows }
        ensures spare { self.old.spare ≤ self.new.spare }
    {
        self.queues.reserve(n)?;
        self.unsent.reserve(n)?;
        self.keys.reserve(n)
    }

    /// Takes out the flow that was made last, for a caller that made it and then found no memory.
    pub fn forget_last(&mut self)
        requires some { 0 < length self.old.flows }
        requires unused { IsUnused (flow_at self.old.flows (length self.old.flows - 1)) }
        ensures keys { self.new.keys ≡ take (length self.old.keys - 1) self.old.keys }
        ensures flows { self.new.flows ≡ take (length self.old.flows - 1) self.old.flows }
    {
        let flow = self.keys.len().saturating_sub(1);
        forget_last_key(&mut self.keys, &mut self.members, flow);
        let _ = self.unsent.pop();
        if let Some(queue) = self.queues.pop()
            && queue.reserved
        {
            self.reserved -= 1;
        }
    }

    /// The key of the flow.
    pub fn key(&self, flow: usize) -> FlowKey
        requires { flow < length self.now.flows }
        ensures { slice_get self.now.keys flow ≡ Some result }
    {
        self.keys.get_index(flow).unwrap().get()
    }

    /// The state of the flow, as `Show` answers it.
    pub fn status(&self, flow: usize) -> FlowStatus
        requires { flow < length self.now.flows }
        ensures value { result ≡ status_of flow result.key (flow_at self.now.flows flow) }
        ensures key { slice_get self.now.keys flow ≡ Some result.key }
        ensures bytes { result.bytes < 2 ^ 32 }
    {
        let queue = &self.queues[flow];
        let unsent = &self.unsent[flow];
        let key = self.key(flow);
        FlowStatus {
            flow,
            key,
            queued: queue.len as u64,
            bytes: u64::from(queue.bytes),
            lost: unsent.lost,
            full: unsent.full,
            started: queue.started,
            discarded: unsent.discarded,
        }
    }

    /// Whether a packet waits in the flow's queue. None waits in that of a flow that isn't there.
    pub fn has_backlog(&self, flow: usize) -> bool
        ensures { result ≡ nat_lt 0 (length (flow_at self.now.flows flow).backlog) }
    {
        match self.queues.get(flow) {
            Some(queue) => queue.len > 0,
            None => false,
        }
    }

    /// What becomes of a packet of the flow.
    ///
    /// A packet that is taken fits: the bytes queued with it are below 2^32.
    pub fn verdict(&self, flow: usize, packet: &Packet, rule: &DropRule) -> Verdict
        requires { flow < length self.now.flows }
        ensures value { result ≡ verdict_of rule.now.loss rule.now.limit packet.now.word (flow_at self.now.flows flow).backlog }
        ensures fits { result ≡ Verdict.Take → sum (lengths (flow_at self.now.flows flow).backlog) + packet.now.len < 2 ^ 32 }
    {
        self.queues[flow].verdict(packet, rule)
    }

    /// Reserves a place in the flow's queue.
    ///
    /// It stays reserved until the next push to that queue, or until a delete goes through the flows of its pipe or its queue.
    #[inline(always)]
    pub fn reserve_place(&mut self, flow: usize) -> Result<(), AllocError>
        requires { flow < length self.old.flows }
        ensures reserved { OnOk result (self.new.flows ≡ slice_set self.old.flows flow (with_place (flow_at self.old.flows flow))) }
        ensures keys { self.new.keys ≡ self.old.keys }
        ensures err { OnErr result ((self.new.keys ≡ self.old.keys) × (self.new.flows ≡ self.old.flows)) }
        ensures succeeds { (flow_at self.old.flows flow).reserved ≡ true → IsOk result }
        ensures spare { self.new.spare ≡ self.old.spare }
    {
        let queue = &mut self.queues[flow];
        if queue.reserved {
            return Ok(());
        }
        list(&mut self.members, queue, &self.keys, flow)?;
        self.packets.reserve(self.reserved + 1)?;
        queue.reserved = true;
        self.reserved += 1;
        Ok(())
    }

    /// Puts a packet at the end of the flow's queue, in the place that was reserved.
    pub fn push_reserved(&mut self, flow: usize, waiting: Waiting)
        requires within { flow < length self.old.flows }
        requires reserved { (flow_at self.old.flows flow).reserved ≡ true }
        requires bytes { sum (lengths (flow_at self.old.flows flow).backlog) + waiting.len < 2 ^ 32 }
        ensures flows { self.new.flows ≡ slice_set self.old.flows flow (pushed waiting (flow_at self.old.flows flow)) }
        ensures keys { self.new.keys ≡ self.old.keys }
        ensures spare { self.new.spare ≡ self.old.spare }
    {
        let queue = &mut self.queues[flow];
        queue.push_back(&mut self.packets, waiting);
        self.reserved -= 1;
    }

    /// Takes the first packet out of the flow's queue and counts its start.
    pub fn pop_front(&mut self, flow: usize) -> Option<Waiting>
        requires within { flow < length self.old.flows }
        requires count { (flow_at self.old.flows flow).started < 2 ^ 62 }
        ensures front { result ≡ slice_get (flow_at self.old.flows flow).backlog 0 }
        ensures flows { self.new.flows ≡ slice_set self.old.flows flow (popped (flow_at self.old.flows flow)) }
        ensures keys { self.new.keys ≡ self.old.keys }
        ensures spare { self.new.spare ≡ self.old.spare }
    {
        let queue = &mut self.queues[flow];
        let first = queue.pop_front(&mut self.packets)?;
        queue.started += 1;
        Some(first)
    }

    /// Counts a packet of the flow that was lost by the loss rate.
    pub fn note_lost(&mut self, flow: usize)
        requires within { flow < length self.old.flows }
        requires count { (flow_at self.old.flows flow).lost < 2 ^ 62 }
        ensures flows { self.new.flows ≡ slice_set self.old.flows flow (one_lost (flow_at self.old.flows flow)) }
        ensures keys { self.new.keys ≡ self.old.keys }
        ensures spare { self.new.spare ≡ self.old.spare }
    {
        let unsent = &mut self.unsent[flow];
        unsent.lost += 1;
    }

    /// Counts a packet of the flow that was refused by its full queue.
    pub fn note_full(&mut self, flow: usize)
        requires within { flow < length self.old.flows }
        requires count { (flow_at self.old.flows flow).full < 2 ^ 62 }
        ensures flows { self.new.flows ≡ slice_set self.old.flows flow (one_full (flow_at self.old.flows flow)) }
        ensures keys { self.new.keys ≡ self.old.keys }
        ensures spare { self.new.spare ≡ self.old.spare }
    {
        let unsent = &mut self.unsent[flow];
        unsent.full += 1;
    }

    /// Empties the flow's queue, as a delete does, and counts its packets as discarded.
    pub fn discard(&mut self, flow: usize)
        requires within { flow < length self.old.flows }
        requires count { (flow_at self.old.flows flow).discarded + length (flow_at self.old.flows flow).backlog ≤ 2 ^ 62 }
        ensures flows { self.new.flows ≡ slice_set self.old.flows flow (emptied (flow_at self.old.flows flow)) }
        ensures keys { self.new.keys ≡ self.old.keys }
        ensures spare { self.new.spare ≡ self.old.spare }
    {
        let queue = &mut self.queues[flow];
        let count = queue.len as u64;
        queue.clear(&mut self.packets);
        queue.active = false;
        let unsent = &mut self.unsent[flow];
        unsent.discarded += count;
    }
}
