ghost use Rattle.std.specs.Prelude.{false, ◌≡◌, ◌+◌, ◌<◌, ◌≤◌, length, true, is_some, IfOk, IfSome, OnOk, OnErr, IsOk};
ghost use Rattle.dn_types.specs.Flows.{flow_number, with_key};
ghost use Rattle.dn_flows.specs.Table.{is_known, flows_with};

use crate::flow_queue::FlowQueue;
use crate::flows::Flows;
use crate::keys::flow_by_hash;
use crate::table_key::TableKey;
use crate::unsent::Unsent;
use dn_types::FlowKey;
use std::alloc::AllocError;

impl Flows {
    /// The number of the flow with the key, if a flow has it. It is found by its hash.
    pub fn find(&self, key: &FlowKey) -> Option<usize>
        ensures number { IfSome result (λ flow. flow ≡ flow_number self.now.keys key.now) }
        ensures known { is_some result ≡ is_known key.now self.now.keys }
        ensures within { IfSome result (λ flow. flow < length self.now.keys) }
    {
        flow_by_hash(&self.keys, &TableKey::new(*key))
    }

    /// The number of the flow with the key, which is found by its hash, or made if no flow has the key.
    ///
    /// It isn't inlined, since most keys are found without.
    #[inline(never)]
    pub(crate) fn find_by_hash_or_make(&mut self, key: TableKey) -> Result<usize, AllocError>
        ensures number { IfOk result (λ flow. flow ≡ flow_number self.old.keys key) }
        ensures within { IfOk result (λ flow. flow < length self.new.flows) }
        ensures keys { OnOk result (self.new.keys ≡ with_key key self.old.keys) }
        ensures flows { OnOk result (self.new.flows ≡ flows_with key self.old) }
        ensures err { OnErr result ((self.new.keys ≡ self.old.keys) × (self.new.flows ≡ self.old.flows)) }
        ensures succeeds { is_known key self.old.keys ≡ true → IsOk result }
        ensures roomy { 0 < self.old.spare → IsOk result }
        ensures spare { OnOk result (self.old.spare ≤ self.new.spare + 1) }
        ensures known { is_known key self.old.keys ≡ true → self.new ≡ self.old }
    {
        if let Some(flow) = flow_by_hash(&self.keys, &key) {
            return Ok(flow);
        }
        self.make(key.get())
    }

    /// Makes the flow of a key that no flow has.
    #[inline(never)]
    fn make(&mut self, key: FlowKey) -> Result<usize, AllocError>
        requires { is_known key self.old.keys ≡ false }
        ensures number { IfOk result (λ flow. flow ≡ flow_number self.old.keys key) }
        ensures within { IfOk result (λ flow. flow < length self.new.flows) }
        ensures keys { OnOk result (self.new.keys ≡ with_key key self.old.keys) }
        ensures flows { OnOk result (self.new.flows ≡ flows_with key self.old) }
        ensures err { OnErr result ((self.new.keys ≡ self.old.keys) × (self.new.flows ≡ self.old.flows)) }
        ensures roomy { 0 < self.old.spare → IsOk result }
        ensures spare { OnOk result (self.old.spare ≤ self.new.spare + 1) }
    {
        let table_key = TableKey::new(key);
        // The places beside the key come first, so that nothing can fail once the key is in.
        self.queues.reserve(1)?;
        self.unsent.reserve(1)?;
        let flow = self.queues.len();
        let Ok(_) = self.keys.insert_full(table_key) else {
            return Err(AllocError);
        };
        let queue = FlowQueue::new();
        self.queues.push_reserved(queue);
        self.unsent.push_reserved(Unsent {
            lost: 0,
            full: 0,
            discarded: 0,
        });
        Ok(flow)
    }
}
