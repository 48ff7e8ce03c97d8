ghost use Rattle.std.specs.Prelude.{◌≡◌, ◌+◌, ◌-◌, ℕ, [], cond, length, take, false, Some, OnOk};
ghost use Rattle.dn_flows.specs.Members.{IsMember, KeepsMembers, KeepsOthers, last_of, list_of};
ghost use Rattle.dn_types.specs.Configuration.{target_eq};
ghost use Rattle.dn_types.specs.declared.target.Target.{Target as TargetValue};

use crate::by_number::ByNumber;
use dn_types::{FlowKey, Target};
use std::alloc::{AllocError, Global};

/// The flows on each pipe and those of each queue that a delete goes through.
///
/// A flow that a delete has reset leaves the list until it has a packet again, so that a delete costs the flows that have
/// something to reset.
#[derive(Drop)]
pub struct Members {
    pub on_pipes: ByNumber,
    pub of_queues: ByNumber,
}

impl Members {
    /// Of no flow. It takes no memory.
    pub fn new(alloc: Global) -> Members
        ensures { (target : TargetValue) → list_of target result ≡ [] }
    {
        Members {
            on_pipes: ByNumber::new(alloc),
            of_queues: ByNumber::new(alloc),
        }
    }

    /// Puts the flow at the end of the target's list.
    pub fn push(&mut self, target: &Target, flow: usize) -> Result<(), AllocError>
        ensures joins { OnOk result (IsMember target.now flow self.new) }
        ensures keeps { KeepsMembers self.old self.new }
    {
        match target {
            Target::Pipe(pipe) => self.on_pipes.push(*pipe, flow),
            Target::Queue(queue) => self.of_queues.push(*queue, flow),
        }
    }

    /// The flow at the end of the target's list.
    pub fn last(&self, target: &Target) -> Option<usize>
        ensures { result ≡ last_of (list_of target.now self.now) }
    {
        match target {
            Target::Pipe(pipe) => self.on_pipes.last(*pipe),
            Target::Queue(queue) => self.of_queues.last(*queue),
        }
    }

    /// A flow of the key's target that is likely to have the key: the first in the target's list.
    pub fn first(&self, key: &FlowKey) -> Option<usize> {
        match key.target {
            Target::Pipe(_) => self.on_pipes.get(key.pipe, 0),
            Target::Queue(queue) => self.of_queues.get(queue, 0),
        }
    }

    /// Takes the last flow out of the list of the target.
    fn pop(&mut self, target: &Target)
        ensures { (other : TargetValue) → list_of other self.new ≡ cond (target_eq target.now other) (take (length (list_of other self.old) - 1) (list_of other self.old)) (list_of other self.old) }
    {
        match target {
            Target::Pipe(pipe) => self.on_pipes.pop(*pipe),
            Target::Queue(queue) => self.of_queues.pop(*queue),
        }
    }

    /// Takes the flow out of the end of the target's list, if it is there.
    pub fn take_out(&mut self, target: &Target, flow: usize)
        ensures keeps { KeepsOthers flow self.old self.new }
        ensures others { (other : TargetValue) → target_eq target.now other ≡ false → list_of other self.new ≡ list_of other self.old }
        ensures fewer { last_of (list_of target.now self.old) ≡ Some flow → length (list_of target.now self.new) + 1 ≡ length (list_of target.now self.old) }
    {
        if let Some(last) = self.last(target)
            && last == flow
        {
            self.pop(target);
        }
    }
}
