ghost use Rattle.std.specs.Prelude.{◌≡◌, ℕ, ◌<◌, ◌≤◌, ◌^◌, List, [], ◌∷◌, length, max, true, false, IfSome, IfOk, OnErr, IsOk};
ghost use Rattle.std.specs.Vec.{vec_capacity};
ghost use Rattle.dn_types.specs.Calls.{trace_of};
ghost use Rattle.dn_types.specs.Clock.{call_limit, counted, effective_moment};
ghost use Rattle.dn_types.specs.Flows.{keys};
ghost use Rattle.dn_types.specs.Replies.{reply};
ghost use Rattle.dn_types.specs.declared.call.Call.{Call as CallValue};
ghost use Rattle.dn_types.specs.declared.call.Call.TheVariants.{Advance, Collect, Show, Submit};
ghost use Rattle.dn_types.specs.declared.rule.Rule.{Rule as RuleValue};
ghost use Rattle.dn_types.specs.declared.rule.Rule.TheVariants.{Ordered};
ghost use Rattle.dn_shaper.specs.Room.{HasRoomFor, IsNewFlow, KeepsRoom, LeavesRoom};
ghost use Rattle.dn_shaper.specs.Shaper.{CanNeedMemory, StandsAfter, held, items_in};
ghost use Rattle.dn_shaper.specs.Waking.{wake_of};

use crate::calls::advance::advance;
use crate::calls::collect::{collect, collect_lent};
use crate::calls::configure::configure;
use crate::calls::show::show;
use crate::calls::submit::submit;
use crate::links::wake::{earlier, first_free};
use crate::room::reserve_packet::reserve_packet;
use crate::state::{State, new_state};
use dn_flows::HashKey;
use dn_types::{Call, Delivery, Moment, Packet, Reply, Rule, Target};
use std::alloc::{AllocError, Global};
use std::marker::Model;
use std::mem;

/// So many calls are answered. Every further one is answered Exhausted.
const CALL_LIMIT: u64 = 1 << 62;

/// Sequential dummynet: pipes and queues with their flows, links and delay line (ipfw(8); Rizzo 1997).
///
/// Times are in nanoseconds: the moments of calls are at most 2^62, and due moments are below 2^63. Contracts see its
/// state, and say what it is after the calls that it has replied to, newest first.
#[derive(Drop)]
pub struct Shaper {
    state: State,
    /// What a Collect gathers its deliveries in, whose memory serves the next one.
    given: Vec<Delivery>,
    alloc: Global,
}

impl Model for Shaper {
    ghost use Rattle.std.specs.Prelude.{List};
    ghost use Rattle.dn_types.specs.declared.call.Call.{Call};
    ghost use Rattle.dn_types.specs.declared.rule.Rule.{Rule};
    ghost use Rattle.dn_shaper.specs.declared.state.State.{State};
    ghost use Rattle.dn_shaper.specs.Shaper.{StandsAfter};
    ghost use Rattle.dn_shaper.specs.Refinement.Sound.{IsSound};

    ghost Value = { State };

    ghost view = { λ a. a.state };

    ghost invariant = { λ a. IsSound a.state × ((rule : Rule) × (calls : List Call) × StandsAfter rule a.state calls) };
}

impl Shaper {
    /// A shaper before its first call, on whose links due moments never fall. It takes no memory.
    pub fn new(alloc: Global) -> Shaper
        ensures { StandsAfter Ordered result [] }
    {
        Shaper::with_rule(alloc, Rule::Ordered)
    }

    /// A shaper before its first call, with the rule for due moments. It takes no memory.
    pub fn with_rule(alloc: Global, rule: Rule) -> Shaper
        ensures { StandsAfter rule result [] }
    {
        Shaper::with_key(alloc, rule, HashKey(0))
    }

    /// The same with a secret for the table of its flows, for packets that a stranger chooses.
    ///
    /// No reply depends on the key.
    pub fn with_key(alloc: Global, rule: Rule, key: HashKey) -> Shaper
        ensures { StandsAfter rule result [] }
    {
        Shaper {
            state: new_state(alloc, rule, key),
            given: Vec::new(alloc),
            alloc,
        }
    }

    /// Returns dummynet's reply to a call after the calls before it, and Exhausted after 2^62 of them.
    ///
    /// Err says that memory was refused: the call is then as if it had never come. An Advance takes none, and neither does
    /// a call whose reply is Exhausted.
    pub fn apply(&mut self, call: &Call) -> Result<Reply, AllocError>
        ensures ok { IfOk result (λ r. (rule : RuleValue) (calls : List CallValue) → StandsAfter rule self.old calls → (r ≡ reply rule calls call.now) × StandsAfter rule self.new (call.now ∷ calls)) }
        ensures err { OnErr result ((rule : RuleValue) (calls : List CallValue) → StandsAfter rule self.old calls → StandsAfter rule self.new calls) }
        ensures needs { OnErr result ((rule : RuleValue) (calls : List CallValue) → StandsAfter rule self.old calls → CanNeedMemory (counted calls) call.now) }
        ensures advance { (moment : ℕ) → call.now ≡ Advance moment → IsOk result }
        ensures succeeds { HasRoomFor call.now self.old → IsOk result }
        ensures leaves { LeavesRoom call.now self.old self.new }
        ensures exhausted { (rule : RuleValue) (calls : List CallValue) → StandsAfter rule self.old calls → call_limit ≤ length calls → IsOk result }
    {
        if self.state.calls == CALL_LIMIT {
            return Ok(Reply::Exhausted);
        }
        match call {
            Call::Configure(command) => configure(&mut self.state, command),
            Call::Submit {
                target,
                packet,
                moment,
            } => submit(&mut self.state, self.alloc, *target, packet, *moment),
            Call::Advance(moment) => Ok(advance(&mut self.state, *moment)),
            Call::Collect(moment) => {
                collect(&mut self.state, &mut self.given, self.alloc, *moment)
            }
            Call::Show => show(&mut self.state, self.alloc),
        }
    }

    /// Makes room for a Submit of such a packet to the target, and says whether it is there.
    ///
    /// It isn't there only if the packet's flow is new, or after 2^62 calls. While it is there `apply` doesn't refuse that
    /// Submit. An Advance, a Collect, a Show, a Submit of another flow and a further `reserve` leave it, so that room can be made
    /// for a packet of each of many flows before the first of them comes. It is no call: no reply depends on it.
    pub fn reserve(&mut self, target: Target, packet: &Packet) -> Result<bool, AllocError>
        ensures room { IfOk result (λ there. there ≡ true → (moment : ℕ) → HasRoomFor (Submit target packet.now moment) self.new) }
        ensures succeeds { (moment : ℕ) → HasRoomFor (Submit target packet.now moment) self.old → IsOk result }
        ensures leaves { KeepsRoom self.old self.new }
        ensures known { IfOk result (λ there. there ≡ false → (rule : RuleValue) (calls : List CallValue) → StandsAfter rule self.old calls → length calls < call_limit → IsNewFlow target packet.now.tuple calls) }
        ensures same { (rule : RuleValue) (calls : List CallValue) → StandsAfter rule self.old calls → StandsAfter rule self.new calls }
    {
        if self.state.calls == CALL_LIMIT {
            return Ok(false);
        }
        reserve_packet(&mut self.state, target, packet)
    }

    /// As `apply` with a Collect, in a list that is lent. The reply's list then has its memory.
    ///
    /// If it has room for as many as `held` says, this takes no memory. The list's items are forgotten, and after an error the
    /// list too.
    pub fn collect_lent(&mut self, moment: Moment, lent: Vec<Delivery>) -> Result<Reply, AllocError>
        ensures ok { IfOk result (λ r. (rule : RuleValue) (calls : List CallValue) → StandsAfter rule self.old calls → (r ≡ reply rule calls (Collect moment)) × StandsAfter rule self.new (Collect moment ∷ calls)) }
        ensures err { OnErr result ((rule : RuleValue) (calls : List CallValue) → StandsAfter rule self.old calls → StandsAfter rule self.new calls) }
        ensures needs { OnErr result ((rule : RuleValue) (calls : List CallValue) → StandsAfter rule self.old calls → CanNeedMemory (counted calls) (Collect moment)) }
        ensures leaves { KeepsRoom self.old self.new }
        ensures succeeds { (rule : RuleValue) (calls : List CallValue) → StandsAfter rule self.old calls → held rule (trace_of (counted calls)) ≤ vec_capacity lent → IsOk result }
        ensures exhausted { (rule : RuleValue) (calls : List CallValue) → StandsAfter rule self.old calls → call_limit ≤ length calls → IsOk result }
    {
        if self.state.calls == CALL_LIMIT {
            Ok(Reply::Exhausted)
        } else {
            collect_lent(&mut self.state, lent, moment)
        }
    }

    /// Lends the list in which `apply` gathers a Collect's packets, for `collect_lent`.
    pub fn lend(&mut self) -> Vec<Delivery>
        ensures { self.new ≡ self.old }
    {
        mem::replace(&mut self.given, Vec::new(self.alloc))
    }

    /// Takes the list of a Collect's reply, to gather the next one's packets in it.
    pub fn take_back(&mut self, reply: Reply)
        ensures { self.new ≡ self.old }
    {
        if let Reply::Delivered { at: _, list } = reply {
            self.given = list.into_vec();
        }
    }

    /// The count of the calls that were answered, but for those that were answered Exhausted.
    pub fn calls(&self) -> u64
        ensures value { (rule : RuleValue) (calls : List CallValue) → StandsAfter rule self.now calls → result ≡ length (counted calls) }
        ensures bound { result ≤ 2 ^ 62 }
    {
        self.state.calls
    }

    /// When to ask next, in nanoseconds: before it no Collect gives a packet, if no other call comes.
    ///
    /// The Collect's effective moment counts. It is the earliest of the due moments of the packets under way and of the
    /// moments from which the links with a backlog are free. It is None if no packet waits or is under way. A Collect at it
    /// gives a packet, or else one starts by then, and the next result is later.
    pub fn wake(&self) -> Option<u64>
        ensures value { (rule : RuleValue) (calls : List CallValue) → StandsAfter rule self.now calls → result ≡ wake_of rule (trace_of (counted calls)) }
        ensures quiet { (rule : RuleValue) (calls : List CallValue) → StandsAfter rule self.now calls → (moment : ℕ) → IfSome result (λ next. max (effective_moment (counted calls)) moment < next) → items_in (reply rule calls (Collect moment)) ≡ 0 }
        ensures wakes { (rule : RuleValue) (calls : List CallValue) → StandsAfter rule self.now calls → length calls < 2 ^ 62 → (next : ℕ) → result ≡ Some next → trace_of (Advance next ∷ calls) ≡ trace_of calls → 0 < items_in (reply rule calls (Collect next)) }
    {
        let due = self.state.parts.line.first_due();
        earlier(due, first_free(&self.state.heap))
    }

    /// How many packets wait or are under way. The list in the reply to a Collect has at most so many items.
    pub fn held(&self) -> usize
        ensures value { (rule : RuleValue) (calls : List CallValue) → StandsAfter rule self.now calls → result ≡ held rule (trace_of (counted calls)) }
        ensures room { (rule : RuleValue) (calls : List CallValue) → StandsAfter rule self.now calls → (moment : ℕ) → items_in (reply rule calls (Collect moment)) ≤ result }
    {
        let parts = &self.state.parts;
        parts.waiting + parts.line.len()
    }

    /// How many flows there are. The list in the reply to a Show has at most so many items.
    pub fn flows(&self) -> usize
        ensures value { (rule : RuleValue) (calls : List CallValue) → StandsAfter rule self.now calls → result ≡ length (keys (counted calls)) }
        ensures room { (rule : RuleValue) (calls : List CallValue) → StandsAfter rule self.now calls → items_in (reply rule calls Show) ≤ result }
    {
        self.state.parts.flows.len()
    }

    /// The list in the next reply has at most so many items, whatever the call.
    ///
    /// It is the greater of the count of packets that wait or are under way and the count of flows.
    pub fn reply_room(&self) -> usize
        ensures value { (rule : RuleValue) (calls : List CallValue) → StandsAfter rule self.now calls → result ≡ max (held rule (trace_of (counted calls))) (length (keys (counted calls))) }
        ensures room { (rule : RuleValue) (calls : List CallValue) → StandsAfter rule self.now calls → (c : CallValue) → items_in (reply rule calls c) ≤ result }
    {
        self.held().max(self.flows())
    }
}
