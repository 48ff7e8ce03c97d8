ghost use Rattle.std.specs.Prelude.{◌≡◌, ◌<◌, ◌≤◌, ℕ, List, [], ◌∷◌, length, max, IfOk, IfSome, OnErr, IsOk};
ghost use Rattle.dn_types.specs.Calls.{trace_of};
ghost use Rattle.dn_types.specs.Clock.{call_limit, counted, effective_moment};
ghost use Rattle.dn_types.specs.Flows.{keys};
ghost use Rattle.dn_types.specs.Replies.{reply};
ghost use Rattle.dn_types.specs.declared.call.Call.{Call as CallValue};
ghost use Rattle.dn_types.specs.declared.call.Call.TheVariants.{Advance, Collect};
ghost use Rattle.dn_types.specs.declared.rule.Rule.{Rule as RuleValue};
ghost use Rattle.dn_shaper.specs.Shaper.{CanNeedMemory, held, items_in};
ghost use Rattle.dn_shaper.specs.Waking.{wake_of};

use crate::shaper::Shaper;
use dn_flows::HashKey;
use dn_types::{Call, Reply, Rule};
use std::alloc::{AllocError, Global};

/// What sequential dummynet promises, without a word on how its state is kept: a `Shaper` is one.
///
/// `stands rule emulator calls` says that the emulator stands after the calls, newest first. Each emulator has its own, which
/// `begin` gives and `apply` keeps. A caller needs no more of it, and nobody has to read or to believe it.
pub trait Emulator {
    ghost stands: { RuleValue → Self → List CallValue → Type 0 };

    /// An emulator before its first call, with the rule for due moments and the key of its flows' hash.
    fn begin(alloc: Global, rule: Rule, key: HashKey) -> Self
        ensures { stands rule result [] };

    /// Returns dummynet's reply to a call after the calls before it, and Exhausted after 2^62 of them.
    ///
    /// Err says that memory was refused: the call is then as if it had never come. An Advance takes none, and neither does
    /// a call whose reply is Exhausted.
    fn apply(&mut self, call: &Call) -> Result<Reply, AllocError>
        ensures ok { IfOk result (λ r. (rule : RuleValue) (calls : List CallValue) → stands rule self.old calls → (r ≡ reply rule calls call.now) × stands rule self.new (call.now ∷ calls)) }
        ensures err { OnErr result ((rule : RuleValue) (calls : List CallValue) → stands rule self.old calls → stands rule self.new calls) }
        ensures needs { OnErr result ((rule : RuleValue) (calls : List CallValue) → stands rule self.old calls → CanNeedMemory (counted calls) call.now) }
        ensures advance { (moment : ℕ) → call.now ≡ Advance moment → IsOk result }
        ensures exhausted { (rule : RuleValue) (calls : List CallValue) → stands rule self.old calls → call_limit ≤ length calls → IsOk result };

    /// When to ask next, in nanoseconds: before it no Collect gives a packet, if no other call comes.
    ///
    /// The Collect's effective moment counts. None if no packet waits or is under way.
    fn wake(&self) -> Option<u64>
        ensures value { (rule : RuleValue) (calls : List CallValue) → stands rule self.now calls → result ≡ wake_of rule (trace_of (counted calls)) }
        ensures quiet { (rule : RuleValue) (calls : List CallValue) → stands rule self.now calls → (moment : ℕ) → IfSome result (λ next. max (effective_moment (counted calls)) moment < next) → items_in (reply rule calls (Collect moment)) ≡ 0 };

    /// The list in the next reply has at most so many items, whatever the call.
    fn reply_room(&self) -> usize
        ensures value { (rule : RuleValue) (calls : List CallValue) → stands rule self.now calls → result ≡ max (held rule (trace_of (counted calls))) (length (keys (counted calls))) }
        ensures room { (rule : RuleValue) (calls : List CallValue) → stands rule self.now calls → (c : CallValue) → items_in (reply rule calls c) ≤ result };
}

impl Emulator for Shaper {
    ghost use Rattle.dn_shaper.specs.Shaper.{StandsAfter};

    ghost stands = { StandsAfter };

    fn begin(alloc: Global, rule: Rule, key: HashKey) -> Shaper {
        Shaper::with_key(alloc, rule, key)
    }

    fn apply(&mut self, call: &Call) -> Result<Reply, AllocError> {
        Shaper::apply(self, call)
    }

    fn wake(&self) -> Option<u64> {
        Shaper::wake(self)
    }

    fn reply_room(&self) -> usize {
        Shaper::reply_room(self)
    }
}
