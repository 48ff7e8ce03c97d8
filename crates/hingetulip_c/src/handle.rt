ghost use Rattle.std.specs.Prelude.{◌≡◌, ◌≢◌, ◌≤◌, ◌<◌, ℕ, true, false, length, IsOk, List, [], ◌∷◌, Err, IfOk, OnErr, IfErr, IfSome, IfNone, ◌⊎◌};
ghost use Rattle.std.specs.Option.{MatchOption};
ghost use Rattle.std_alloc.specs.Box.Ownership.{box_owns};
ghost use Rattle.dn_types.specs.Clock.{call_limit};
ghost use Rattle.dn_types.specs.declared.call.Call.TheVariants.{Advance, Collect, Show, Submit};
ghost use Rattle.dn_shaper.specs.Shaper.{items_in};
ghost use Rattle.dn_shaper.specs.contracts.shaper.Shaper.{the_row};
ghost use Rattle.dn_shaper.specs.declared.state.State.{State};
ghost use Rattle.hingetulip_c.specs.Handles.{freed, owned_by, After, AnswersHeld, IfReply, IsClosed, LacksMemory, StillHeld, Unanswered};
ghost use Rattle.hingetulip_c.specs.Lists.{held_after, flows_after};
ghost use Rattle.hingetulip_c.specs.Room.{HoldsRoomFor, IsOfNewFlow, StillRoomy};
ghost use base.Stored.{coded_list};

use crate::raw_box::RawBox;
use crate::status::{CLOSED, MEMORY};
use dn_shaper::Shaper;
use dn_types::{Call, Moment, Packet, Reply, Target};
use std::alloc::Global;
use std::marker::Model;

/// A shaper that C holds, or nothing: `dn_handle`.
#[repr(C)]
pub struct Handle {
    at: *mut u8,
    there: bool,
    pub ghost held: { List State } by { coded_list the_row.coded },
}

impl Model for Handle {
    ghost also_owns = { λ h. owned_by (box_owns freed the_row h.at) h.there h.held };
}

impl Handle {
    /// A handle that holds what the pointer owns.
    fn of(shaper: RawBox<Shaper, Global>) -> Handle
        ensures { result.held ≡ shaper.held ∷ [] }
    {
        let RawBox { pointer, alloc: _ } = shaper;
        Handle {
            at: pointer as *mut u8,
            there: true,
        }
    }

    /// A handle that holds nothing.
    fn closed() -> Handle
        ensures { result.held ≡ [] }
    {
        Handle {
            at: std::ptr::null_mut(),
            there: false,
        }
    }

    /// What the handle holds.
    fn into_raw_box(self, alloc: Global) -> Option<RawBox<Shaper, Global>>
        ensures { MatchOption result (self.held ≡ []) (λ b. self.held ≡ b.held ∷ []) }
    {
        let Handle { at, there } = self;
        if there {
            Some(RawBox {
                pointer: at as *mut Shaper,
                alloc,
            })
        } else {
            None
        }
    }

    /// Takes the shaper, and leaves the handle closed.
    pub(crate) fn take(&mut self, alloc: Global) -> Option<Box<Shaper>>
        ensures taken { MatchOption result (self.old.held ≡ []) (λ shaper. self.old.held ≡ shaper.value ∷ []) }
        ensures closed { self.new.held ≡ [] }
    {
        let old = std::mem::replace(self, Handle::closed());
        match old.into_raw_box(alloc) {
            Some(shaper) => Some(shaper.whole()),
            None => None,
        }
    }

    /// Puts a shaper into the handle, and gives back what it held.
    pub(crate) fn put(&mut self, alloc: Global, shaper: Box<Shaper>) -> Option<Box<Shaper>>
        ensures { self.new.held ≡ shaper.value ∷ [] }
    {
        let old = std::mem::replace(self, Handle::of(RawBox::apart(shaper)));
        match old.into_raw_box(alloc) {
            Some(shaper) => Some(shaper.whole()),
            None => None,
        }
    }

    /// Answers a call. Err is CLOSED or MEMORY, and the shaper stands as it stood.
    #[tactic(auto, using(crate::proofs::Rooms::still_roomy, crate::proofs::Rooms::kept_by_call, crate::proofs::Rooms::roomy_closed))]
    pub(crate) fn apply(&mut self, alloc: Global, call: &Call) -> Result<Reply, u32>
        ensures ok { IfOk result (λ r. AnswersHeld call.now self.old.held self.new.held r) }
        ensures err { OnErr result (StillHeld self.old.held self.new.held) }
        ensures closed { self.old.held ≡ [] → (result ≡ Err 5) × (self.new.held ≡ []) }
        ensures why { IfErr result (λ status. Unanswered call.now self.old.held status) }
        ensures stays_open { self.new.held ≡ [] → self.old.held ≡ [] }
        ensures advance { (moment : ℕ) → call.now ≡ Advance moment → IfErr result (λ status. status ≡ 5) }
        ensures succeeds { HoldsRoomFor call.now self.old.held → IsOk result }
        ensures leaves { (moment : ℕ) → (call.now ≡ Advance moment) ⊎ (call.now ≡ Show) → StillRoomy self.old.held self.new.held }
    {
        let Some(mut shaper) = self.take(alloc) else {
            return Err(CLOSED);
        };
        let reply = shaper.apply(call);
        let _none = self.put(alloc, shaper);
        match reply {
            Ok(reply) => Ok(reply),
            Err(_) => Err(MEMORY),
        }
    }

    /// Makes room for a packet's Submit, and says whether it is there. It counts as no call.
    ///
    /// Err is CLOSED or MEMORY.
    #[tactic(auto, using(crate::proofs::Rooms::room_closed, crate::proofs::Rooms::room_none))]
    pub(crate) fn reserve(
        &mut self,
        alloc: Global,
        target: Target,
        packet: &Packet,
    ) -> Result<bool, u32>
        ensures room { IfOk result (λ there. there ≡ true → (moment : ℕ) → HoldsRoomFor (Submit target packet.now moment) self.new.held) }
        ensures succeeds { (moment : ℕ) → HoldsRoomFor (Submit target packet.now moment) self.old.held → IsOk result }
        ensures new_flow { IfOk result (λ there. there ≡ false → After self.old.held (λ rule calls. length calls < call_limit
            → (moment : ℕ) → IsOfNewFlow (Submit target packet.now moment) calls)) }
        ensures same { StillHeld self.old.held self.new.held }
        ensures why { IfErr result (λ status. IsClosed self.old.held status ⊎ LacksMemory self.old.held status) }
        ensures closed { self.old.held ≡ [] → (result ≡ Err 5) × (self.new.held ≡ []) }
        ensures stays_open { self.new.held ≡ [] → self.old.held ≡ [] }
    {
        let Some(mut shaper) = self.take(alloc) else {
            return Err(CLOSED);
        };
        let there = shaper.reserve(target, packet);
        let _none = self.put(alloc, shaper);
        match there {
            Ok(there) => Ok(there),
            Err(_) => Err(MEMORY),
        }
    }

    /// The reply to a Collect, in the shaper's own list. The list is given back by `take_back`.
    ///
    /// Err is CLOSED or MEMORY, and the shaper is then after the same calls.
    #[tactic(auto, using(crate::proofs::Rooms::still_roomy, crate::proofs::Rooms::roomy_closed))]
    pub(crate) fn collect(&mut self, alloc: Global, moment: Moment) -> Result<Reply, u32>
        ensures ok { IfOk result (λ r. AnswersHeld (Collect moment) self.old.held self.new.held r) }
        ensures err { OnErr result (StillHeld self.old.held self.new.held) }
        ensures closed { self.old.held ≡ [] → (result ≡ Err 5) × (self.new.held ≡ []) }
        ensures why { IfErr result (λ status. Unanswered (Collect moment) self.old.held status) }
        ensures stays_open { self.new.held ≡ [] → self.old.held ≡ [] }
        ensures leaves { StillRoomy self.old.held self.new.held }
    {
        let Some(mut shaper) = self.take(alloc) else {
            return Err(CLOSED);
        };
        let list = shaper.lend();
        let reply = shaper.collect_lent(moment, list);
        let _none = self.put(alloc, shaper);
        match reply {
            Ok(reply) => Ok(reply),
            Err(_) => Err(MEMORY),
        }
    }

    /// Takes back the list of a Collect's reply, for the next one.
    pub(crate) fn take_back(&mut self, alloc: Global, reply: Reply)
        ensures { self.new.held ≡ self.old.held }
    {
        if let Some(mut shaper) = self.take(alloc) {
            shaper.take_back(reply);
            let _none = self.put(alloc, shaper);
        }
    }

    /// How many packets the reply to a Collect can have, and None where the handle is closed.
    pub(crate) fn room_for_deliveries(&mut self, alloc: Global) -> Option<usize>
        ensures same { self.new.held ≡ self.old.held }
        ensures room { IfSome result (λ room. After self.old.held (λ rule calls. room ≡ held_after rule calls)) }
        ensures fits { IfSome result (λ room. (moment : ℕ) → IfReply self.old.held (Collect moment) (λ r. items_in r ≤ room)) }
        ensures closed { IfNone result (self.old.held ≡ []) }
        ensures there { IfSome result (λ room. self.old.held ≢ []) }
    {
        let shaper = self.take(alloc)?;
        let room = shaper.held();
        let _none = self.put(alloc, shaper);
        Some(room)
    }

    /// How many flows the reply to a Show can have, and None where the handle is closed.
    pub(crate) fn room_for_flows(&mut self, alloc: Global) -> Option<usize>
        ensures same { self.new.held ≡ self.old.held }
        ensures room { IfSome result (λ room. After self.old.held (λ rule calls. room ≡ flows_after calls)) }
        ensures fits { IfSome result (λ room. IfReply self.old.held Show (λ r. items_in r ≤ room)) }
        ensures closed { IfNone result (self.old.held ≡ []) }
        ensures there { IfSome result (λ room. self.old.held ≢ []) }
    {
        let shaper = self.take(alloc)?;
        let room = shaper.flows();
        let _none = self.put(alloc, shaper);
        Some(room)
    }
}
