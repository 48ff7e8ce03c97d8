ghost use Rattle.std.specs.Prelude.{◌≡◌, ◌≢◌, ◌⊎◌, ℕ, [], ◌∷◌, OnOk, IfErr, true, false};
ghost use Rattle.dn_types.specs.declared.reply.Reply.TheVariants.{Exhausted};
ghost use Rattle.hingetulip_c.specs.Clients.{IsAnswered, IsOther, RefusedBy, Woke};
ghost use Rattle.hingetulip_c.specs.Statuses.{answered, taken, clock_status, clock_of, list_status, list_count, configure_status};
ghost use Rattle.hingetulip_c.specs.Submits.{fate_status, fate_of};

use crate::records::CFate;
use crate::status::{BUSY, MEMORY, OK};
use crate::written::{command_status, or_never, put_clock, put_count, put_fate};
use dn_service::{Caller, TryFault};
use dn_types::{Call, Reply};
use std::mem;

/// A caller of a service, and the reply to the last of its calls that was answered.
#[derive(Drop)]
pub struct Client {
    pub(crate) caller: Caller,
    pub(crate) last: Reply,
}

impl Client {
    /// A caller that made no call, with a reply that tells nothing.
    pub(crate) fn new(caller: Caller) -> Client
        ensures { result ≡ record { caller = caller; last = Exhausted } }
    {
        Client {
            caller,
            last: Reply::Exhausted,
        }
    }

    /// Makes a call if no other caller is in one, and keeps the reply.
    ///
    /// Err is MEMORY, or BUSY with the number of the other caller.
    #[tactic(auto, using(crate::proofs::Serving::lost_to, crate::proofs::Serving::lacked))]
    fn apply(&mut self, call: &Call, holder: &mut u64) -> Result<(), u32>
        ensures ok { OnOk result (IsAnswered call.now self.old self.new) }
        ensures err { IfErr result (λ status. RefusedBy status holder.new (self.old ∷ []) (self.new ∷ [])) }
        ensures why { IfErr result (λ status. ((status ≡ 6) × (holder.new ≡ holder.old)) ⊎ ((status ≡ 15) × IsOther holder.new self.old.caller)) }
        ensures same_holder { OnOk result (holder.new ≡ holder.old) }
    {
        match self.caller.try_call_quietly(call) {
            Ok(reply) => {
                drop(mem::replace(&mut self.last, reply));
                Ok(())
            }
            Err(TryFault::Busy(number)) => {
                *holder = number as u64;
                Err(BUSY)
            }
            Err(TryFault::OutOfMemory) => Err(MEMORY),
        }
    }

    /// Makes a Submit, and writes the fate.
    pub(crate) fn submit(&mut self, call: &Call, fate: &mut CFate, holder: &mut u64) -> u32
        ensures refused { answered result ≡ false → RefusedBy result holder.new (self.old ∷ []) (self.new ∷ []) × (fate.new ≡ fate.old) }
        ensures why { answered result ≡ false → (result ≡ 6) ⊎ ((result ≡ 15) × IsOther holder.new self.old.caller) }
        ensures holder { result ≢ 15 → holder.new ≡ holder.old }
        ensures answered { answered result ≡ true → IsAnswered call.now self.old self.new }
        ensures status { answered result ≡ true → result ≡ fate_status self.new.last }
        ensures fate { answered result ≡ true → fate.new ≡ fate_of fate.old self.new.last }
    {
        match self.apply(call, holder) {
            Ok(()) => put_fate(&self.last, fate),
            Err(status) => status,
        }
    }

    /// Makes an Advance, and writes where the clock is.
    pub(crate) fn advance(&mut self, call: &Call, at: &mut u64, holder: &mut u64) -> u32
        ensures refused { answered result ≡ false → RefusedBy result holder.new (self.old ∷ []) (self.new ∷ []) × (at.new ≡ at.old) }
        ensures why { answered result ≡ false → (result ≡ 6) ⊎ ((result ≡ 15) × IsOther holder.new self.old.caller) }
        ensures holder { result ≢ 15 → holder.new ≡ holder.old }
        ensures answered { answered result ≡ true → IsAnswered call.now self.old self.new }
        ensures status { answered result ≡ true → result ≡ clock_status self.new.last }
        ensures clock { answered result ≡ true → at.new ≡ clock_of at.old self.new.last }
    {
        match self.apply(call, holder) {
            Ok(()) => put_clock(&self.last, at),
            Err(status) => status,
        }
    }

    /// Makes a Collect or a Show, and writes how many items the list of its reply has. The reply that is kept has them.
    pub(crate) fn list(&mut self, call: &Call, count: &mut u64, holder: &mut u64) -> u32
        ensures refused { answered result ≡ false → RefusedBy result holder.new (self.old ∷ []) (self.new ∷ []) × (count.new ≡ count.old) }
        ensures why { answered result ≡ false → (result ≡ 6) ⊎ ((result ≡ 15) × IsOther holder.new self.old.caller) }
        ensures holder { result ≢ 15 → holder.new ≡ holder.old }
        ensures answered { answered result ≡ true → IsAnswered call.now self.old self.new }
        ensures status { answered result ≡ true → result ≡ list_status self.new.last }
        ensures count { answered result ≡ true → count.new ≡ list_count count.old self.new.last }
    {
        match self.apply(call, holder) {
            Ok(()) => put_count(&self.last, count),
            Err(status) => status,
        }
    }

    /// Makes a Configure.
    pub(crate) fn configure(&mut self, call: &Call, holder: &mut u64) -> u32
        ensures refused { taken result ≡ false → RefusedBy result holder.new (self.old ∷ []) (self.new ∷ []) }
        ensures why { taken result ≡ false → (result ≡ 6) ⊎ ((result ≡ 15) × IsOther holder.new self.old.caller) }
        ensures holder { result ≢ 15 → holder.new ≡ holder.old }
        ensures answered { taken result ≡ true → IsAnswered call.now self.old self.new }
        ensures status { taken result ≡ true → result ≡ configure_status self.new.last }
    {
        match self.apply(call, holder) {
            Ok(()) => command_status(&self.last),
            Err(status) => status,
        }
    }

    /// Writes when the emulator's next packet is due or starts. It makes no call, and the reply that is kept stays.
    #[tactic(auto, using(crate::proofs::Serving::lost_to))]
    pub(crate) fn wake(&mut self, moment: &mut u64, holder: &mut u64) -> u32
        ensures woke { result ≡ 0 → Woke moment.new self.old self.new }
        ensures refused { result ≢ 0 → (result ≡ 15) × IsOther holder.new self.old.caller × RefusedBy result holder.new (self.old ∷ []) (self.new ∷ []) × (moment.new ≡ moment.old) }
        ensures holder { result ≢ 15 → holder.new ≡ holder.old }
    {
        match self.caller.try_wake_quietly() {
            Ok(next) => {
                *moment = or_never(next);
                OK
            }
            Err(other) => {
                *holder = other as u64;
                BUSY
            }
        }
    }
}
