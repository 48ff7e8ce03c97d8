ghost use Rattle.std.specs.Prelude.{◌≡◌, ◌≢◌, ◌⊎◌};
ghost use Rattle.hingetulip_c.specs.Handles.{IsClosed};
ghost use Rattle.hingetulip_c.specs.Services.{NotTaken, Taken, IsServiceBusyWith, count_waiting};

use crate::service_handle::ServiceHandle;
use crate::status::CLOSED;
use std::alloc::Global;

/// Takes out all entries so far, which then wait to be written.
#[tactic(auto, using(crate::proofs::Serving::holds, crate::proofs::Serving::holds_both, crate::proofs::Serving::not_taken))]
#[unsafe(no_mangle)]
pub extern "C" fn dn_service_take(
    alloc: Global,
    service: &mut ServiceHandle,
    start: &mut u64,
    count: &mut u64,
    holder: &mut u64,
) -> u32
    ensures taken { result ≡ 0 → Taken start.new service.old.held service.new.held }
    ensures count { result ≡ 0 → count.new ≡ count_waiting service.new.held }
    ensures refused { result ≢ 0 → NotTaken result holder.new service.old.held service.new.held × (start.new ≡ start.old) × (count.new ≡ count.old) }
    ensures why { result ≢ 0 → IsClosed service.old.held result ⊎ ((result ≡ 17) × (count_waiting service.old.held ≢ 0)) ⊎ ((result ≡ 15) × IsServiceBusyWith holder.new service.old.held) }
    ensures holder { result ≢ 15 → holder.new ≡ holder.old }
{
    let Some(mut ledger) = service.take(alloc) else {
        return CLOSED;
    };
    let status = ledger.take_out(start, count, holder);
    let _none = service.put(alloc, ledger);
    status
}
