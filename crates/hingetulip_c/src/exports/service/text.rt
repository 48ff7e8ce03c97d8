ghost use Rattle.std.specs.Prelude.{◌≡◌, ◌≢◌, ◌≤◌, drop, length, take};
ghost use Rattle.hingetulip_c.specs.Services.{NotWritten, Wrote, count_waiting};

use crate::service_handle::ServiceHandle;
use crate::status::CLOSED;
use std::alloc::Global;

/// Writes the first entry that waits, as lines of a history file.
#[tactic(auto, using(crate::proofs::Serving::holds_both))]
#[unsafe(no_mangle)]
pub extern "C" fn dn_service_text(
    alloc: Global,
    service: &mut ServiceHandle,
    text: &mut [u8],
    size: &mut u64,
) -> u32
    ensures wrote { result ≡ 0 → Wrote (take size.new text.new) service.old.held service.new.held }
    ensures within { result ≡ 0 → size.new ≤ length text.new }
    ensures others { result ≡ 0 → drop size.new text.new ≡ drop size.new text.old }
    ensures refused { result ≢ 0 → (service.new.held ≡ service.old.held) × (text.new ≡ text.old) }
    ensures why { result ≢ 0 → NotWritten (length text.old) size.new service.old.held result }
    ensures memory { result ≡ 6 → count_waiting service.old.held ≢ 0 }
    ensures size { result ≢ 0 → result ≢ 7 → size.new ≡ size.old }
{
    let Some(mut ledger) = service.take(alloc) else {
        return CLOSED;
    };
    let status = ledger.write_next(alloc, text, size);
    let _none = service.put(alloc, ledger);
    status
}
