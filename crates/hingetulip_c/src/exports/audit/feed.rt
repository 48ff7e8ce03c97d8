ghost use Rattle.std.specs.Prelude.{◌≡◌, ◌≢◌, ◌≤◌, ◌<◌, ◌⊎◌, ◌++◌, ℕ, List, [], length};
ghost use Rattle.hingetulip_c.specs.Audits.{HoldsText, unfed_status};

use crate::audit_handle::AuditHandle;
use crate::status::{CLOSED, MEMORY, OK, TOO_LONG};
use dn_files::ReplayFault;
use std::alloc::Global;

/// The status of a part that wasn't taken.
fn status_of(fault: ReplayFault) -> u32
    ensures status { result ≡ unfed_status fault }
    ensures statuses { (result ≡ 6) ⊎ (result ≡ 23) }
    ensures refused { result ≢ 0 }
{
    match fault {
        ReplayFault::TooLong(_) => TOO_LONG,
        _ => MEMORY,
    }
}

/// Takes the next part of a history file. Under any status but DN_OK the handle is closed.
#[tactic(auto, using(crate::proofs::Audits::goes_on, crate::proofs::Audits::fits, crate::proofs::Audits::closed_fits, crate::proofs::Audits::too_long, crate::proofs::Audits::lacks_memory))]
#[unsafe(no_mangle)]
pub extern "C" fn dn_audit_feed(alloc: Global, audit: &mut AuditHandle, text: &[u8]) -> u32
    ensures fed { result ≡ 0 → (limit : ℕ) (before : List ℕ) → HoldsText limit audit.old.held before → HoldsText limit audit.new.held (before ++ text.now) }
    ensures ended { result ≢ 0 → audit.new.held ≡ [] }
    ensures too_long { result ≡ 23 → (limit : ℕ) (before : List ℕ) → HoldsText limit audit.old.held before → limit < length (before ++ text.now) }
    ensures fits { result ≢ 23 → (limit : ℕ) (before : List ℕ) → HoldsText limit audit.old.held before → length (before ++ text.now) ≤ limit }
    ensures why { result ≢ 0 → ((result ≡ 5) × (audit.old.held ≡ [])) ⊎ (((result ≡ 6) ⊎ (result ≡ 23)) × (audit.old.held ≢ [])) }
    ensures closed { audit.old.held ≡ [] → result ≡ 5 }
{
    let Some(mut begun) = audit.take(alloc) else {
        return CLOSED;
    };
    match begun.feed(text) {
        Ok(()) => {
            let _none = audit.put(alloc, begun);
            OK
        }
        Err(fault) => {
            drop(begun);
            status_of(fault)
        }
    }
}
