ghost use Rattle.std.specs.Prelude.{◌≡◌, ◌⊎◌, []};
ghost use Rattle.hingetulip_c.specs.Audits.{HoldsText};

use crate::audit_handle::AuditHandle;
use crate::status::{MEMORY, OK};
use dn_history::FileAudit;
use dn_shaper::HashKey;
use std::alloc::Global;

/// Opens an audit by the key of its flows' hash. What the handle held is let go.
#[tactic(auto, using(crate::proofs::Audits::holds_text))]
fn open(alloc: Global, audit: &mut AuditHandle, limit: usize, key: HashKey) -> u32
    ensures opened { result ≡ 0 → HoldsText limit audit.new.held [] }
    ensures memory { result ≡ 6 → audit.new.held ≡ [] }
    ensures statuses { (result ≡ 0) ⊎ (result ≡ 6) }
{
    let _old = audit.take(alloc);
    match Box::new(alloc, FileAudit::within(alloc, key, limit)) {
        Ok(begun) => {
            let _none = audit.put(alloc, begun);
            OK
        }
        Err(_) => MEMORY,
    }
}

/// Opens an audit of a history file of at most `limit` bytes, of which nothing has come. What the handle held is let go.
#[unsafe(no_mangle)]
pub extern "C" fn dn_audit_open(alloc: Global, audit: &mut AuditHandle, limit: usize) -> u32
    ensures opened { result ≡ 0 → HoldsText limit audit.new.held [] }
    ensures memory { result ≡ 6 → audit.new.held ≡ [] }
    ensures statuses { (result ≡ 0) ⊎ (result ≡ 6) }
{
    open(alloc, audit, limit, HashKey(0))
}

/// As `dn_audit_open`, with a secret of 128 bits for the table of its flows, for a history that a stranger wrote.
///
/// No verdict depends on it.
#[unsafe(no_mangle)]
pub extern "C" fn dn_audit_open_with_key(
    alloc: Global,
    audit: &mut AuditHandle,
    limit: usize,
    high: u64,
    low: u64,
) -> u32
    ensures opened { result ≡ 0 → HoldsText limit audit.new.held [] }
    ensures memory { result ≡ 6 → audit.new.held ≡ [] }
    ensures statuses { (result ≡ 0) ⊎ (result ≡ 6) }
{
    let key = HashKey(u128::from(high) << 64 | u128::from(low));
    open(alloc, audit, limit, key)
}
