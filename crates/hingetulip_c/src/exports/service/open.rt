ghost use Rattle.std.specs.Prelude.{◌≡◌, ◌≤◌, [], ◌∷◌, length, IfOk};
ghost use Rattle.hingetulip_c.specs.Services.{Opened, OpensService, all_held};

use crate::caller_handle::CallerHandle;
use crate::exports::service::hand_out::{close_all, hand_out};
use crate::ledger::Ledger;
use crate::service_handle::ServiceHandle;
use crate::status::{BAD_COUNT, MEMORY, OK};
use dn_service::{HashKey, Service, Taker};
use std::alloc::{AllocError, Global};

/// The most callers that C has. A service has 16, of which one is its own.
const MOST_CALLERS: usize = 15;

/// A new service, whose callers are in these handles.
fn new_ledger(
    alloc: Global,
    callers: &mut [CallerHandle],
    key: HashKey,
) -> Result<Box<Ledger>, AllocError>
    requires { length callers.old ≤ 15 }
    ensures len { length callers.new ≡ length callers.old }
    ensures ok { IfOk result (λ ledger. Opened (length callers.old) (ledger.value ∷ []) (all_held callers.new)) }
{
    let Ok((service, mut all)) = Service::open_with_key(alloc, callers.len() + 1, key) else {
        return Err(AllocError);
    };
    let Some(own) = all.pop() else {
        return Err(AllocError);
    };
    let ledger = Box::new(
        alloc,
        Ledger {
            taker: Taker::new(service.lasting(), own),
            entries: Vec::new(alloc),
            written: 0,
        },
    )?;
    hand_out(alloc, all, callers)?;
    Ok(ledger)
}

/// Opens a service by the key of its flows' hash, and its callers. What the handles held is let go.
fn open(
    alloc: Global,
    service: &mut ServiceHandle,
    callers: &mut [CallerHandle],
    key: HashKey,
) -> u32
    ensures { OpensService result service.old.held service.new.held callers.old callers.new }
{
    if callers.is_empty() || callers.len() > MOST_CALLERS {
        return BAD_COUNT;
    }
    let _old = service.take(alloc);
    match new_ledger(alloc, callers, key) {
        Ok(ledger) => {
            let _none = service.put(alloc, ledger);
            OK
        }
        Err(_) => {
            close_all(alloc, callers);
            MEMORY
        }
    }
}

/// Opens a service and its callers, numbered from 0 in their order. What the handles held is let go.
#[unsafe(no_mangle)]
pub extern "C" fn dn_service_open(
    alloc: Global,
    service: &mut ServiceHandle,
    callers: &mut [CallerHandle],
) -> u32
    ensures { OpensService result service.old.held service.new.held callers.old callers.new }
{
    open(alloc, service, callers, HashKey(0))
}

/// As `dn_service_open`, with a secret of 128 bits for the table of its flows, for packets that a stranger chooses.
///
/// No reply depends on it.
#[unsafe(no_mangle)]
pub extern "C" fn dn_service_open_with_key(
    alloc: Global,
    service: &mut ServiceHandle,
    callers: &mut [CallerHandle],
    high: u64,
    low: u64,
) -> u32
    ensures { OpensService result service.old.held service.new.held callers.old callers.new }
{
    let key = HashKey(u128::from(high) << 64 | u128::from(low));
    open(alloc, service, callers, key)
}
