//! The calls of the header that close a handle.

ghost use Rattle.hingetulip_c.specs.Handles.{IsClosedBy};

use crate::audit_handle::AuditHandle;
use crate::caller_handle::CallerHandle;
use crate::handle::Handle;
use crate::service_handle::ServiceHandle;
use crate::status::{CLOSED, OK};
use std::alloc::Global;

/// Closes a handle, and lets go what it held.
#[unsafe(no_mangle)]
pub extern "C" fn dn_close(alloc: Global, handle: &mut Handle) -> u32
    ensures { IsClosedBy result handle.old.held handle.new.held }
{
    match handle.take(alloc) {
        Some(_shaper) => OK,
        None => CLOSED,
    }
}

/// Closes a service, and lets go what it held.
#[unsafe(no_mangle)]
pub extern "C" fn dn_service_close(alloc: Global, service: &mut ServiceHandle) -> u32
    ensures { IsClosedBy result service.old.held service.new.held }
{
    match service.take(alloc) {
        Some(_ledger) => OK,
        None => CLOSED,
    }
}

/// Closes a caller, and lets go what it held.
#[unsafe(no_mangle)]
pub extern "C" fn dn_caller_close(alloc: Global, caller: &mut CallerHandle) -> u32
    ensures { IsClosedBy result caller.old.held caller.new.held }
{
    match caller.take(alloc) {
        Some(_client) => OK,
        None => CLOSED,
    }
}

/// Closes an audit, and lets go what it held.
#[unsafe(no_mangle)]
pub extern "C" fn dn_audit_close(alloc: Global, audit: &mut AuditHandle) -> u32
    ensures { IsClosedBy result audit.old.held audit.new.held }
{
    match audit.take(alloc) {
        Some(_audit) => OK,
        None => CLOSED,
    }
}
