//! The entries of a history that C's structs make.

ghost use Rattle.std.specs.Prelude.{◌≡◌, ◌≤◌, ◌<◌, ◌⊎◌, ◌^◌, map, IfOk, IfErr, IfSome, IfNone};
ghost use Rattle.dn_types.specs.declared.call.Call.TheVariants.{Advance, Collect};
ghost use Rattle.dn_types.specs.declared.reply.Reply.TheVariants.{Advanced, Delivered};
ghost use Rattle.hingetulip_c.specs.Submits.{FaultyMoment, InRange, submit_of as call_of};
ghost use Rattle.hingetulip_c.specs.Texts.{delivery_of, entry_by, has_reserved, told_by, FaultyCaller, FaultyCollect, FaultyFate, FaultySubmit, IsCollect, IsFate};

use crate::convert::submit_of;
use crate::records::{CDelivery, CFate, CPacket};
use crate::status::{BAD_CALLER, BAD_MOMENT, BAD_OUTCOME, BAD_RESERVED, MEMORY};
use dn_types::{Call, Deliveries, Delivery, Entry, Moment, Reply};
use std::alloc::{AllocError, Global};

/// The most callers of a history that is read.
const MOST_CALLERS: u64 = 16;

/// The caller of this number, or None if no history has one.
pub(crate) fn caller_of(number: u64) -> Option<usize>
    ensures some { IfSome result (λ caller. (caller ≡ number) × (number ≤ 15)) }
    ensures none { IfNone result (15 < number) }
{
    if number < MOST_CALLERS {
        Some(number as usize)
    } else {
        None
    }
}

/// The reply that a fate tells, or the status of the first of its numbers that is out of range.
fn told_by(fate: &CFate) -> Result<Reply, u32>
    ensures ok { IfOk result (λ reply. (reply ≡ told_by fate.now) × IsFate fate.now) }
    ensures err { IfErr result (λ status. FaultyFate fate.now status) }
{
    if fate.reserved != 0 {
        return Err(BAD_RESERVED);
    }
    let (at, flow) = (fate.at, fate.flow as usize);
    let packet = fate.packet;
    match fate.outcome {
        0 => Ok(Reply::Queued { at, flow, packet }),
        1 => Ok(Reply::Lost { at, flow }),
        2 => Ok(Reply::Full { at, flow }),
        3 => Ok(Reply::NoTarget { at }),
        _ => Err(BAD_OUTCOME),
    }
}

/// A packet's entry, or the status of a number that is out of range.
pub(crate) fn submit_entry(caller: u64, packet: &CPacket, fate: &CFate) -> Result<Entry, u32>
    ensures ok { IfOk result (λ entry. (entry ≡ entry_by caller (call_of packet.now) (told_by fate.now))
        × (caller ≤ 15) × InRange packet.now × IsFate fate.now) }
    ensures err { IfErr result (λ status. FaultySubmit caller packet.now fate.now status) }
{
    let Some(caller) = caller_of(caller) else {
        return Err(BAD_CALLER);
    };
    match submit_of(packet) {
        Err(status) => Err(status),
        Ok(call) => match told_by(fate) {
            Err(status) => Err(status),
            Ok(reply) => Ok(Entry {
                caller,
                call,
                reply,
            }),
        },
    }
}

/// The entry of an Advance, or the status of a number that is out of range.
pub(crate) fn advance_entry(caller: u64, moment: u64, at: u64) -> Result<Entry, u32>
    ensures ok { IfOk result (λ entry. (entry ≡ entry_by caller (Advance moment) (Advanced at))
        × (caller ≤ 15) × (moment ≤ 2 ^ 62)) }
    ensures err { IfErr result (λ status. FaultyCaller caller status ⊎ FaultyMoment moment status) }
{
    let Some(caller) = caller_of(caller) else {
        return Err(BAD_CALLER);
    };
    let Some(moment) = Moment::new(moment) else {
        return Err(BAD_MOMENT);
    };
    Ok(Entry {
        caller,
        call: Call::Advance(moment),
        reply: Reply::Advanced { at },
    })
}

fn delivery_of(delivery: &CDelivery) -> Delivery
    ensures { result ≡ delivery_of delivery.now }
{
    Delivery {
        due: delivery.due,
        packet: delivery.packet,
        flow: delivery.flow as usize,
        start: delivery.start,
    }
}

/// The packets that C hands in.
fn deliveries_of(alloc: Global, list: &[CDelivery]) -> Result<Vec<Delivery>, AllocError>
    ensures { IfOk result (λ made. made.items ≡ map delivery_of list.now) }
{
    list.iter()
        .map(|delivery| delivery_of(delivery))
        .collect(alloc)
}

/// Whether a field `reserved` isn't 0.
fn has_reserved(list: &[CDelivery]) -> bool
    ensures { result ≡ has_reserved list.now }
{
    list.iter().any(|delivery| delivery.reserved != 0)
}

/// The entry of a Collect, or the status of a number that is out of range or of memory.
pub(crate) fn collect_entry(
    alloc: Global,
    caller: u64,
    moment: u64,
    at: u64,
    list: &[CDelivery],
) -> Result<Entry, u32>
    ensures ok { IfOk result (λ entry. (entry ≡ entry_by caller (Collect moment) (Delivered at (map delivery_of list.now)))
        × IsCollect caller moment list.now) }
    ensures err { IfErr result (λ status. FaultyCollect caller moment list.now status
        ⊎ ((status ≡ 6) × IsCollect caller moment list.now)) }
{
    let Some(caller) = caller_of(caller) else {
        return Err(BAD_CALLER);
    };
    let Some(moment) = Moment::new(moment) else {
        return Err(BAD_MOMENT);
    };
    if has_reserved(list) {
        return Err(BAD_RESERVED);
    }
    match deliveries_of(alloc, list) {
        Err(_) => Err(MEMORY),
        Ok(items) => Ok(Entry {
            caller,
            call: Call::Collect(moment),
            reply: Reply::Delivered {
                at,
                list: Deliveries::from_vec(items),
            },
        }),
    }
}
