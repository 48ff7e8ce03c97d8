//! The numbers of entries are in the ranges of their types.
//!
//! A function here computes nothing: its contract says so of its argument.

ghost use Rattle.std.specs.Prelude.{length};
ghost use Rattle.std.specs.List.{All};
ghost use Rattle.dn_types.specs.declared.call.Call.TheVariants.{Submit};
ghost use Rattle.dn_history.specs.Ranges.{AreEntries, IsCall, IsDelivery, IsEntry, IsLong, IsReply, IsStatus};

use dn_types::{Call, Delivery, Entry, FlowStatus, Moment, Packet, Reply, Target};

fn call_in_range(call: Call)
    ensures { IsCall call }
{}

pub(crate) fn submit_in_range(target: Target, packet: Packet, moment: Moment)
    ensures { IsCall (Submit target packet moment) }
{}

pub(crate) fn delivery_in_range(delivery: Delivery)
    ensures { IsDelivery delivery }
{}

fn status_in_range(status: FlowStatus)
    ensures { IsStatus status }
{}

fn deliveries_in_range(list: &[Delivery])
    ensures count { IsLong (length list.now) }
    ensures each { All IsDelivery list.now }
{
    let _count = list.len();
    for delivery in list {
        delivery_in_range(*delivery);
    }
}

fn statuses_in_range(list: &[FlowStatus])
    ensures count { IsLong (length list.now) }
    ensures each { All IsStatus list.now }
{
    let _count = list.len();
    for status in list {
        status_in_range(*status);
    }
}

fn reply_in_range(reply: &Reply)
    ensures { IsReply reply.now }
{
    match reply {
        Reply::Queued { at, flow, packet } => {
            let _numbers = (*at, *flow, *packet);
        }
        Reply::Lost { at, flow } | Reply::Full { at, flow } => {
            let _numbers = (*at, *flow);
        }
        Reply::NoTarget { at } | Reply::Advanced { at } => {
            let _number = *at;
        }
        Reply::Delivered { at, list } => {
            let _number = *at;
            deliveries_in_range(list.as_slice())
        }
        Reply::Status { list } => statuses_in_range(list.as_slice()),
        _ => {}
    }
}

/// Each number of an entry is in the range of its type.
pub fn entry_in_range(entry: &Entry)
    ensures { IsEntry entry.now }
{
    call_in_range(entry.call);
    reply_in_range(&entry.reply)
}

/// Each number of the entries is in the range of its type.
pub(crate) fn entries_in_range(entries: &[Entry])
    ensures { AreEntries entries.now }
{
    let _count = entries.len();
    for entry in entries {
        entry_in_range(entry);
    }
}
