ghost use Rattle.std.specs.Prelude.{◌≡◌, ◌++◌, map, OnOk};
ghost use Rattle.dn_records.specs.Records.{line_of, text_of};
ghost use Rattle.dn_history.specs.EntryRecords.{delivery_record, item_records, status_record};

use crate::write::ranges::delivery_in_range;
use crate::write::target::{target_name, target_number};
use dn_files::number;
use dn_records::{Field, Line, RecordWriter};
use dn_types::{Delivery, FlowKey, FlowStatus, Reply};
use std::alloc::AllocError;

/// Adds the record of a delivered packet.
fn write_delivery(writer: &mut RecordWriter, delivery: &Delivery) -> Result<(), AllocError>
    ensures { OnOk result (writer.new.text ≡ writer.old.text ++ line_of (delivery_record delivery.now)) }
{
    delivery_in_range(*delivery);
    let mut line = Line::new();
    line.put_number(delivery.due);
    line.put_number(delivery.start);
    line.put_number(delivery.flow as u64);
    line.put_number(delivery.packet);
    line.put_bytes(b"d");
    writer.write_line(&line)
}

/// Adds the records of delivered packets.
fn write_deliveries(writer: &mut RecordWriter, list: &[Delivery]) -> Result<(), AllocError>
    ensures { OnOk result (writer.new.text ≡ writer.old.text ++ text_of (map delivery_record list.now)) }
{
    for delivery in list {
        write_delivery(writer, delivery)?;
    }
    Ok(())
}

/// Adds the record of the state of a flow.
fn write_status(writer: &mut RecordWriter, status: &FlowStatus) -> Result<(), AllocError>
    ensures { OnOk result (writer.new.text ≡ writer.old.text ++ line_of (status_record status.now)) }
{
    let FlowKey {
        target,
        pipe,
        mask,
        tuple,
    } = status.key;
    writer.write(&[
        Field::Text("f"),
        number(status.flow as u64),
        Field::Text(target_name(&target)),
        number(target_number(&target)),
        number(u64::from(pipe.get())),
        Field::Address(mask.src),
        Field::Address(mask.dst),
        number(u64::from(mask.proto)),
        number(u64::from(mask.sport)),
        number(u64::from(mask.dport)),
        Field::Address(tuple.src),
        Field::Address(tuple.dst),
        number(u64::from(tuple.proto)),
        number(u64::from(tuple.sport)),
        number(u64::from(tuple.dport)),
        number(status.queued),
        number(status.bytes),
        number(status.lost),
        number(status.full),
        number(status.started),
        number(status.discarded),
    ])
}

/// Adds the records of the states of flows.
fn write_statuses(writer: &mut RecordWriter, list: &[FlowStatus]) -> Result<(), AllocError>
    ensures { OnOk result (writer.new.text ≡ writer.old.text ++ text_of (map status_record list.now)) }
{
    for status in list {
        write_status(writer, status)?;
    }
    Ok(())
}

/// Adds the records of what a reply lists.
#[tactic(auto, unfolding(dn_records::specs::Records::text_of))]
pub(crate) fn write_items(writer: &mut RecordWriter, reply: &Reply) -> Result<(), AllocError>
    ensures { OnOk result (writer.new.text ≡ writer.old.text ++ text_of (item_records reply.now)) }
{
    match reply {
        Reply::Delivered { list, .. } => write_deliveries(writer, list.as_slice()),
        Reply::Status { list } => write_statuses(writer, list.as_slice()),
        _ => Ok(()),
    }
}
