ghost use Rattle.std.specs.Prelude.{◌≡◌, ◌≤◌, [], ◌∷◌, ◌++◌, codes, decimal, length, OnOk};
ghost use Rattle.csv.specs.Writing.{default_writer, field_text};
ghost use Rattle.dn_records.specs.Records.{line_of};
ghost use Rattle.dn_history.specs.EntryRecords.{reply_record};

use dn_records::{Line, RecordWriter};
use dn_types::Reply;
use std::alloc::AllocError;

/// Adds the record of a reply that is a name alone.
fn write_name(writer: &mut RecordWriter, name: &str) -> Result<(), AllocError>
    requires short { length name.now ≤ 64 }
    requires plain { field_text default_writer name.now ≡ name.now }
    ensures { OnOk result (writer.new.text ≡ writer.old.text ++ line_of (codes "r" ∷ name.now ∷ [])) }
{
    let mut line = Line::new();
    line.put_bytes(name.as_bytes());
    line.put_bytes(b"r,");
    writer.write_line(&line)
}

/// Adds the record of a reply that has one number.
fn write_one(writer: &mut RecordWriter, name: &str, value: u64) -> Result<(), AllocError>
    requires short { length name.now ≤ 64 }
    requires plain { field_text default_writer name.now ≡ name.now }
    ensures { OnOk result (writer.new.text ≡ writer.old.text ++ line_of (codes "r" ∷ name.now ∷ decimal value ∷ [])) }
{
    let mut line = Line::new();
    line.put_number(value);
    line.put_bytes(name.as_bytes());
    line.put_bytes(b"r,");
    writer.write_line(&line)
}

/// Adds the record of a reply that has two numbers.
fn write_two(
    writer: &mut RecordWriter,
    name: &str,
    first: u64,
    second: u64,
) -> Result<(), AllocError>
    requires short { length name.now ≤ 64 }
    requires plain { field_text default_writer name.now ≡ name.now }
    ensures { OnOk result (writer.new.text
        ≡ writer.old.text ++ line_of (codes "r" ∷ name.now ∷ decimal first ∷ decimal second ∷ [])) }
{
    let mut line = Line::new();
    line.put_number(second);
    line.put_number(first);
    line.put_bytes(name.as_bytes());
    line.put_bytes(b"r,");
    writer.write_line(&line)
}

/// Adds the record of an accepted packet.
fn write_queued(
    writer: &mut RecordWriter,
    at: u64,
    flow: usize,
    packet: u64,
) -> Result<(), AllocError>
    ensures { OnOk result (writer.new.text ≡ writer.old.text
        ++ line_of (codes "r" ∷ codes "queued" ∷ decimal at ∷ decimal flow ∷ decimal packet ∷ [])) }
{
    let mut line = Line::new();
    line.put_number(packet);
    line.put_number(flow as u64);
    line.put_number(at);
    line.put_bytes(b"r,queued");
    writer.write_line(&line)
}

/// Adds the record of a reply. What it lists follows in records of their own.
pub(crate) fn write_reply(writer: &mut RecordWriter, reply: &Reply) -> Result<(), AllocError>
    ensures { OnOk result (writer.new.text ≡ writer.old.text ++ line_of (reply_record reply.now)) }
{
    match reply {
        Reply::Configured => write_name(writer, "configured"),
        Reply::NoSuchPipe => write_name(writer, "no-such-pipe"),
        Reply::Exhausted => write_name(writer, "exhausted"),
        Reply::Deleted => write_name(writer, "deleted"),
        Reply::PipeHasQueues => write_name(writer, "pipe-has-queues"),
        Reply::NoSuchQueue => write_name(writer, "no-such-queue"),
        Reply::Queued { at, flow, packet } => write_queued(writer, *at, *flow, *packet),
        Reply::Lost { at, flow } => write_two(writer, "lost", *at, *flow as u64),
        Reply::Full { at, flow } => write_two(writer, "full", *at, *flow as u64),
        Reply::NoTarget { at } => write_one(writer, "no-target", *at),
        Reply::Advanced { at } => write_one(writer, "advanced", *at),
        Reply::Delivered { at, list } => {
            write_two(writer, "delivered", *at, list.as_slice().len() as u64)
        }
        Reply::Status { list } => write_one(writer, "status", list.as_slice().len() as u64),
    }
}
