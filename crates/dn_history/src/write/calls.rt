ghost use Rattle.std.specs.Prelude.{◌≡◌, ◌≤◌, ◌+◌, [], ◌∷◌, ◌++◌, codes, decimal, length, OnOk};
ghost use Rattle.csv.specs.Writing.{default_writer, field_text};
ghost use Rattle.dn_types.specs.declared.call.Call.TheVariants.{Configure, Submit};
ghost use Rattle.dn_records.specs.Records.{line_of};
ghost use Rattle.dn_history.specs.EntryRecords.{call_record, target_name, target_number};

use crate::write::ranges::submit_in_range;
use crate::write::target::target_number;
use dn_config::print_command;
use dn_files::number;
use dn_records::{Field, Line, RecordWriter};
use dn_types::{Call, Command, Moment, Packet, Target};
use std::alloc::{AllocError, Global};

/// Adds the record of a Configure.
fn write_configure(
    alloc: Global,
    writer: &mut RecordWriter,
    caller: usize,
    command: &Command,
) -> Result<(), AllocError>
    ensures { OnOk result (writer.new.text ≡ writer.old.text ++ line_of (call_record caller (Configure command.now))) }
{
    let text = print_command(alloc, command)?;
    writer.write(&[
        Field::Text("c"),
        number(caller as u64),
        Field::Text("configure"),
        Field::Text(text.as_str()),
    ])
}

/// Puts what a Submit's record says of its target, behind the caller.
fn put_target(line: &mut Line, target: &Target)
    requires { length line.old + 34 ≤ 256 }
    ensures written { line.new ≡ 44 ∷ (codes "submit" ++ 44 ∷ (target_name target.now
        ++ 44 ∷ (decimal (target_number target.now) ++ line.old))) }
    ensures len { length line.new ≤ length line.old + 34 }
{
    line.put_number(target_number(target));
    match target {
        Target::Pipe(_) => line.put_bytes(b",submit,pipe"),
        Target::Queue(_) => line.put_bytes(b",submit,queue"),
    }
}

/// Adds the record of a Submit.
fn write_submit(
    writer: &mut RecordWriter,
    caller: usize,
    target: &Target,
    packet: &Packet,
    moment: Moment,
) -> Result<(), AllocError>
    ensures { OnOk result (writer.new.text
        ≡ writer.old.text ++ line_of (call_record caller (Submit target.now packet.now moment))) }
{
    submit_in_range(*target, *packet, moment);
    let mut line = Line::new();
    line.put_number(moment.get());
    line.put_number(u64::from(packet.word));
    line.put_number(u64::from(packet.len.get()));
    line.put_number(u64::from(packet.tuple.dport));
    line.put_number(u64::from(packet.tuple.sport));
    line.put_number(u64::from(packet.tuple.proto));
    line.put_address(packet.tuple.dst);
    line.put_address(packet.tuple.src);
    put_target(&mut line, target);
    line.put_number(caller as u64);
    line.put_bytes(b"c");
    writer.write_line(&line)
}

/// Adds the record of a call that has a moment alone.
fn write_moment(
    writer: &mut RecordWriter,
    caller: usize,
    name: &str,
    moment: Moment,
) -> Result<(), AllocError>
    requires short { length name.now ≤ 64 }
    requires plain { field_text default_writer name.now ≡ name.now }
    ensures { OnOk result (writer.new.text
        ≡ writer.old.text ++ line_of (codes "c" ∷ decimal caller ∷ name.now ∷ decimal moment ∷ [])) }
{
    let mut line = Line::new();
    line.put_number(moment.get());
    line.put_bytes(name.as_bytes());
    line.put_bytes(b",");
    line.put_number(caller as u64);
    line.put_bytes(b"c");
    writer.write_line(&line)
}

/// Adds the record of a Show.
fn write_show(writer: &mut RecordWriter, caller: usize) -> Result<(), AllocError>
    ensures { OnOk result (writer.new.text
        ≡ writer.old.text ++ line_of (codes "c" ∷ decimal caller ∷ codes "show" ∷ [])) }
{
    let mut line = Line::new();
    line.put_bytes(b",show");
    line.put_number(caller as u64);
    line.put_bytes(b"c");
    writer.write_line(&line)
}

/// Adds the record of a call.
pub(crate) fn write_call(
    alloc: Global,
    writer: &mut RecordWriter,
    caller: usize,
    call: &Call,
) -> Result<(), AllocError>
    ensures { OnOk result (writer.new.text ≡ writer.old.text ++ line_of (call_record caller call.now)) }
{
    match call {
        Call::Configure(command) => write_configure(alloc, writer, caller, command),
        Call::Submit {
            target,
            packet,
            moment,
        } => write_submit(writer, caller, target, packet, *moment),
        Call::Advance(moment) => write_moment(writer, caller, "advance", *moment),
        Call::Collect(moment) => write_moment(writer, caller, "collect", *moment),
        Call::Show => write_show(writer, caller),
    }
}
