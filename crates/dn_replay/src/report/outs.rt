//! The `out` lines of deliveries.

ghost use Rattle.std.specs.Prelude.{◌≡◌, ◌<◌, ◌≤◌, ◌+◌, ◌++◌, slice_index_or, false, true, length, vec_capacity, OnOk, OnErr};
ghost use Rattle.dn_records.specs.Records.{line_of};
ghost use Rattle.dn_replay.specs.Kept.{AreKnown, delivery_line, no_row, out_text};
ghost use Rattle.dn_replay.specs.Parts.{Adds, BreaksOffIn};
ghost use Rattle.dn_replay.specs.Report.{line_fields};
ghost use Rattle.dn_replay.specs.declared.report.line_text.TheConstants.{LINE};

use crate::report::kept::Kept;
use crate::report::kept_rows::AcceptedRow;
use crate::report::line_text::add_out;
use crate::report::parts::write_full_part;
use dn_records::{Outlet, WriteFault};
use dn_types::Delivery;

/// The row whose packet has a number.
pub(crate) fn row_of(accepted: &[AcceptedRow], packet: u64) -> AcceptedRow
    requires { packet < length accepted.now }
    ensures { result ≡ slice_index_or accepted.now packet no_row }
{
    accepted[packet as usize]
}

/// Adds the `out` line of a delivery.
fn add_delivery(text: &mut Vec<u8>, accepted: &[AcceptedRow], delivery: Delivery)
    requires room { length text.old.items + LINE ≤ vec_capacity text.old }
    requires known { delivery.packet < length accepted.now }
    ensures items { text.new.items ≡ text.old.items ++ line_of (line_fields (delivery_line accepted.now delivery)) }
    ensures capacity { vec_capacity text.old ≤ vec_capacity text.new }
{
    let Delivery {
        due,
        packet,
        start,
        ..
    } = delivery;
    let own = row_of(accepted, packet);
    add_out(text, own.row as u128, own.flow, packet, own.at, start, due);
}

/// Writes the `out` lines of deliveries, in their order.
pub(crate) fn write_outs<O: Outlet>(
    kept: &Kept,
    given: &[Delivery],
    text: &mut Vec<u8>,
    out: &mut O,
) -> Result<(), WriteFault>
    requires known { AreKnown kept.now given.now }
    requires room { 65536 + LINE ≤ vec_capacity text.old }
    requires short { length text.old.items < 65536 }
    requires sound { O.has_failed out.old ≡ false }
    ensures ok { OnOk result (Adds (O.contents out.old) text.old.items (O.contents out.new) text.new.items (out_text kept.now given.now)) }
    ensures room { OnOk result (65536 + LINE ≤ vec_capacity text.new) }
    ensures short { OnOk result (length text.new.items < 65536) }
    ensures sound { OnOk result (O.has_failed out.new ≡ false) }
    ensures part { OnErr result (BreaksOffIn (out_text kept.now given.now) (O.contents out.old) text.old.items (O.contents out.new)) }
    ensures failed { OnErr result (O.has_failed out.new ≡ true) }
{
    for delivery in given {
        add_delivery(text, kept.accepted.as_slice(), *delivery);
        write_full_part(text, out)?;
    }
    Ok(())
}
