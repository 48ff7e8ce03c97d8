//! A text that is written in parts.

ghost use Rattle.std.specs.Prelude.{◌≡◌, ◌<◌, ◌≤◌, false, true, length, vec_capacity, OnOk, OnErr};
ghost use Rattle.dn_replay.specs.Parts.{BreaksOff, GoesOn};

use dn_records::{Outlet, WriteFault, write_whole};

/// A part of so many bytes or more is written.
pub(crate) const PART: usize = 65_536;

/// Writes what the buffer holds, and empties it.
pub(crate) fn write_part<O: Outlet>(buffer: &mut Vec<u8>, out: &mut O) -> Result<(), WriteFault>
    requires { O.has_failed out.old ≡ false }
    ensures ok { OnOk result (GoesOn (O.contents out.old) buffer.old.items (O.contents out.new) buffer.new.items) }
    ensures short { OnOk result (length buffer.new.items ≡ 0) }
    ensures capacity { OnOk result (vec_capacity buffer.old ≤ vec_capacity buffer.new) }
    ensures sound { OnOk result (O.has_failed out.new ≡ false) }

    // A front of the text was written before the failure, and not the whole of what had come so far.
    ensures part { OnErr result (BreaksOff (O.contents out.old) buffer.old.items (O.contents out.new)) }
    ensures failed { OnErr result (O.has_failed out.new ≡ true) }
{
    match write_whole(out, buffer.as_slice()) {
        Ok(()) => {
            buffer.clear();
            Ok(())
        }
        Err(fault) => Err(fault),
    }
}

/// Writes what the buffer holds, where that is a part.
pub(crate) fn write_full_part<O: Outlet>(
    buffer: &mut Vec<u8>,
    out: &mut O,
) -> Result<(), WriteFault>
    requires { O.has_failed out.old ≡ false }
    ensures ok { OnOk result (GoesOn (O.contents out.old) buffer.old.items (O.contents out.new) buffer.new.items) }
    ensures short { OnOk result (length buffer.new.items < 65536) }
    ensures capacity { OnOk result (vec_capacity buffer.old ≤ vec_capacity buffer.new) }
    ensures sound { OnOk result (O.has_failed out.new ≡ false) }
    ensures part { OnErr result (BreaksOff (O.contents out.old) buffer.old.items (O.contents out.new)) }
    ensures failed { OnErr result (O.has_failed out.new ≡ true) }
{
    if buffer.len() < PART {
        return Ok(());
    }
    write_part(buffer, out)
}
