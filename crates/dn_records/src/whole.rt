ghost use Rattle.std.specs.Prelude.{◌≡◌, false, true, IfOk, IfErr, OnOk, OnErr};
ghost use Rattle.std.specs.Io.KnownBytes.{Appends};
ghost use Rattle.dn_records.specs.Devices.{AppendsPart, IsWhole, Refuses};

use crate::inlet::Inlet;
use crate::outlet::Outlet;
use crate::read_fault::ReadFault;
use crate::write_fault::WriteFault;
use std::alloc::Global;

// How many bytes one read asks for at most.
const CHUNK: usize = 16384;

/// The rest of an input of at most `limit` bytes.
///
/// Once more bytes have come, nothing more is read, so an input that never ends is refused too. After a fault part of the
/// input has been read.
pub fn read_whole<I: Inlet>(
    alloc: Global,
    inlet: &mut I,
    limit: usize,
) -> Result<Vec<u8>, ReadFault>
    requires { I.has_failed inlet.old ≡ false }
    ensures ok { IfOk result (λ text.
        IsWhole (I.remaining inlet.old) (I.remaining inlet.new) limit text.items) }
    ensures sound { IfOk result (λ _. I.has_failed inlet.new ≡ false) }
    ensures err { IfErr result (λ fault.
        Refuses (I.remaining inlet.old) limit (I.has_failed inlet.new) fault) }
{
    let mut text = Vec::new(alloc);
    let mut chunk = [0u8; CHUNK];
    while text.len() <= limit {
        let Some(count) = inlet.read(&mut chunk) else {
            return Err(ReadFault::Read);
        };
        if count == 0 {
            return Ok(text);
        }
        if text.extend_from_slice(&chunk[..count]).is_err() {
            return Err(ReadFault::OutOfMemory);
        }
    }
    Err(ReadFault::TooLong)
}

/// Writes a whole text, in as many writes as the outlet takes.
pub fn write_whole<O: Outlet>(outlet: &mut O, text: &[u8]) -> Result<(), WriteFault>
    requires { O.has_failed outlet.old ≡ false }
    ensures ok { OnOk result (Appends (O.contents outlet.old) (O.contents outlet.new) text.now) }
    ensures sound { OnOk result (O.has_failed outlet.new ≡ false) }

    // A part of the text from its front was written, and not the whole.
    ensures part { OnErr result
        (AppendsPart (O.contents outlet.old) (O.contents outlet.new) text.now) }
    ensures failed { OnErr result (O.has_failed outlet.new ≡ true) }
{
    let mut at = 0usize;
    while at < text.len() {
        match outlet.write(&text[at..]) {
            Some(count) if count > 0 => at += count,
            _ => return Err(WriteFault),
        }
    }
    Ok(())
}
