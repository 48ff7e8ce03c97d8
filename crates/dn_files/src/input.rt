ghost use Rattle.std.specs.Prelude.{◌≡◌, false, Ok, IfOk, IfErr};
ghost use Rattle.dn_files.specs.Reading.{IsRefusal, IsTextOf, within_limit};

use crate::replay_fault::ReplayFault;
use crate::source::Source;
use dn_records::{Inlet, ReadFault, read_whole};
use std::alloc::Global;

/// The rest of an input of at most `limit` bytes, under the name `source`.
///
/// TooLong says that there is more of it, Read that a read failed, and OutOfMemory that a growth was refused.
pub fn read_input<I: Inlet>(
    alloc: Global,
    reader: &mut I,
    limit: usize,
    source: Source,
) -> Result<Vec<u8>, ReplayFault>
    requires { I.has_failed reader.old ≡ false }
    ensures text { IfOk result (λ text. IsTextOf (I.remaining reader.old) text.items) }
    ensures within { IfOk result (λ text. within_limit limit source text.items ≡ Ok text.items) }
    ensures sound { IfOk result (λ _. I.has_failed reader.new ≡ false) }
    ensures err { IfErr result (λ fault. IsRefusal source (within_limit limit source)
        (I.remaining reader.old) (I.has_failed reader.new) fault) }
{
    match read_whole(alloc, reader, limit) {
        Ok(text) => Ok(text),
        Err(ReadFault::TooLong) => Err(ReplayFault::TooLong(source)),
        Err(ReadFault::Read) => Err(ReplayFault::Read(source)),
        Err(ReadFault::OutOfMemory) => Err(ReplayFault::OutOfMemory),
    }
}
