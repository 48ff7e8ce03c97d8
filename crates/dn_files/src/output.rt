ghost use Rattle.std.specs.Prelude.{◌≡◌, decimal, false, OnOk, IfErr};
ghost use Rattle.std.specs.Io.KnownBytes.{Appends};
ghost use Rattle.dn_records.specs.Writing.{bytes_of};
ghost use Rattle.dn_files.specs.Writing.{IsUnwritten};

use crate::replay_fault::ReplayFault;
use crate::source::Source;
use dn_records::{Field, Outlet, write_whole};

/// A field with a number in it, which is written in decimal digits.
pub fn number<'a>(value: u64) -> Field<'a>
    ensures { bytes_of result ≡ decimal value }
{
    Field::Number(u128::from(value))
}

/// Writes a text whole, under the name `source`.
///
/// Write says that a write failed: what was written is then a part of the text from its front.
pub fn write_text<O: Outlet>(out: &mut O, source: Source, text: &[u8]) -> Result<(), ReplayFault>
    requires { O.has_failed out.old ≡ false }
    ensures ok { OnOk result (Appends (O.contents out.old) (O.contents out.new) text.now) }
    ensures sound { OnOk result (O.has_failed out.new ≡ false) }
    ensures err { IfErr result (λ fault. IsUnwritten source text.now
        (O.contents out.old) (O.contents out.new) (O.has_failed out.new) fault) }
{
    match write_whole(out, text) {
        Ok(()) => Ok(()),
        Err(_) => Err(ReplayFault::Write(source)),
    }
}
