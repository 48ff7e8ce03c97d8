ghost use Rattle.std.specs.Prelude.{◌≡◌, ◌≢◌, ◌≤◌, ◌<◌, ◌⊎◌, drop, length, take};
ghost use Rattle.hingetulip_c.specs.Reasons.{reason};

use crate::put::put_text;
use crate::reason::reason_of;
use crate::records::CFault;
use crate::status::{BAD_RESERVED, LINE};

/// Writes in words why a call was answered so.
#[unsafe(no_mangle)]
pub extern "C" fn dn_reason(status: u32, fault: &CFault, text: &mut [u8], size: &mut u64) -> u32
    ensures wrote { result ≡ 0 → take size.new text.new ≡ reason status fault.now }
    ensures others { result ≡ 0 → drop size.new text.new ≡ drop size.new text.old }
    ensures size { result ≢ 14 → size.new ≡ length (reason status fault.now) }
    ensures short { result ≢ 14 → size.new ≤ 128 }
    ensures refused { result ≢ 0 → text.new ≡ text.old }
    ensures no_size { result ≡ 14 → size.new ≡ size.old }
    ensures why { (result ≡ 0) ⊎ ((result ≡ 7) × (length text.old < size.new))
        ⊎ ((result ≡ 14) × (status ≡ 8) × (0 < fault.now.reserved)) }
    ensures reserved { status ≡ 8 → 0 < fault.now.reserved → result ≡ 14 }
{
    if status == LINE && fault.reserved != 0 {
        return BAD_RESERVED;
    }
    put_text(reason_of(status, fault).as_str().as_bytes(), text, size)
}
