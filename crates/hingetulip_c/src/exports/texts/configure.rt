ghost use Rattle.std.specs.Prelude.{◌≡◌, ◌≢◌, ◌≤◌, ◌<◌, ◌⊎◌, drop, length, take, IsUtf8, Ok, None};
ghost use Rattle.dn_config.specs.Line.{answer};
ghost use Rattle.dn_types.specs.declared.call.Call.TheVariants.{Configure};
ghost use Rattle.hingetulip_c.specs.Faults.{IfCommand, TellsFault};
ghost use Rattle.hingetulip_c.specs.Texts.{FaultyCaller, LacksRoom, entry_text, told_of};

use crate::command_lines::{command_of, configure_entry};
use crate::history_lines::put_entry;
use crate::records::CFault;
use crate::status::OK;
use std::alloc::Global;

/// Writes a line of a configuration and the status that it was answered, as lines of a history file.
#[unsafe(no_mangle)]
pub extern "C" fn dn_configure_text(
    alloc: Global,
    caller: u64,
    line: &[u8],
    status: u32,
    fault: &mut CFault,
    text: &mut [u8],
    size: &mut u64,
) -> u32
    ensures wrote { result ≡ 0 → IfCommand line.now (λ command.
        take size.new text.new ≡ entry_text caller (Configure command) (told_of command status)) }
    ensures others { result ≡ 0 → drop size.new text.new ≡ drop size.new text.old }
    ensures in_range { (result ≡ 0) ⊎ (result ≡ 6) ⊎ (result ≡ 7)
        → IfCommand line.now (λ command. (caller ≤ 15) × (status ≤ 4)) }
    ensures size { (result ≡ 0) ⊎ (result ≡ 7) → IfCommand line.now (λ command.
        size.new ≡ length (entry_text caller (Configure command) (told_of command status))) }
    ensures refused { result ≢ 0 → text.new ≡ text.old }
    ensures no_size { result ≢ 0 → result ≢ 7 → size.new ≡ size.old }
    ensures fault { TellsFault line.now result fault.old fault.new }
    ensures blank { IsUtf8 line.now → answer line.now ≡ Ok None
        → (result ≡ 0) × (size.new ≡ 0) × (text.new ≡ text.old) }
    ensures why { IsUtf8 line.now → IfCommand line.now (λ command. result ≢ 0
        → FaultyCaller caller result ⊎ ((result ≡ 21) × (4 < status)) ⊎ LacksRoom text.old size.new result) }
{
    match command_of(line, fault) {
        Err(bad) => bad,
        Ok(None) => {
            *size = 0;
            OK
        }
        Ok(Some(command)) => match configure_entry(caller, command, status) {
            Ok(entry) => put_entry(alloc, &entry, text, size),
            Err(bad) => bad,
        },
    }
}
