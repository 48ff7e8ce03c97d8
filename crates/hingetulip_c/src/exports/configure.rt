ghost use Rattle.std.specs.Prelude.{◌≡◌, [], IsUtf8, true, false, Ok, None};
ghost use Rattle.dn_config.specs.Line.{answer};
ghost use Rattle.dn_types.specs.declared.call.Call.TheVariants.{Configure};
ghost use Rattle.hingetulip_c.specs.Faults.{IfCommand, TellsFault};
ghost use Rattle.hingetulip_c.specs.Handles.{HeldMore, IfReply, StillHeld, Unanswered};
ghost use Rattle.hingetulip_c.specs.Statuses.{taken, configure_status};

use crate::command_lines::fault_of;
use crate::handle::Handle;
use crate::records::CFault;
use crate::status::{LINE, OK};
use crate::written::command_status;
use dn_config::parse_line;
use dn_types::Call;
use std::alloc::Global;

/// Obeys a line of a configuration.
#[unsafe(no_mangle)]
pub extern "C" fn dn_configure(
    alloc: Global,
    handle: &mut Handle,
    line: &[u8],
    fault: &mut CFault,
) -> u32
    ensures closed { handle.old.held ≡ [] → handle.new.held ≡ [] }
    ensures no_handle { handle.old.held ≡ [] → IsUtf8 line.now → IfCommand line.now (λ command. result ≡ 5) }
    ensures refused { taken result ≡ false → StillHeld handle.old.held handle.new.held }
    ensures fault { TellsFault line.now result fault.old fault.new }
    ensures blank { IsUtf8 line.now → answer line.now ≡ Ok None → (result ≡ 0) × (handle.new.held ≡ handle.old.held) }
    ensures why { IsUtf8 line.now → IfCommand line.now (λ command. taken result ≡ false → Unanswered (Configure command) handle.old.held result) }
    ensures status { taken result ≡ true → IfCommand line.now (λ command. IfReply handle.old.held (Configure command) (λ r. result ≡ configure_status r)) }
    ensures stands { taken result ≡ true → IfCommand line.now (λ command. HeldMore (Configure command) handle.old.held handle.new.held) }
{
    let Ok(text) = std::str::from_utf8(line) else {
        *fault = CFault {
            word: 0,
            kind: 0,
            reserved: 0,
        };
        return LINE;
    };
    match parse_line(text) {
        Ok(None) => OK,
        Ok(Some(command)) => match handle.apply(alloc, &Call::Configure(command)) {
            Ok(reply) => command_status(&reply),
            Err(status) => status,
        },
        Err(found) => {
            *fault = fault_of(&found);
            LINE
        }
    }
}
