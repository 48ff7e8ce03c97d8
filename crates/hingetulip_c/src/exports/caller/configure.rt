ghost use Rattle.std.specs.Prelude.{◌≡◌, ◌≢◌, IsUtf8, true, false, Ok, None};
ghost use Rattle.dn_config.specs.Line.{answer};
ghost use Rattle.dn_types.specs.declared.call.Call.TheVariants.{Configure};
ghost use Rattle.hingetulip_c.specs.Clients.{AnsweredBy, RefusedBy, UnansweredBy, last_reply};
ghost use Rattle.hingetulip_c.specs.Faults.{IfCommand, TellsFault};
ghost use Rattle.hingetulip_c.specs.Statuses.{taken, configure_status};

use crate::caller_handle::CallerHandle;
use crate::command_lines::command_of;
use crate::records::CFault;
use crate::status::{CLOSED, OK};
use dn_types::{Call, Command};
use std::alloc::Global;

/// Makes the call of a command.
#[tactic(auto, using(crate::proofs::Serving::holds, crate::proofs::Serving::holds_both, crate::proofs::Serving::refused_by))]
fn obey(alloc: Global, caller: &mut CallerHandle, command: Command, holder: &mut u64) -> u32
    ensures refused { taken result ≡ false → RefusedBy result holder.new caller.old.held caller.new.held }
    ensures why { taken result ≡ false → UnansweredBy holder.new caller.old.held result }
    ensures holder { result ≢ 15 → holder.new ≡ holder.old }
    ensures answered { taken result ≡ true → AnsweredBy (Configure command) caller.old.held caller.new.held }
    ensures status { taken result ≡ true → result ≡ configure_status (last_reply caller.new.held) }
{
    let call = Call::Configure(command);
    let Some(mut client) = caller.take(alloc) else {
        return CLOSED;
    };
    let status = client.configure(&call, holder);
    let _none = caller.put(alloc, client);
    status
}

/// Obeys a line of a configuration.
#[unsafe(no_mangle)]
pub extern "C" fn dn_caller_configure(
    alloc: Global,
    caller: &mut CallerHandle,
    line: &[u8],
    fault: &mut CFault,
    holder: &mut u64,
) -> u32
    ensures refused { taken result ≡ false → RefusedBy result holder.new caller.old.held caller.new.held }
    ensures fault { TellsFault line.now result fault.old fault.new }
    ensures blank { IsUtf8 line.now → answer line.now ≡ Ok None → (result ≡ 0) × (caller.new.held ≡ caller.old.held) }
    ensures why { IsUtf8 line.now → IfCommand line.now (λ command. taken result ≡ false → UnansweredBy holder.new caller.old.held result) }
    ensures holder { result ≢ 15 → holder.new ≡ holder.old }
    ensures answered { taken result ≡ true → IfCommand line.now (λ command. AnsweredBy (Configure command) caller.old.held caller.new.held) }
    ensures status { taken result ≡ true → IfCommand line.now (λ command. result ≡ configure_status (last_reply caller.new.held)) }
{
    match command_of(line, fault) {
        Err(bad) => bad,
        Ok(None) => OK,
        Ok(Some(command)) => obey(alloc, caller, command, holder),
    }
}
