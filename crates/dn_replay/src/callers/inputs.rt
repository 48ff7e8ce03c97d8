ghost use Rattle.std.specs.Prelude.{◌≡◌, List, [], false, None, OnOk, IfOk, IfErr};
ghost use Rattle.dn_types.specs.declared.call.Call.{Call};
ghost use Rattle.dn_files.specs.Reading.{IsRefusal, ReadsAs};
ghost use Rattle.dn_files.specs.declared.source.Source.TheVariants.{Config};
ghost use Rattle.dn_replay.specs.Replays.{config_calls, EitherFailed, AreUnreadFor};
ghost use Rattle.dn_replay.specs.Runs.{HasMade};
ghost use Rattle.dn_replay.specs.CallerReplays.{AreReadAs};

use crate::config::run::Run;
use dn_files::{CONFIG_LIMIT, ReplayFault, Row, Source, read_input, read_packets};
use dn_records::Inlet;
use std::alloc::Global;

/// Makes the commands of a configuration by a run before its first call.
pub(crate) fn configure_from<I: Inlet>(
    alloc: Global,
    run: &mut Run,
    config: &mut I,
) -> Result<(), ReplayFault>
    requires made { HasMade run.old [] }
    requires sound { I.has_failed config.old ≡ false }
    ensures ok { OnOk result ((calls : List Call) × ReadsAs config_calls (I.remaining config.old) calls × HasMade run.new calls) }
    ensures sound { OnOk result (I.has_failed config.new ≡ false) }
    ensures err { IfErr result (λ fault.
        IsRefusal Config config_calls (I.remaining config.old) (I.has_failed config.new) fault) }
{
    let text = read_input(alloc, config, CONFIG_LIMIT, Source::Config)?;
    run.configure(text.as_slice())
}

/// Makes the commands of a configuration by a run before its first call, and reads the rows of a packet file.
pub(crate) fn read_inputs<C: Inlet, P: Inlet>(
    alloc: Global,
    run: &mut Run,
    config: &mut C,
    packets: &mut P,
) -> Result<Vec<Row>, ReplayFault>
    requires made { HasMade run.old [] }
    requires config { C.has_failed config.old ≡ false }
    requires packets { P.has_failed packets.old ≡ false }
    ensures ok { IfOk result (λ rows. AreReadAs (C.remaining config.old) (P.remaining packets.old) rows.items (λ calls. HasMade run.new calls)) }
    ensures inputs { IfOk result (λ _. EitherFailed (C.remaining config.old)
        (C.has_failed config.new) (P.has_failed packets.new) None) }
    ensures err { IfErr result (λ fault. AreUnreadFor
        (C.remaining config.old) (C.has_failed config.new) (P.remaining packets.old) (P.has_failed packets.new) fault) }
{
    configure_from(alloc, run, config)?;
    read_packets(alloc, packets)
}
