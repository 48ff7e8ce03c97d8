ghost use Rattle.std.specs.Prelude.{◌≡◌, false};
ghost use Rattle.dn_replay.specs.OneCaller.{IsReplay, ReplaysByOne};
ghost use Rattle.dn_replay.specs.Replays.{AskFor, AsksFor, EitherFailed, InputFailed};

use crate::replays::inlets::{replay_files, replay_input};
use crate::replays::manner::Manner;
use dn_files::{PACKET_LIMIT, ReplayFault};
use dn_records::{Inlet, Outlet};
use dn_shaper::HashKey;
use dn_types::Entry;
use std::alloc::Global;

/// Replays a packet file through a configuration for one caller, writes the report, and returns the history.
///
/// It makes the command of each configuration line, submits each row, and then takes all packets that are due by 2^62 ns.
/// The packets are submitted as they are read. Nothing is written before both inputs were read and judged. The packets have
/// at most 67,108,864 bytes.
pub fn replay<C: Inlet, P: Inlet, O: Outlet>(
    alloc: Global,
    config: &mut C,
    packets: &mut P,
    out: &mut O,
) -> Result<Vec<Entry>, ReplayFault>
    requires config { C.has_failed config.old ≡ false }
    requires packets { P.has_failed packets.old ≡ false }
    requires out { O.has_failed out.old ≡ false }
    ensures { IsReplay result (λ entries. ReplaysByOne entries.items)
        (AskFor (C.remaining config.old) (P.remaining packets.old))
        (EitherFailed (C.remaining config.old) (C.has_failed config.new) (P.has_failed packets.new))
        (O.contents out.old) (O.contents out.new) (O.has_failed out.new) }
{
    let manner = Manner {
        key: HashKey(0),
        records: true,
        limit: PACKET_LIMIT,
    };
    match replay_files(alloc, manner, config, packets, out) {
        Ok((entries, _)) => Ok(entries),
        Err(fault) => Err(fault),
    }
}

/// [`replay`] over one joined input of at most 67,108,864 bytes.
///
/// It is a configuration up to the first line `--`, and then a packet file.
pub fn replay_joined<I: Inlet, O: Outlet>(
    alloc: Global,
    input: &mut I,
    out: &mut O,
) -> Result<Vec<Entry>, ReplayFault>
    requires input { I.has_failed input.old ≡ false }
    requires out { O.has_failed out.old ≡ false }
    ensures { IsReplay result (λ entries. ReplaysByOne entries.items)
        (AsksFor (I.remaining input.old)) (InputFailed (I.has_failed input.new))
        (O.contents out.old) (O.contents out.new) (O.has_failed out.new) }
{
    let manner = Manner {
        key: HashKey(0),
        records: true,
        limit: PACKET_LIMIT,
    };
    match replay_input(alloc, manner, input, out) {
        Ok((entries, _)) => Ok(entries),
        Err(fault) => Err(fault),
    }
}
