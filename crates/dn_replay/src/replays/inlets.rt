ghost use Rattle.std.specs.Prelude.{◌≡◌, false, IfOk, IfErr};
ghost use Rattle.dn_replay.specs.InParts.{AnswersWhole, IsLimit, LeavesWhole};
ghost use Rattle.dn_replay.specs.OneCaller.{AnswersByOne, IsReplay};
ghost use Rattle.dn_replay.specs.Replays.{AskForWithin, AsksForWithin, EitherFailed, InputFailed};

use crate::replays::file_replay::FileReplay;
use crate::replays::manner::Manner;
use crate::report::Outcome;
use dn_files::{CONFIG_LIMIT, ReplayFault, Source, read_input};
use dn_records::{Inlet, Outlet};
use dn_types::Entry;
use std::alloc::Global;

/// Feeds a replay of which nothing has come what an inlet has left, and answers it.
fn answer<I: Inlet, O: Outlet>(
    mut replay: FileReplay,
    inlet: &mut I,
    out: &mut O,
) -> Result<(Vec<Entry>, Outcome), ReplayFault>
    requires inlet { I.has_failed inlet.old ≡ false }
    requires out { O.has_failed out.old ≡ false }
    ensures ok { IfOk result (λ both.
        AnswersWhole (I.remaining inlet.old) replay both.0.items both.1.untargeted (O.contents out.old) (O.contents out.new)) }
    ensures inlet { IfOk result (λ _. I.has_failed inlet.new ≡ false) }
    ensures sound { IfOk result (λ _. O.has_failed out.new ≡ false) }
    ensures err { IfErr result (λ fault.
        LeavesWhole (I.remaining inlet.old) (I.has_failed inlet.new) replay (O.contents out.old) (O.contents out.new) (O.has_failed out.new) fault) }
{
    match replay.read(inlet) {
        Ok(()) => replay.finish(out),
        Err(fault) => {
            // The proof of a drop by a call has one step, where that of a drop at the end has one for each field.
            drop(replay);
            Err(fault)
        }
    }
}

/// Replays a packet file through a configuration for one caller, as [`replay`](crate::replay), and writes the report.
///
/// The history is returned, which is empty if none is kept, and whether no row has a target. The packets are submitted as they
/// are read. Nothing is written before both inputs were read and judged.
pub fn replay_files<C: Inlet, P: Inlet, O: Outlet>(
    alloc: Global,
    manner: Manner,
    config: &mut C,
    packets: &mut P,
    out: &mut O,
) -> Result<(Vec<Entry>, Outcome), ReplayFault>
    requires limit { IsLimit manner.limit }
    requires config { C.has_failed config.old ≡ false }
    requires packets { P.has_failed packets.old ≡ false }
    requires out { O.has_failed out.old ≡ false }
    ensures { IsReplay result (λ both. AnswersByOne manner.records both.0.items both.1.untargeted)
        (AskForWithin manner.limit (C.remaining config.old) (P.remaining packets.old))
        (EitherFailed (C.remaining config.old) (C.has_failed config.new) (P.has_failed packets.new))
        (O.contents out.old) (O.contents out.new) (O.has_failed out.new) }
{
    let text = read_input(alloc, config, CONFIG_LIMIT, Source::Config)?;
    let replay = FileReplay::behind(alloc, manner, text.as_slice())?;
    answer(replay, packets, out)
}

/// [`replay_files`] over one joined input: a configuration up to the first line `--`, and then a packet file.
pub fn replay_input<I: Inlet, O: Outlet>(
    alloc: Global,
    manner: Manner,
    input: &mut I,
    out: &mut O,
) -> Result<(Vec<Entry>, Outcome), ReplayFault>
    requires limit { IsLimit manner.limit }
    requires input { I.has_failed input.old ≡ false }
    requires out { O.has_failed out.old ≡ false }
    ensures { IsReplay result (λ both. AnswersByOne manner.records both.0.items both.1.untargeted)
        (AsksForWithin manner.limit (I.remaining input.old)) (InputFailed (I.has_failed input.new))
        (O.contents out.old) (O.contents out.new) (O.has_failed out.new) }
{
    let replay = FileReplay::joined(alloc, manner);
    answer(replay, input, out)
}
