ghost use Rattle.std.specs.Prelude.{◌≡◌};

use crate::calls::collect;
use crate::history_file::HistoryFile;
use crate::pace::Pace;
use dn_files::ReplayFault;
use dn_service::Taker;
use std::io::Write;
use std::sync::Wait;

/// What comes out of the thread that writes.
#[derive(Drop)]
pub struct Wrote {
    /// The service, and the caller by which entries were taken.
    pub taker: Taker,
    /// Why it ended early, if it did.
    pub outcome: Result<(), ReplayFault>,
}

/// Collects the packets that have come out of the link, and writes all entries since the last round.
fn write_round<R: Wait, W: Write + Drop>(
    rt: &R,
    taker: &mut Taker,
    file: &mut HistoryFile<W>,
    round: u32,
) -> Result<(), ReplayFault>
    ensures { taker.new.lasting.service ≡ taker.old.lasting.service }
{
    if taker.call(rt, collect(round)).is_err() {
        return Err(ReplayFault::OutOfMemory);
    }
    file.append(taker.take(rt).entries.as_slice())
}

/// Writes all rounds, and lets the senders go on as it does.
pub fn write_rounds<R: Wait, W: Write + Drop>(
    rt: &R,
    mut taker: Taker,
    file: &mut HistoryFile<W>,
    pace: &Pace,
    rounds: u32,
) -> Wrote
    ensures { result.taker.lasting.service ≡ taker.lasting.service }
{
    for round in 0..rounds {
        if let Err(fault) = write_round(rt, &mut taker, file, round) {
            pace.end(rt);
            return Wrote {
                taker,
                outcome: Err(fault),
            };
        }
        pace.advance(rt, round + 1);
    }
    Wrote {
        taker,
        outcome: Ok(()),
    }
}
