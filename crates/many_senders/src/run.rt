ghost use denote.Param.Send.{IsSync};
ghost use Rattle.std.specs.Prelude.{◌≡◌, All, IfOk};
ghost use Rattle.dn_service.specs.Callers.{ServiceView, IsOf};

use crate::history_file::HistoryFile;
use crate::pace::Pace;
use crate::sender::send_all;
use crate::writer::{Wrote, write_rounds};
use anyhow::Context;
use dn_config::parse_line;
use dn_service::{Caller, Service, Taker};
use dn_types::Call;
use std::alloc::{AllocError, Global};
use std::io::Write;
use std::sync::Wait;
use std::thread;
use std::thread::Threads;

/// Ends the service, and the file with the entries that weren't taken. It reports how many entries the file has.
fn finish<W: Write + Drop>(
    taker: Taker,
    mut callers: Vec<Caller>,
    file: &mut HistoryFile<W>,
) -> anyhow::Result<usize>
    requires { All (IsOf taker.lasting.service) callers.items }
{
    let (lasting, caller) = taker.into_parts();
    callers.push(caller)?;
    let closed = lasting.close(callers).map_err(|back| back.fault)?;
    file.append(closed.history.as_slice())?;
    Ok(file.end()?)
}

/// Begins a service of sixteen callers, which has one pipe. By the last caller entries are taken.
fn begin<R: Wait>(rt: &R, alloc: Global) -> anyhow::Result<(Taker, Vec<Caller>)>
    ensures { IfOk result (λ begun. All (IsOf begun.0.lasting.service) begun.1.items) }
{
    let pipe = parse_line("pipe 1 config bw 100Mbit/s delay 10ms")?.context("a command")?;
    let (service, mut senders) = Service::open(alloc, 16)?;
    let last = senders.pop().context("a caller")?;
    let mut taker = Taker::new(service.lasting(), last);
    taker.call(rt, Call::Configure(pipe))?;
    Ok((taker, senders))
}

/// Fifteen threads submit packets to one pipe, and one collects them and writes the history.
///
/// It reports how many entries the history has.
pub fn run<R: Threads + Wait + Sync, W: Write + Drop>(
    rt: &R,
    alloc: Global,
    file: &mut HistoryFile<W>,
    rounds: u32,
) -> anyhow::Result<usize> {
    let (taker, senders) = begin(rt, alloc)?;
    let pace = Pace::new();
    let sending = || -> Result<Vec<Caller>, AllocError>
        requires { IsSync R.row }
        ensures { IfOk result (λ back. (service : ServiceView) → All (IsOf service) senders.items → All (IsOf service) back.items) }
    { send_all(rt, senders, &pace, rounds) };
    let writing = || -> Wrote
        ensures { result.taker.lasting.service ≡ taker.lasting.service }
    { write_rounds(rt, taker, file, &pace, rounds) };
    let (senders, wrote) = thread::join(rt, sending, writing);
    wrote.outcome?;
    finish(wrote.taker, senders?, file)
}
