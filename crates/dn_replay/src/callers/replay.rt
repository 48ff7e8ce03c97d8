ghost use Rattle.std.specs.Prelude.{◌≡◌, ◌<◌, [], false, None, IfOk, IfErr};
ghost use Rattle.dn_types.specs.History.{calls_of};
ghost use Rattle.dn_files.specs.declared.replay_fault.ReplayFault.TheVariants.{BadCount as BadCountValue};
ghost use Rattle.dn_service.specs.Callers.{new_callers};
ghost use Rattle.dn_replay.specs.CallerReplays.{AreUnread, IsCount, IsHistoryOfCallers, IsReplayedByCallers, IsUnopened, AreReadAs, IsUnansweredByCallers};
ghost use Rattle.dn_replay.specs.Replays.{EitherFailed, AreUnreadFor, read_of};
ghost use Rattle.dn_replay.specs.Runs.{HasMade, history_of};

use crate::callers::calls::run_callers;
use crate::callers::gate::Gate;
use crate::callers::inputs::read_inputs;
use crate::config::run::Run;
use crate::report::write_report;
use dn_files::{ReplayFault, Row};
use dn_records::{Inlet, Outlet};
use dn_service::{Caller, OpenFault, Service};
use dn_shaper::HashKey;
use dn_types::Entry;
use std::alloc::{AllocError, Global};
use std::sync::Wait;
use std::thread::Threads;

/// A service and its n callers.
fn open(alloc: Global, n: usize, key: HashKey) -> Result<(Service, Vec<Caller>), ReplayFault>
    ensures count { IfOk result (λ opened. IsCount n × (opened.0.callers ≡ n)) }
    ensures callers { IfOk result (λ opened. opened.1.items ≡ new_callers opened.0 0 n) }
    ensures err { IfErr result (λ fault. IsUnopened n fault) }
{
    match Service::open_with_key(alloc, n, key) {
        Ok(opened) => Ok(opened),
        Err(OpenFault::BadCount) => Err(ReplayFault::BadCount),
        Err(OpenFault::OutOfMemory) => Err(ReplayFault::OutOfMemory),
    }
}

/// The history of the commands of a configuration, which a run before its first call makes, and the rows of a packet file.
fn commands_and_rows<C: Inlet, P: Inlet>(
    alloc: Global,
    run: &mut Run,
    config: &mut C,
    packets: &mut P,
) -> Result<(Vec<Entry>, Vec<Row>), ReplayFault>
    requires made { HasMade run.old [] }
    requires config { C.has_failed config.old ≡ false }
    requires packets { P.has_failed packets.old ≡ false }
    ensures ok { IfOk result (λ both. AreReadAs (C.remaining config.old) (P.remaining packets.old) both.1.items (λ calls. both.0.items ≡ history_of calls)) }
    ensures inputs { IfOk result (λ _. EitherFailed (C.remaining config.old)
        (C.has_failed config.new) (P.has_failed packets.new) None) }
    ensures err { IfErr result (λ fault. AreUnreadFor
        (C.remaining config.old) (C.has_failed config.new) (P.remaining packets.old) (P.has_failed packets.new) fault) }
{
    let rows = read_inputs(alloc, run, config, packets)?;
    Ok((run.take_history(alloc), rows))
}

/// The history that the callers leave when they have made their calls.
fn history<G: Gate + Sync, R: Threads + Wait + Sync>(
    rt: &R,
    opened: (Service, Vec<Caller>),
    n: usize,
    config: &[Entry],
    rows: &[Row],
    gate: &G,
) -> Result<Vec<Entry>, AllocError>
    requires count { (0 < n) × (opened.0.callers ≡ n) }
    requires callers { opened.1.items ≡ new_callers opened.0 0 n }
    ensures { IfOk result (λ entries. IsHistoryOfCallers n (calls_of config.now) rows.now entries.items) }
{
    let (service, callers) = opened;
    let callers = run_callers(rt, callers, n, config, rows, gate)?;
    let Ok(closed) = service.close(callers) else {
        unreachable!()
    };
    Ok(closed.history)
}

/// Replays a packet file through a configuration for n callers, 1 to 16, in threads of their own.
///
/// Caller 0 makes the command of each configuration line. Then row i, from 1, is submitted by caller (i - 1) mod n, each
/// caller's rows in order, with a call of the gate before and after each. When all have come back, caller 0 takes all
/// packets that are due by 2^62 ns. It writes the report and returns the history that the service left: with several
/// callers two runs may differ.
///
/// `BadCount` comes before anything is read, and then the faults of [`replay`](crate::replay). Nothing is
/// written before both inputs were read and judged.
pub fn replay_callers<C: Inlet, P: Inlet, O: Outlet, G: Gate + Sync, R: Threads + Wait + Sync>(
    rt: &R,
    alloc: Global,
    n: usize,
    config: &mut C,
    packets: &mut P,
    out: &mut O,
    gate: &G,
) -> Result<Vec<Entry>, ReplayFault>
    requires config { C.has_failed config.old ≡ false }
    requires packets { P.has_failed packets.old ≡ false }
    requires out { O.has_failed out.old ≡ false }
    ensures ok { IfOk result (λ entries.
        IsReplayedByCallers n (C.remaining config.old) (P.remaining packets.old) entries.items
        (O.contents out.old) (O.contents out.new)) }
    ensures inputs { EitherFailed (C.remaining config.old) (C.has_failed config.new) (P.has_failed packets.new) (read_of result) }
    ensures sound { IfOk result (λ _. O.has_failed out.new ≡ false) }
    ensures unread { IfErr result (λ fault. fault ≡ BadCountValue → AreUnread
        (C.remaining config.old) (C.remaining config.new) (P.remaining packets.old) (P.remaining packets.new)) }
    ensures err { IfErr result (λ fault. IsUnansweredByCallers n (C.remaining config.old) (P.remaining packets.old)
        (O.contents out.old) (O.contents out.new) (O.has_failed out.new) fault) }
{
    replay_callers_with_key(rt, alloc, HashKey(0), n, config, packets, out, gate)
}

/// [`replay_callers`] with a secret for the flow table's hash, for packets that a stranger chose.
///
/// No reply depends on it.
pub fn replay_callers_with_key<
    C: Inlet,
    P: Inlet,
    O: Outlet,
    G: Gate + Sync,
    R: Threads + Wait + Sync,
>(
    rt: &R,
    alloc: Global,
    key: HashKey,
    n: usize,
    config: &mut C,
    packets: &mut P,
    out: &mut O,
    gate: &G,
) -> Result<Vec<Entry>, ReplayFault>
    requires config { C.has_failed config.old ≡ false }
    requires packets { P.has_failed packets.old ≡ false }
    requires out { O.has_failed out.old ≡ false }
    ensures ok { IfOk result (λ entries.
        IsReplayedByCallers n (C.remaining config.old) (P.remaining packets.old) entries.items
        (O.contents out.old) (O.contents out.new)) }
    ensures inputs { EitherFailed (C.remaining config.old) (C.has_failed config.new) (P.has_failed packets.new) (read_of result) }
    ensures sound { IfOk result (λ _. O.has_failed out.new ≡ false) }
    ensures unread { IfErr result (λ fault. fault ≡ BadCountValue → AreUnread
        (C.remaining config.old) (C.remaining config.new) (P.remaining packets.old) (P.remaining packets.new)) }
    ensures err { IfErr result (λ fault. IsUnansweredByCallers n (C.remaining config.old) (P.remaining packets.old)
        (O.contents out.old) (O.contents out.new) (O.has_failed out.new) fault) }
{
    let opened = open(alloc, n, key)?;
    let mut run = Run::new(alloc, key);
    let read = commands_and_rows(alloc, &mut run, config, packets);
    // The proof of a drop by a call has one step, where that of a drop at each exit has one for each field.
    drop(run);
    let (commands, rows) = read?;
    let Ok(entries) = history(rt, opened, n, commands.as_slice(), rows.as_slice(), gate) else {
        return Err(ReplayFault::OutOfMemory);
    };
    write_report(alloc, n, entries.as_slice(), out)?;
    Ok(entries)
}
