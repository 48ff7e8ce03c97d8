ghost use Rattle.std.specs.Prelude.{◌≡◌, [], ◌∷◌, ℕ, Bool, List, OnOk, IfOk, IfErr, false};
ghost use Rattle.dn_types.specs.declared.call.Call.{Call as CallValue};
ghost use Rattle.dn_files.specs.Reading.{IsFaultOf};
ghost use Rattle.dn_replay.specs.Rows.{submit as submit_of};
ghost use Rattle.dn_replay.specs.Held.{GoesOn, has_entries};
ghost use Rattle.dn_replay.specs.OnePass.{AreFew, HasEndedWith, HasFed, IsFresh, calls_with};
ghost use Rattle.dn_replay.specs.Configuring.{configured_by};
ghost use Rattle.dn_replay.specs.Feeding.{AnswersFed, Configures, Fed, FeedsPart, LeavesFed, Submits};

use crate::config::run::{Run, submit};
use crate::replays::held::Held;
use crate::report::{Kept, Outcome, write_kept};
use dn_files::{PacketReader, ReplayFault, Row};
use dn_records::Outlet;
use dn_shaper::HashKey;
use dn_types::Entry;
use std::alloc::{AllocError, Global};

/// A run that submits the packets of a text as its parts come.
///
/// Of a packet it keeps what the report needs. The run's history has the configuration's calls, and the packets' calls too
/// if entries are held.
#[derive(Drop)]
pub(crate) struct Pass {
    pub(crate) run: Run,
    pub(crate) kept: Kept,
    pub(crate) held: Held,
    pub(crate) reader: PacketReader,
}

/// Submits the packet of a row, and keeps what the report needs of the reply.
#[inline(always)]
fn submit_row(run: &mut Run, kept: &mut Kept, held: &mut Held, row: &Row) -> Result<(), AllocError>
    ensures { OnOk result (GoesOn (λ calls. submit_of row.now ∷ calls) held.old run.old kept.old held.new run.new kept.new) }
{
    let call = submit(row);
    let reply = run.shaper.apply(&call)?;
    kept.note(&reply)?;
    held.hold(run, kept, call, reply)
}

/// Submits the packet of each row.
fn submit_rows(
    run: &mut Run,
    kept: &mut Kept,
    held: &mut Held,
    rows: &[Row],
) -> Result<(), AllocError>
    ensures { OnOk result (Submits rows.now held.old run.old kept.old held.new run.new kept.new) }
{
    for row in rows {
        submit_row(run, kept, held, row)?;
    }
    Ok(())
}

impl Pass {
    /// A pass before its first call.
    pub(crate) fn new(alloc: Global, key: HashKey, records: bool) -> Pass
        ensures fresh { IsFresh result }
        ensures records { has_entries result.held ≡ records }
    {
        Pass {
            run: Run::new(alloc, key),
            kept: Kept::new(alloc),
            held: Held::new(alloc, records),
            reader: PacketReader::new(alloc),
        }
    }

    /// Makes the commands of a configuration's text before the first packet.
    pub(crate) fn configure(&mut self, config: &[u8]) -> Result<(), ReplayFault>
        requires { IsFresh self.old }
        ensures ok { OnOk result (Configures config.now self.old self.new) }
        ensures records { has_entries self.new.held ≡ has_entries self.old.held }
        ensures err { IfErr result (λ fault. IsFaultOf (configured_by config.now) fault) }
    {
        self.run.configure(config)
    }

    /// Takes a part of the packets' text, and submits the rows that are whole.
    pub(crate) fn feed(&mut self, part: &[u8]) -> Result<(), AllocError>
        ensures { OnOk result (FeedsPart part.now self.old self.new) }
    {
        self.reader.feed(part)?;
        // Each row ends at a byte of its own, so a part has no more rows than bytes.
        for _ in 0..part.len() {
            match self.reader.next() {
                Some(row) => submit_row(&mut self.run, &mut self.kept, &mut self.held, &row)?,
                None => return Ok(()),
            }
        }
        Ok(())
    }

    /// Submits what is left of the packets' text, which has ended, and takes all packets that are due by the last moment.
    fn submit_rest(&mut self) -> Result<(), ReplayFault>
        ensures ok { OnOk result (Fed self.old (λ records calls text. AreFew (calls_with calls text) → HasEndedWith records self.new calls text)) }
        ensures err { IfErr result (λ fault. Fed self.old (λ records calls text. IsFaultOf (calls_with calls text) fault)) }
    {
        let rows = self.reader.finish()?;
        let Ok(()) = submit_rows(
            &mut self.run,
            &mut self.kept,
            &mut self.held,
            rows.as_slice(),
        ) else {
            return Err(ReplayFault::OutOfMemory);
        };
        let Ok(()) = self.held.collect_rest(&mut self.run) else {
            return Err(ReplayFault::OutOfMemory);
        };
        Ok(())
    }

    /// Takes the end of the packets' text and all packets that are due by the last moment, and writes the report.
    ///
    /// The history of all calls is returned, or an empty one if they aren't recorded.
    pub(crate) fn finish<O: Outlet>(
        &mut self,
        alloc: Global,
        out: &mut O,
    ) -> Result<(Vec<Entry>, Outcome), ReplayFault>
        requires fed { (records : Bool) × (calls : List CallValue) × (text : List ℕ) × HasFed records self.old calls text × AreFew (calls_with calls text) }
        requires sound { O.has_failed out.old ≡ false }
        ensures ok { IfOk result (λ both. AnswersFed self.old both.0.items both.1.untargeted (O.contents out.old) (O.contents out.new)) }
        ensures unasked { IfOk result (λ both. has_entries self.old.held ≡ false → both.0.items ≡ []) }
        ensures sound { IfOk result (λ _. O.has_failed out.new ≡ false) }
        ensures err { IfErr result (λ fault. LeavesFed self.old (O.contents out.old) (O.contents out.new) (O.has_failed out.new) fault) }
    {
        self.submit_rest()?;
        let outcome = write_kept(alloc, &self.kept, self.held.all_given(&self.run), out)?;
        let history = self.held.take_history(&mut self.run, alloc);
        Ok((history, outcome))
    }
}
