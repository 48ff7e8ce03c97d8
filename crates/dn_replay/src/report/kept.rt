ghost use Rattle.std.specs.Prelude.{◌≡◌, ◌+◌, [], ◌++◌, ◌&&◌, length, not, OnOk, option_to_list};
ghost use Rattle.std.specs.List.{list_any};
ghost use Rattle.dn_replay.specs.Kept.{accepted_row, are_untargeted, HasKept, lacks_target, refused_row};
ghost use Rattle.dn_replay.specs.KeptReports.{KeepsReply};

use crate::report::fate::Fate;
use crate::report::kept_rows::{AcceptedRow, RefusedRow};
use dn_types::Reply;
use std::alloc::{AllocError, Global};

/// What a report needs of the Submits of one caller so far.
#[derive(Drop)]
pub(crate) struct Kept {
    /// By packet number, the rows whose packets were accepted.
    pub(crate) accepted: Vec<AcceptedRow>,
    /// The other rows, in their order.
    pub(crate) refused: Vec<RefusedRow>,
}

/// Adds a row, if its packet was accepted.
fn keep_accepted(rows: &mut Vec<AcceptedRow>, row: usize, fate: Fate) -> Result<(), AllocError>
    ensures { OnOk result (rows.new.items ≡ rows.old.items ++ option_to_list (accepted_row row fate)) }
{
    match fate {
        Fate::Accepted { flow, at } => rows.push(AcceptedRow { row, flow, at })?,
        Fate::Refused(_) => {}
    }
    Ok(())
}

/// Adds a row, if its packet was not accepted.
fn keep_refused(rows: &mut Vec<RefusedRow>, row: usize, fate: Fate) -> Result<(), AllocError>
    ensures { OnOk result (rows.new.items ≡ rows.old.items ++ option_to_list (refused_row row fate)) }
{
    match fate {
        Fate::Accepted { .. } => {}
        Fate::Refused(why) => rows.push(RefusedRow { row, why })?,
    }
    Ok(())
}

/// Whether a packet had a target.
fn has_target(rows: &[RefusedRow]) -> bool
    ensures { result ≡ list_any (λ r. not (lacks_target r.why)) rows.now }
{
    rows.iter().any(|row| !row.why.lacks_target())
}

/// Whether a packet had no target.
fn lacks_target(rows: &[RefusedRow]) -> bool
    ensures { result ≡ list_any (λ r. lacks_target r.why) rows.now }
{
    rows.iter().any(|row| row.why.lacks_target())
}

/// Whether there is a row, and no row had a target.
fn all_lack_target(rows: &[RefusedRow]) -> bool
    ensures { result ≡ not (list_any (λ r. not (lacks_target r.why)) rows.now) && list_any (λ r. lacks_target r.why) rows.now }
{
    // A row with a target ends the first search, so that the second is seldom made.
    !has_target(rows) && lacks_target(rows)
}

impl Kept {
    /// Nothing is kept before the first call.
    pub(crate) fn new(alloc: Global) -> Kept
        ensures { HasKept result [] }
    {
        Kept {
            accepted: Vec::new(alloc),
            refused: Vec::new(alloc),
        }
    }

    /// How many rows there are.
    pub(crate) fn rows(&self) -> usize
        ensures { result ≡ length self.now.accepted.items + length self.now.refused.items }
    {
        self.accepted.len() + self.refused.len()
    }

    /// Keeps what a report needs of the reply to the next Submit.
    #[inline(always)]
    pub(crate) fn note(&mut self, reply: &Reply) -> Result<(), AllocError>
        ensures { OnOk result (KeepsReply reply.now self.old self.new) }
    {
        let fate = Fate::of(reply);
        let row = self.rows() + 1;
        keep_accepted(&mut self.accepted, row, fate)?;
        keep_refused(&mut self.refused, row, fate)?;
        Ok(())
    }

    /// Whether there is a row, and no row has a target.
    pub(crate) fn all_untargeted(&self) -> bool
        ensures { result ≡ are_untargeted self.now }
    {
        self.accepted.is_empty() && all_lack_target(self.refused.as_slice())
    }
}
