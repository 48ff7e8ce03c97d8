use crate::request::Audit;
use dn_records::{FromReader, FromWriter};
use dn_replay::{HISTORY_LIMIT, HashKey, ReplayFault, Source, audit_file_within};
use std::rt::Files;
use std::{fs, io};

/// Audits the history in a file, and answers the status of the verdict.
pub fn audit<R: Files + Print + AllocGlobal>(
    rt: &R,
    key: HashKey,
    asked: &Audit<'_>,
) -> Result<u8, ReplayFault> {
    let Ok(file) = fs::open(rt, asked.history) else {
        return Err(ReplayFault::Read(Source::History));
    };
    let limit = asked.most_history.unwrap_or(HISTORY_LIMIT);
    let mut history = FromReader::new(file);
    let mut out = FromWriter::new(io::writer(rt));
    Ok(audit_file_within(rt.alloc(), key, limit, &mut history, &mut out)?.status())
}
