use crate::history::ONE_CALLER;
use dn_files::{ReplayFault, Source};
use dn_history::{FileAudit, Verdict, audit_file_within};
use dn_records::{FromReader, FromWriter};
use dn_shaper::HashKey;
use std::alloc::Global;

// What the audit of a file answers that has at most so many bytes, and whether those can be fed.
fn within(alloc: Global, limit: usize) -> (Result<Verdict, ReplayFault>, Result<(), ReplayFault>) {
    let mut written = Vec::new(alloc);
    let mut input = FromReader::new(ONE_CALLER.as_bytes());
    let mut out = FromWriter::new(&mut written);
    let answer = audit_file_within(alloc, HashKey(7), limit, &mut input, &mut out);
    let mut audit = FileAudit::within(alloc, HashKey(7), limit);
    let fed = audit.feed(ONE_CALLER.as_bytes());
    drop(audit);
    (answer, fed)
}

#[test]
fn a_file_is_audited_up_to_its_limit(rt: HostRuntime) {
    let long = ONE_CALLER.len();
    let too_long = ReplayFault::TooLong(Source::History);
    assert!(rt; within(rt.alloc(), long) == (Ok(Verdict::Lawful), Ok(())));
    assert!(rt; within(rt.alloc(), long.saturating_sub(1)) == (Err(too_long), Err(too_long)));
}
