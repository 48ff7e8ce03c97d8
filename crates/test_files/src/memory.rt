use crate::histories::one_caller;
use crate::history::ONE_CALLER;
use crate::history_files::is_read_as;
use dn_files::ReplayFault;
use dn_history::{Verdict, audit_file_with_key, audit_with_key, write_history};
use dn_records::{FromReader, FromWriter};
use dn_shaper::HashKey;
use dn_types::{Entry, Rule};
use std::alloc::{AllocError, Global};
use std::process::Abort;
use std::test::Fail;
use test_devices::with_room;

// The verdict on the file of one caller's history. What it writes is added to `written`.
fn audit_one(alloc: Global, written: &mut Vec<u8>) -> Result<Verdict, ReplayFault> {
    let mut file = FromReader::new(ONE_CALLER.as_bytes());
    audit_file_with_key(alloc, HashKey(7), &mut file, &mut FromWriter::new(written))
}

// Writes a history. A call that is refused memory has written nothing, and is made twice more at most.
fn written_again<R: Abort>(
    rt: &R,
    alloc: Global,
    entries: &[Entry],
    written: &mut Vec<u8>,
) -> Result<(), ReplayFault> {
    for _ in 0..2u64 {
        let answer = write_history(alloc, entries, &mut FromWriter::new(&mut *written));
        if answer != Err(ReplayFault::OutOfMemory) {
            return answer;
        }
        assert!(rt; written.is_empty());
    }
    write_history(alloc, entries, &mut FromWriter::new(written))
}

// Whether the file of one caller's history is read as these entries. A call that is refused memory is made twice more at most.
fn read_again(alloc: Global, expected: &[Entry]) -> Result<bool, ReplayFault> {
    for _ in 0..2u64 {
        let answer = is_read_as(alloc, ONE_CALLER.as_bytes(), expected);
        if answer != Err(ReplayFault::OutOfMemory) {
            return answer;
        }
    }
    is_read_as(alloc, ONE_CALLER.as_bytes(), expected)
}

// The verdict on some entries. A call that is refused memory is made twice more at most.
fn audited_again(alloc: Global, entries: &[Entry]) -> Result<Verdict, AllocError> {
    for _ in 0..2u64 {
        if let Ok(verdict) = audit_with_key(alloc, HashKey(7), Rule::Ordered, entries) {
            return Ok(verdict);
        }
    }
    audit_with_key(alloc, HashKey(7), Rule::Ordered, entries)
}

// The verdict on the file of one caller's history, as `written_again`.
fn file_audited_again<R: Abort>(
    rt: &R,
    alloc: Global,
    written: &mut Vec<u8>,
) -> Result<Verdict, ReplayFault> {
    for _ in 0..2u64 {
        let answer = audit_one(alloc, written);
        if answer != Err(ReplayFault::OutOfMemory) {
            return answer;
        }
        assert!(rt; written.is_empty());
    }
    audit_one(alloc, written)
}

// Run with each growth refused in turn, or each two in a row, these tests pass for every one: a call that is refused
// memory has written nothing, and made again it answers what it would have.
#[test]
fn a_refused_history_is_written_again(rt: HostRuntime) -> Result<(), Fail> {
    let alloc = rt.alloc();
    let mut written = with_room(alloc, ONE_CALLER.len())?;
    let entries = one_caller(alloc)?;
    let answer = written_again(&rt, alloc, &entries, &mut written);
    assert!(rt; answer == Ok(()));
    assert!(rt; written.as_slice() == ONE_CALLER.as_bytes());
    Ok(())
}

#[test]
fn a_refused_history_is_read_again(rt: HostRuntime) -> Result<(), Fail> {
    let alloc = rt.alloc();
    let expected = one_caller(alloc)?;
    assert!(rt; read_again(alloc, &expected) == Ok(true));
    Ok(())
}

#[test]
fn a_refused_audit_is_made_again(rt: HostRuntime) -> Result<(), Fail> {
    let alloc = rt.alloc();
    let entries = one_caller(alloc)?;
    assert!(rt; audited_again(alloc, &entries) == Ok(Verdict::Lawful));
    Ok(())
}

#[test]
fn a_refused_audit_of_a_file_is_made_again(rt: HostRuntime) -> Result<(), Fail> {
    let alloc = rt.alloc();
    let line = "lawful 4\n";
    let mut written = with_room(alloc, line.len())?;
    let answer = file_audited_again(&rt, alloc, &mut written);
    assert!(rt; answer == Ok(Verdict::Lawful));
    assert!(rt; written.as_slice() == line.as_bytes());
    Ok(())
}
