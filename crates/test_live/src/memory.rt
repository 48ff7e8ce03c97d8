use crate::sessions::{SERVED, input, session};
use dn_files::ReplayFault;
use dn_live::{HashKey, Served, live};
use dn_records::{FromReader, FromWriter};
use std::alloc::{AllocError, Global};
use std::process::Abort;
use std::test::Fail;
use test_devices::with_room;

// Serves a session. What it writes is added to `written`.
fn serve(alloc: Global, text: &[u8], written: &mut Vec<u8>) -> Result<Served, ReplayFault> {
    let mut inlet = FromReader::new(text);
    live(alloc, HashKey(7), &mut inlet, &mut FromWriter::new(written))
}

// The input, and the session. If memory is refused here it is tried twice more, so that the session is served all the same.
fn input_again(alloc: Global) -> Result<String, AllocError> {
    for _ in 0..2u64 {
        if let Ok(text) = input(alloc) {
            return Ok(text);
        }
    }
    input(alloc)
}

fn session_again(alloc: Global) -> Result<String, AllocError> {
    for _ in 0..2u64 {
        if let Ok(text) = session(alloc) {
            return Ok(text);
        }
    }
    session(alloc)
}

// Serves a session. One that is refused memory is served twice more at most. What it has written is a front of whole lines.
fn served_again<R: Abort>(
    rt: &R,
    alloc: Global,
    text: &[u8],
    wanted: &str,
    written: &mut Vec<u8>,
) -> Result<Served, ReplayFault> {
    for _ in 0..2u64 {
        let answer = serve(alloc, text, written);
        if answer != Err(ReplayFault::OutOfMemory) {
            return answer;
        }
        assert!(rt; wanted.as_bytes().starts_with(written.as_slice()));
        assert!(rt; written.ends_with(b"\n") && written.len() < wanted.len());
        written.clear();
    }
    serve(alloc, text, written)
}

// Run with each growth refused in turn, or each two in a row, this test passes for every one: what was written before is
// a front of the session, of whole lines, and a session that is served again is written whole.
#[test]
fn a_refused_session_is_served_again(rt: HostRuntime) -> Result<(), Fail> {
    let alloc = rt.alloc();
    let text = input_again(alloc)?;
    let wanted = session_again(alloc)?;
    let mut written = with_room(alloc, wanted.len())?;
    let answer = served_again(&rt, alloc, text.as_bytes(), &wanted, &mut written);
    assert!(rt; answer == Ok(SERVED));
    assert!(rt; written.as_slice() == wanted.as_bytes());
    Ok(())
}
