use crate::callers::{PIPE, REPORT_HEADER, TWO_ROWS, replay_by};
use dn_replay::{NoGate, ReplayFault};
use std::process::Abort;
use std::sync::Wait;
use std::test::Fail;
use std::thread::Threads;
use test_devices::with_room;

// The bytes of a report with a header and two lines.
const REPORT_BYTES: usize = 67;

// The count of the entries of a replay by two callers. What it writes is added to `written`.
fn replay_by_two<R: Threads + Wait + Sync>(
    rt: &R,
    written: &mut Vec<u8>,
) -> Result<usize, ReplayFault> {
    Ok(replay_by(rt, written, 2, PIPE, TWO_ROWS, &NoGate)?.len())
}

// The same. A call that is refused memory has written nothing, and is made twice more at most.
fn made_again<R: Abort + Threads + Wait + Sync>(
    rt: &R,
    written: &mut Vec<u8>,
) -> Result<usize, ReplayFault> {
    for _ in 0..2u64 {
        let answer = replay_by_two(rt, written);
        if answer != Err(ReplayFault::OutOfMemory) {
            return answer;
        }
        assert!(rt; written.is_empty());
    }
    replay_by_two(rt, written)
}

// Run with each growth refused in turn, or each two in a row, this test passes for every one: a replay that is refused
// memory has written nothing, and made again it answers what it would have.
#[test]
fn a_refused_replay_by_callers_is_made_again(rt: HostRuntime) -> Result<(), Fail> {
    let mut written = with_room(rt.alloc(), REPORT_BYTES)?;
    assert!(rt; made_again(&rt, &mut written) == Ok(4));
    assert!(rt; written.starts_with(REPORT_HEADER.as_bytes()));
    assert!(rt; written.ends_with(b",0,1,0,0,0\n"));
    Ok(())
}
