use crate::broken::{FULL_QUEUE, REPORT};
use dn_config::split_joined;
use dn_records::{FromReader, FromWriter};
use dn_replay::{HashKey, Manner, PACKET_LIMIT, ReplayFault, replay_files, replay_input};
use std::alloc::Global;
use std::process::Abort;
use std::test::Fail;
use test_devices::with_room;

// The count of the entries of a replay of one input. What it writes is added to `written`.
fn replay_one(alloc: Global, written: &mut Vec<u8>) -> Result<usize, ReplayFault> {
    let mut input = FromReader::new(FULL_QUEUE.as_bytes());
    let mut out = FromWriter::new(written);
    let manner = Manner {
        key: HashKey(7),
        records: true,
        limit: PACKET_LIMIT,
    };
    replay_input(alloc, manner, &mut input, &mut out).map(|(entries, _)| entries.len())
}

// The same of its two parts.
fn replay_two(alloc: Global, written: &mut Vec<u8>) -> Result<usize, ReplayFault> {
    let (config, packets) = split_joined(FULL_QUEUE.as_bytes());
    let mut config = FromReader::new(config);
    let mut packets = FromReader::new(packets);
    let mut out = FromWriter::new(written);
    let manner = Manner {
        key: HashKey(7),
        records: true,
        limit: PACKET_LIMIT,
    };
    replay_files(alloc, manner, &mut config, &mut packets, &mut out).map(|(
        entries,
        _,
    )| entries.len())
}

// A replay of one input. A call that is refused memory has written nothing, and is made twice more at most.
fn one_again<R: Abort>(rt: &R, alloc: Global, written: &mut Vec<u8>) -> Result<usize, ReplayFault> {
    for _ in 0..2u64 {
        let answer = replay_one(alloc, written);
        if answer != Err(ReplayFault::OutOfMemory) {
            return answer;
        }
        assert!(rt; written.is_empty());
    }
    replay_one(alloc, written)
}

// The same of its two parts.
fn two_again<R: Abort>(rt: &R, alloc: Global, written: &mut Vec<u8>) -> Result<usize, ReplayFault> {
    for _ in 0..2u64 {
        let answer = replay_two(alloc, written);
        if answer != Err(ReplayFault::OutOfMemory) {
            return answer;
        }
        assert!(rt; written.is_empty());
    }
    replay_two(alloc, written)
}

// Run with each growth refused in turn, or each two in a row, these tests pass for every one: a call that is refused
// memory has written nothing, and made again it answers what it would have.
#[test]
fn a_refused_replay_of_one_input_is_made_again(rt: HostRuntime) -> Result<(), Fail> {
    let alloc = rt.alloc();
    let mut written = with_room(alloc, REPORT.len())?;
    assert!(rt; one_again(&rt, alloc, &mut written) == Ok(6));
    assert!(rt; written.as_slice() == REPORT.as_bytes());
    Ok(())
}

#[test]
fn a_refused_replay_of_two_inputs_is_made_again(rt: HostRuntime) -> Result<(), Fail> {
    let alloc = rt.alloc();
    let mut written = with_room(alloc, REPORT.len())?;
    assert!(rt; two_again(&rt, alloc, &mut written) == Ok(6));
    assert!(rt; written.as_slice() == REPORT.as_bytes());
    Ok(())
}
