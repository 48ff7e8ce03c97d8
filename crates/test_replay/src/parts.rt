use crate::broken::{FULL_QUEUE, PACKET_HEADER, REPORT};
use dn_config::split_joined;
use dn_records::{FromReader, FromWriter};
use dn_replay::{HashKey, Manner, PACKET_LIMIT, ReplayFault, Source, replay_files, replay_input};
use std::alloc::{AllocError, Global};
use std::test::Fail;
use test_devices::Parts;

// How many bytes a read gives at most.
const STEPS: [usize; 6] = [1, 2, 3, 7, 64, 65_536];

// How many entries a history has, where one is kept. Where none is, it is empty.
fn kept(records: bool, count: usize) -> Option<usize> {
    if records || count > 0 {
        Some(count)
    } else {
        None
    }
}

// What a replay of a joined input answers: how many entries its history has, where it keeps one. What it writes is
// added to `written`.
fn joined(
    alloc: Global,
    records: bool,
    input: Parts<'_>,
    written: &mut Vec<u8>,
) -> Result<Option<usize>, ReplayFault> {
    let mut input = FromReader::new(input);
    let mut out = FromWriter::new(written);
    let manner = Manner {
        key: HashKey(7),
        records,
        limit: PACKET_LIMIT,
    };
    let (entries, _) = replay_input(alloc, manner, &mut input, &mut out)?;
    Ok(kept(records, entries.len()))
}

// The same of a configuration and packets.
fn both(
    alloc: Global,
    records: bool,
    step: usize,
    written: &mut Vec<u8>,
) -> Result<Option<usize>, ReplayFault> {
    let (config, packets) = split_joined(FULL_QUEUE.as_bytes());
    let mut config = FromReader::new(Parts::of(config, step));
    let mut packets = FromReader::new(Parts::of(packets, step));
    let mut out = FromWriter::new(written);
    let manner = Manner {
        key: HashKey(7),
        records,
        limit: PACKET_LIMIT,
    };
    let (entries, _) = replay_files(alloc, manner, &mut config, &mut packets, &mut out)?;
    Ok(kept(records, entries.len()))
}

// Whether the report of an input is written, and its history has so many entries where it is kept, from one input
// and from two whose reads give so many bytes.
fn gives_the_report(alloc: Global, step: usize, entries: Option<usize>) -> bool {
    let mut written = Vec::new(alloc);
    let input = Parts::of(FULL_QUEUE.as_bytes(), step);
    let answer = joined(alloc, entries.is_some(), input, &mut written);
    if answer != Ok(entries) || written.as_slice() != REPORT.as_bytes() {
        return false;
    }
    let mut written = Vec::new(alloc);
    let answer = both(alloc, entries.is_some(), step, &mut written);
    answer == Ok(entries) && written.as_slice() == REPORT.as_bytes()
}

// The report and the history of an input are the same whatever its reads give.
#[test]
fn parts_of_any_length_give_one_report(rt: HostRuntime) {
    for step in STEPS {
        assert!(rt; gives_the_report(rt.alloc(), step, None), "{step} bytes");
        assert!(rt;
            gives_the_report(rt.alloc(), step, Some(6)),
            "{step} bytes, with a history"
        );
    }
}

// Whether a joined input is refused for a fault whatever its reads give, until so many bytes have come, and
// nothing is written.
fn is_refused(alloc: Global, records: bool, text: &str, good: usize, fault: ReplayFault) -> bool {
    for step in STEPS {
        let mut written = Vec::new(alloc);
        let input = Parts {
            rest: text.as_bytes(),
            step,
            good,
            calls: 0,
        };
        let answer = joined(alloc, records, input, &mut written);
        if answer != Err(fault) || !written.is_empty() {
            return false;
        }
    }
    true
}

// Whether rows behind a configuration are refused for this fault, and where a read fails at the end, for that.
fn is_refused_in_order(
    alloc: Global,
    config: &str,
    rows: &str,
    fault: ReplayFault,
) -> Result<bool, AllocError> {
    let text = format!(in alloc; "{config}--\r\n{PACKET_HEADER}{rows}")?;
    let text = text.as_str();
    let read = ReplayFault::Read(Source::Input);
    for records in [false, true] {
        if !is_refused(alloc, records, text, usize::MAX, fault)
            || !is_refused(alloc, records, text, text.len(), read)
        {
            return Ok(false);
        }
    }
    Ok(true)
}

// A refused configuration is told before a bad row, and a failed read before both.
#[test]
fn faults_of_parts_keep_their_order(rt: HostRuntime) -> Result<(), Fail> {
    let alloc = rt.alloc();
    let rows = "0,pipe,1,10.0.0.1,10.0.0.2,17,1000,2000,1000,0\n0,pipe,x,,,,,,,\n";
    let config = "pipe 1 config\nqueue 1 config pipe 9\n";
    assert!(rt; is_refused_in_order(alloc, config, rows, ReplayFault::NoSuchPipe(2))?);
    let fault = ReplayFault::BadRow { row: 2, field: 3 };
    assert!(rt; is_refused_in_order(alloc, "pipe 1 config\n", rows, fault)?);
    Ok(())
}
