use crate::gates::{Count, Meeting, OneFirst};
use dn_records::{FromReader, FromWriter};
use dn_replay::{
    Gate, HashKey, Manner, NoGate, PACKET_LIMIT, ReplayFault, replay_callers, replay_files,
};
use dn_types::{Call, Entry};
use std::alloc::Global;
use std::sync::Wait;
use std::sync::atomic::{AtomicU64, Ordering};
use std::test::Fail;
use std::thread::Threads;

pub const REPORT_HEADER: &str = "event,row,flow,packet,at,start,due\n";

pub const PIPE: &str = "pipe 1 config\n";

// Two packets at 0.
pub const TWO_ROWS: &str = "moment,target,number,src,dst,proto,sport,dport,len,word\n\
    0,pipe,1,10.0.0.1,10.0.0.2,17,1000,2000,1000,0\n\
    0,pipe,1,10.0.0.1,10.0.0.2,17,1000,2000,1000,0\n";

// Seven packets at 0, each with the number of its row.
const SEVEN_ROWS: &str = "moment,target,number,src,dst,proto,sport,dport,len,word\n\
    0,pipe,1,10.0.0.1,10.0.0.2,17,1000,2000,1000,1\n\
    0,pipe,1,10.0.0.1,10.0.0.2,17,1000,2000,1000,2\n\
    0,pipe,1,10.0.0.1,10.0.0.2,17,1000,2000,1000,3\n\
    0,pipe,1,10.0.0.1,10.0.0.2,17,1000,2000,1000,4\n\
    0,pipe,1,10.0.0.1,10.0.0.2,17,1000,2000,1000,5\n\
    0,pipe,1,10.0.0.1,10.0.0.2,17,1000,2000,1000,6\n\
    0,pipe,1,10.0.0.1,10.0.0.2,17,1000,2000,1000,7\n";

// A replay by n callers of the texts of two inputs. What it writes is added to `written`.
pub fn replay_by<G: Gate + Sync, R: Threads + Wait + Sync>(
    rt: &R,
    written: &mut Vec<u8>,
    n: usize,
    config: &str,
    packets: &str,
    gate: &G,
) -> Result<Vec<Entry>, ReplayFault> {
    let alloc: Global = *written.allocator();
    let mut config = FromReader::new(config.as_bytes());
    let mut packets = FromReader::new(packets.as_bytes());
    let mut out = FromWriter::new(written);
    replay_callers(rt, alloc, n, &mut config, &mut packets, &mut out, gate)
}

// The same by one caller, without threads.
fn replay_alone(
    written: &mut Vec<u8>,
    config: &str,
    packets: &str,
) -> Result<Vec<Entry>, ReplayFault> {
    let alloc: Global = *written.allocator();
    let mut config = FromReader::new(config.as_bytes());
    let mut packets = FromReader::new(packets.as_bytes());
    let mut out = FromWriter::new(written);
    let manner = Manner {
        key: HashKey(7),
        records: true,
        limit: PACKET_LIMIT,
    };
    replay_files(alloc, manner, &mut config, &mut packets, &mut out).map(|(entries, _)| entries)
}

// Whether a report has a line for each of so many rows that came out.
fn has_rows(alloc: Global, report: &[u8], rows: u64) -> Result<bool, Fail> {
    let text = str::from_utf8(report)?;
    for row in 1..=rows {
        let line = format!(in alloc; "\nout,{row},0,")?;
        if !text.contains(line.as_str()) {
            return Ok(false);
        }
    }
    Ok(true)
}

// Both callers are there before either submits, which one thread could not bring about.
#[test]
fn callers_overlap(rt: HostRuntime) -> Result<(), Fail> {
    let gate = Meeting {
        zero: AtomicU64::new(0),
        one: AtomicU64::new(0),
        seen: AtomicU64::new(0),
    };
    let mut written = Vec::new(rt.alloc());
    let calls = replay_by(&rt, &mut written, 2, PIPE, TWO_ROWS, &gate)?.len();
    assert!(rt; gate.seen.load(Ordering::SeqCst) == 2);
    assert!(rt; calls == 4);
    assert!(rt; has_rows(rt.alloc(), written.as_slice(), 2)?);
    Ok(())
}

// Whether the calls are a Configure, a Submit by caller 1, one by caller 0 and a Collect.
fn is_one_first(entries: &[Entry]) -> bool {
    let [configure, first, second, collect] = entries else {
        return false;
    };
    [
        configure.caller,
        first.caller,
        second.caller,
        collect.caller,
    ] == [0, 1, 0, 0]
        && matches!(configure.call, Call::Configure(_))
        && matches!(first.call, Call::Submit { .. })
        && matches!(second.call, Call::Submit { .. })
        && matches!(collect.call, Call::Collect(_))
}

// The second row is submitted first, so its packet is the first.
#[test]
fn a_gate_chooses_the_order(rt: HostRuntime) -> Result<(), Fail> {
    let alloc = rt.alloc();
    let gate = OneFirst {
        answered: AtomicU64::new(0),
    };
    let mut written = Vec::new(alloc);
    let entries = replay_by(&rt, &mut written, 2, PIPE, TWO_ROWS, &gate)?;
    assert!(rt; is_one_first(&entries));
    let report = format!(in alloc; "{REPORT_HEADER}out,2,0,0,0,0,0\nout,1,0,1,0,0,0\n")?;
    assert!(rt; written.as_slice() == report.as_bytes());
    Ok(())
}

// A count of callers is refused before anything is read or written.
#[test]
fn bad_counts_of_callers(rt: HostRuntime) {
    let alloc = rt.alloc();
    for n in [0, 17, usize::MAX] {
        let mut written = Vec::new(alloc);
        let answer = replay_by(&rt, &mut written, n, "no command", "no header", &NoGate);
        assert!(rt; answer.err() == Some(ReplayFault::BadCount));
        assert!(rt; written.is_empty());
    }
}

// Whether a replay by two callers is refused for the fault of a replay by one, and writes nothing.
fn has_same_fault<R: Threads + Wait + Sync>(
    rt: &R,
    alloc: Global,
    config: &str,
    packets: &str,
) -> bool {
    let mut written = Vec::new(alloc);
    let mut alone = Vec::new(alloc);
    let fault = replay_by(rt, &mut written, 2, config, packets, &NoGate).err();
    fault.is_some()
        && fault == replay_alone(&mut alone, config, packets).err()
        && written.is_empty()
}

// The faults of the inputs are those of a replay by one caller.
#[test]
fn faults_of_a_replay_by_callers(rt: HostRuntime) {
    for (config, packets) in [
        ("queue 1 config pipe 3\n", "0\n"),
        ("link 1\n", TWO_ROWS),
        ("pipe 7 delete\n", TWO_ROWS),
        (PIPE, "moment\n"),
        (PIPE, "0\n"),
    ] {
        assert!(rt; has_same_fault(&rt, rt.alloc(), config, packets));
    }
}

// Whether a replay by one caller has the history of a replay alone. Their reports are added to these two.
fn has_same_history<R: Threads + Wait + Sync>(
    rt: &R,
    written: &mut Vec<u8>,
    alone: &mut Vec<u8>,
) -> Result<bool, ReplayFault> {
    let entries = replay_by(rt, written, 1, PIPE, SEVEN_ROWS, &NoGate)?;
    let history = replay_alone(alone, PIPE, SEVEN_ROWS)?;
    Ok(entries.as_slice() == history.as_slice())
}

#[test]
fn one_caller_replays_alone(rt: HostRuntime) -> Result<(), Fail> {
    let alloc = rt.alloc();
    let mut written = Vec::new(alloc);
    let mut alone = Vec::new(alloc);
    assert!(rt; has_same_history(&rt, &mut written, &mut alone)?);
    assert!(rt; written.as_slice() == alone.as_slice());
    assert!(rt; alone.len() > REPORT_HEADER.len());
    Ok(())
}

// The words of the rows that a caller submitted, as the digits of a number.
fn rows_of(entries: &[Entry], caller: usize) -> u32 {
    let mut rows = 0u32;
    for entry in entries {
        if let Call::Submit { packet, .. } = entry.call {
            if entry.caller == caller {
                rows = rows.wrapping_mul(10).wrapping_add(packet.word);
            }
        }
    }
    rows
}

// The rows of callers 0, 1 and 2 in a replay by n callers, whose report is added to `written`.
fn rows_by<R: Threads + Wait + Sync>(
    rt: &R,
    written: &mut Vec<u8>,
    n: usize,
    gate: &Count,
) -> Result<[u32; 3], ReplayFault> {
    let entries = replay_by(rt, written, n, PIPE, SEVEN_ROWS, gate)?;
    Ok([
        rows_of(&entries, 0),
        rows_of(&entries, 1),
        rows_of(&entries, 2),
    ])
}

// Whether these rows fall to n callers, caller 2 has this last turn, and each row comes out.
fn rows_fall<R: Threads + Wait + Sync>(
    rt: &R,
    alloc: Global,
    n: usize,
    last: u64,
    rows: [u32; 3],
) -> Result<bool, Fail> {
    let gate = Count {
        before: AtomicU64::new(0),
        after: AtomicU64::new(0),
        last: AtomicU64::new(0),
    };
    let mut written = Vec::new(alloc);
    let fallen = rows_by(rt, &mut written, n, &gate)?;
    let came_out = has_rows(alloc, written.as_slice(), 7)?;
    Ok(fallen == rows && gate.counts() == [7, 7, last] && came_out)
}

#[test]
fn rows_fall_to_callers_in_turn(rt: HostRuntime) -> Result<(), Fail> {
    let alloc = rt.alloc();
    assert!(rt; rows_fall(&rt, alloc, 2, 0, [1357, 246, 0])?);
    assert!(rt; rows_fall(&rt, alloc, 3, 1, [147, 25, 36])?);
    Ok(())
}
