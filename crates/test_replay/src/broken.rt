use crate::replays::{replay_files, replay_joined_reader, replay_readers, replay_text};
use dn_config::LineFault;
use dn_records::{FromReader, FromWriter, Inlet, Outlet};
use dn_replay::{HashKey, Manner, PACKET_LIMIT, ReplayFault, Source, read_config, replay_input};
use std::alloc::{AllocError, Global};
use std::io;
use std::io::Read;
use std::test::Fail;
use test_devices::{Parts, Sink, WhenFull};

/// The first record of a packet file.
pub const PACKET_HEADER: &str = "moment,target,number,src,dst,proto,sport,dport,len,word\n";

pub const FULL_QUEUE: &str = "pipe 1 config bw 8Mbit/s queue 1\n--\n\
    moment,target,number,src,dst,proto,sport,dport,len,word\n\
    0,pipe,1,10.0.0.1,10.0.0.2,17,1000,2000,1000,0\n\
    0,pipe,1,10.0.0.1,10.0.0.2,17,1000,2000,1000,0\n\
    0,pipe,1,10.0.0.1,10.0.0.2,17,1000,2000,1000,0\n\
    1000000,pipe,1,10.0.0.1,10.0.0.2,17,1000,2000,1000,0\n";

pub const REPORT: &str = "event,row,flow,packet,at,start,due\n\
    out,1,0,0,0,0,1000000\n\
    out,2,0,1,0,1000000,2000000\n\
    out,4,0,2,1000000,2000000,3000000\n\
    full,3,0,,0,,\n";

// A value of 10,000 digits is read by its mathematical value.
#[test]
fn a_number_of_any_length_is_out_of_range(rt: HostRuntime) -> Result<(), Fail> {
    let alloc = rt.alloc();
    let digits = "9".repeat(alloc, 10_000)?;
    let config = format!(in alloc; "pipe 1 config queue {digits}")?;
    let outcome = replay_files(alloc, config.as_str(), "");
    let fault = LineFault::OutOfRange(5);
    assert!(rt; outcome.answer == Err(ReplayFault::Config { line: 1, fault }));
    assert!(rt; outcome.written.is_empty());
    Ok(())
}

// Whether one comment line of so many bytes gives this answer, which counts the lines and one.
fn comment_answers(
    alloc: Global,
    bytes: usize,
    answer: Result<usize, ReplayFault>,
) -> Result<bool, AllocError> {
    let config = "#".repeat(alloc, bytes)?;
    let mut input = FromReader::new(config.as_bytes());
    let read = read_config(alloc, &mut input).map(|list| list.len() + 1);
    let outcome = replay_files(alloc, config.as_str(), "");
    Ok(read == answer && outcome.answer == answer && outcome.written.is_empty() == answer.is_err())
}

// One comment line that is as long as a configuration may be, and the same with one byte more.
#[test]
fn a_configuration_has_a_limit(rt: HostRuntime) -> Result<(), Fail> {
    let alloc = rt.alloc();
    assert!(rt; comment_answers(alloc, 1_048_576, Ok(1))?);
    let fault = ReplayFault::TooLong(Source::Config);
    assert!(rt; comment_answers(alloc, 1_048_577, Err(fault))?);
    // In a joined input the limit of the whole counts, which is that of a packet file.
    let config = "#".repeat(alloc, 1_048_577)?;
    assert!(rt; replay_text(alloc, config.as_str()).answer == Ok(1));
    Ok(())
}

#[test]
fn packets_that_never_end_are_too_long(rt: HostRuntime) {
    let config = b"pipe 1 config".as_slice();
    let outcome = replay_readers(rt.alloc(), config, io::repeat(b'\n'));
    assert!(rt; outcome.is_refused(ReplayFault::TooLong(Source::Packets)));
}

#[test]
fn a_joined_input_that_never_ends_is_too_long(rt: HostRuntime) {
    let outcome = replay_joined_reader(rt.alloc(), io::repeat(b'#'));
    assert!(rt; outcome.is_refused(ReplayFault::TooLong(Source::Input)));
}

// Whether packets with this header are refused, from two files and from one joined input.
fn header_is_refused(alloc: Global, header: &str) -> Result<bool, AllocError> {
    let fault = ReplayFault::BadRow { row: 0, field: 0 };
    let text = format!(in alloc; "pipe 1 config\n--\r\n{header}")?;
    let files = replay_files(alloc, "pipe 1 config", header);
    let joined = replay_text(alloc, text.as_str());
    Ok(files.is_refused(fault) && joined.is_refused(fault))
}

#[test]
fn another_header_is_refused(rt: HostRuntime) -> Result<(), Fail> {
    for header in [
        "moment,target\n",
        "moment,target,number,src,dst,proto,sport,dport,len,words\n",
        "Moment,target,number,src,dst,proto,sport,dport,len,word\n",
        "0,pipe,1,10.0.0.1,10.0.0.2,17,1000,2000,1000,0\n",
    ] {
        assert!(rt; header_is_refused(rt.alloc(), header)?, "{header}");
    }
    Ok(())
}

// Whether a replay of two inputs is refused for a failed read of this one, and writes nothing.
fn read_fails<C: Read + Drop, P: Read + Drop>(
    alloc: Global,
    config: C,
    packets: P,
    source: Source,
) -> bool {
    replay_readers(alloc, config, packets).is_refused(ReplayFault::Read(source))
}

// Each of two inputs that fails after each number of its bytes is told by its own name.
#[test]
fn a_failed_read_is_told_by_its_name(rt: HostRuntime) {
    let alloc = rt.alloc();
    let config = b"pipe 1 config\n".as_slice();
    let packets = PACKET_HEADER.as_bytes();
    for good in 0..=config.len() {
        let failing = Parts::failing(config, good);
        assert!(rt;
            read_fails(alloc, failing, packets, Source::Config),
            "{good} bytes"
        );
    }
    for good in 0..=packets.len() {
        let failing = Parts::failing(packets, good);
        assert!(rt;
            read_fails(alloc, config, failing, Source::Packets),
            "{good} bytes"
        );
    }
}

// Whether a joined input that fails after so many of its bytes is told as failed, and nothing is written.
fn joined_read_fails(alloc: Global, good: usize) -> bool {
    let mut input = FromReader::new(Parts::failing(FULL_QUEUE.as_bytes(), good));
    let mut written = Vec::new(alloc);
    let manner = Manner {
        key: HashKey(7),
        records: true,
        limit: PACKET_LIMIT,
    };
    let mut out = FromWriter::new(&mut written);
    let outcome = replay_input(alloc, manner, &mut input, &mut out);
    outcome.err() == Some(ReplayFault::Read(Source::Input)) && input.failed() && written.is_empty()
}

// An input that fails after each number of its bytes, also after the last one.
#[test]
fn a_failed_read_is_told_and_nothing_is_written(rt: HostRuntime) {
    for good in 0..=FULL_QUEUE.len() {
        assert!(rt; joined_read_fails(rt.alloc(), good), "{good} bytes");
    }
}

#[test]
fn a_report_is_written_byte_by_byte(rt: HostRuntime) {
    let alloc = rt.alloc();
    let mut input = FromReader::new(FULL_QUEUE.as_bytes());
    let mut sink = Sink::new(alloc, REPORT.len(), WhenFull::Fails);
    let manner = Manner {
        key: HashKey(7),
        records: true,
        limit: PACKET_LIMIT,
    };
    let mut out = FromWriter::new(&mut sink);
    let outcome = replay_input(alloc, manner, &mut input, &mut out);
    assert!(rt; outcome.is_ok());
    assert!(rt; sink.held.as_slice() == REPORT.as_bytes());
}

// Whether an output that is full after so many bytes is told as failed, and has exactly those.
fn write_fails(alloc: Global, room: usize, when_full: WhenFull) -> bool {
    let mut input = FromReader::new(FULL_QUEUE.as_bytes());
    let mut sink = Sink::new(alloc, room, when_full);
    let mut out = FromWriter::new(&mut sink);
    let manner = Manner {
        key: HashKey(7),
        records: true,
        limit: PACKET_LIMIT,
    };
    let outcome = replay_input(alloc, manner, &mut input, &mut out);
    out.failed()
        && outcome.err() == Some(ReplayFault::Write(Source::Report))
        && Some(sink.held.as_slice()) == REPORT.as_bytes().get(..room)
}

// An output that fails, or takes nothing, after each number of the report's bytes: exactly those were written.
#[test]
fn a_failed_write_is_told(rt: HostRuntime) {
    for room in 0..REPORT.len() {
        for when_full in [WhenFull::Fails, WhenFull::TakesNothing] {
            assert!(rt; write_fails(rt.alloc(), room, when_full), "room {room}");
        }
    }
}
