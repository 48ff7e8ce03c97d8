use crate::history::ONE_CALLER;
use dn_files::{ReplayFault, Source};
use dn_history::{audit_file, audit_file_with_key};
use dn_records::{FromReader, FromWriter, Inlet, Outlet};
use dn_shaper::HashKey;
use std::alloc::Global;
use test_devices::{Parts, Sink, WhenFull};

// Whether a file that fails after so many of its bytes is told as failed, and nothing is written.
fn read_fails(alloc: Global, good: usize) -> bool {
    let mut written = Vec::new(alloc);
    let mut input = FromReader::new(Parts::failing(ONE_CALLER.as_bytes(), good));
    let answer = audit_file_with_key(
        alloc,
        HashKey(7),
        &mut input,
        &mut FromWriter::new(&mut written),
    );
    answer == Err(ReplayFault::Read(Source::History)) && input.failed() && written.is_empty()
}

#[test]
fn a_failed_read_has_no_verdict(rt: HostRuntime) {
    for good in [0, 20, ONE_CALLER.len()] {
        assert!(rt; read_fails(rt.alloc(), good), "{good} bytes");
    }
}

// Whether an output that is full after so many bytes of the line is told as failed, and has exactly those.
fn write_fails(alloc: Global, line: &[u8], room: usize, when_full: WhenFull) -> bool {
    let mut sink = Sink::new(alloc, room, when_full);
    let mut out = FromWriter::new(&mut sink);
    let mut input = FromReader::new(ONE_CALLER.as_bytes());
    let answer = audit_file(alloc, &mut input, &mut out);
    out.failed()
        && answer == Err(ReplayFault::Write(Source::Report))
        && Some(sink.held.as_slice()) == line.get(..room)
}

// An output that fails, or takes nothing, after each number of the line's bytes: exactly those were written.
#[test]
fn a_failed_write_of_a_verdict_is_told(rt: HostRuntime) {
    let alloc = rt.alloc();
    let line = b"lawful 4\n".as_slice();
    for room in 0..line.len() {
        assert!(rt;
            write_fails(alloc, line, room, WhenFull::Fails),
            "room {room}"
        );
        assert!(rt;
            write_fails(alloc, line, room, WhenFull::TakesNothing),
            "room {room}"
        );
    }
}
