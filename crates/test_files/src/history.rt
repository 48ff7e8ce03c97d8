use crate::histories::one_caller;
use dn_files::{ReplayFault, Source};
use dn_history::{read_history, write_history};
use dn_records::{FromReader, FromWriter, Outlet};
use dn_types::{Entry, Rule};
use std::alloc::Global;
use std::test::Fail;
use test_devices::{Sink, WhenFull};

pub const ONE_CALLER: &str = "dummynet-history,3\n\
    c,0,configure,pipe 1 config bw 8000000bit/s\n\
    r,configured\n\
    c,0,submit,pipe,1,10.0.0.1,10.0.0.2,17,1000,2000,1000,0,0\n\
    r,queued,0,0,0\n\
    c,0,collect,1000000\n\
    r,delivered,1000000,1\n\
    d,0,0,0,1000000\n\
    c,0,show\n\
    r,status,1\n\
    f,0,pipe,1,1,0.0.0.0,0.0.0.0,0,0,0,0.0.0.0,0.0.0.0,0,0,0,0,0,0,0,1,0\n\
    end,4\n";

#[test]
fn one_caller_history(rt: HostRuntime) -> Result<(), Fail> {
    let alloc = rt.alloc();
    let entries = one_caller(alloc)?;
    let mut written = Vec::new(alloc);
    let outcome = write_history(alloc, &entries, &mut FromWriter::new(&mut written));
    assert!(rt; outcome == Ok(()));
    let file = written.as_slice();
    assert!(rt; file == ONE_CALLER.as_bytes());
    // In the README of dn_history, 1:
    let (rule, back) = read_history(alloc, &mut FromReader::new(file))?;
    // Up to here.
    assert!(rt; rule == Rule::Ordered && back.as_slice() == entries.as_slice());
    Ok(())
}

#[test]
fn a_history_is_written_byte_by_byte(rt: HostRuntime) -> Result<(), Fail> {
    let alloc = rt.alloc();
    let entries = one_caller(alloc)?;
    let mut sink = Sink::new(alloc, ONE_CALLER.len(), WhenFull::Fails);
    let outcome = write_history(alloc, &entries, &mut FromWriter::new(&mut sink));
    assert!(rt; outcome == Ok(()));
    assert!(rt; sink.held.as_slice() == ONE_CALLER.as_bytes());
    Ok(())
}

// Whether an output that is full after so many bytes of this history is told as failed, and has exactly those.
fn write_fails(alloc: Global, entries: &[Entry], room: usize, when_full: WhenFull) -> bool {
    let mut sink = Sink::new(alloc, room, when_full);
    let mut out = FromWriter::new(&mut sink);
    let outcome = write_history(alloc, entries, &mut out);
    out.failed()
        && outcome == Err(ReplayFault::Write(Source::History))
        && Some(sink.held.as_slice()) == ONE_CALLER.as_bytes().get(..room)
}

// An output that fails, or takes nothing, after each number of the file's bytes: exactly those were written.
#[test]
fn a_failed_write_of_a_history_is_told(rt: HostRuntime) -> Result<(), Fail> {
    let alloc = rt.alloc();
    let entries = one_caller(alloc)?;
    for room in 0..ONE_CALLER.len() {
        assert!(rt;
            write_fails(alloc, &entries, room, WhenFull::Fails),
            "room {room}"
        );
        assert!(rt;
            write_fails(alloc, &entries, room, WhenFull::TakesNothing),
            "room {room}"
        );
    }
    Ok(())
}
