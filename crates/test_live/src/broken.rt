use crate::sessions::{answered, input, session};
use dn_files::{ReplayFault, Source};
use dn_live::{HashKey, live};
use dn_records::{FromReader, FromWriter, Inlet, Outlet};
use std::alloc::{AllocError, Global};
use std::test::Fail;
use test_devices::{Parts, Sink, WhenFull};

// Whether a session whose input fails after so many bytes is told as failed, and has answered the lines before.
fn read_fails(alloc: Global, text: &[u8], good: usize) -> Result<bool, AllocError> {
    let mut written = Vec::new(alloc);
    let mut lines = 0usize;
    for byte in text.iter().take(good) {
        if *byte == b'\n' {
            lines = lines.saturating_add(1);
        }
    }
    let wanted = answered(alloc, lines)?;
    let mut inlet = FromReader::new(Parts::failing(text, good));
    let answer = live(
        alloc,
        HashKey(7),
        &mut inlet,
        &mut FromWriter::new(&mut written),
    );
    Ok(
        answer == Err(ReplayFault::Read(Source::Input))
            && inlet.failed()
            && written.as_slice() == wanted.as_bytes(),
    )
}

#[test]
fn lines_before_a_failed_read_are_answered(rt: HostRuntime) -> Result<(), Fail> {
    let text = input(rt.alloc())?;
    for good in 0..=text.len() {
        assert!(rt;
            read_fails(rt.alloc(), text.as_bytes(), good)?,
            "{good} bytes"
        );
    }
    Ok(())
}

// Whether a session whose output is full after so many bytes is told as failed, and has written exactly those.
fn write_fails(
    alloc: Global,
    text: &[u8],
    wanted: &[u8],
    room: usize,
    when_full: WhenFull,
) -> bool {
    let mut sink = Sink::new(alloc, room, when_full);
    let mut out = FromWriter::new(&mut sink);
    let mut inlet = FromReader::new(text);
    let answer = live(alloc, HashKey(7), &mut inlet, &mut out);
    out.failed()
        && answer == Err(ReplayFault::Write(Source::History))
        && Some(sink.held.as_slice()) == wanted.get(..room)
}

#[test]
fn a_front_is_written_before_a_failed_write(rt: HostRuntime) -> Result<(), Fail> {
    let alloc = rt.alloc();
    let text = input(alloc)?;
    let wanted = session(alloc)?;
    for room in 0..wanted.len() {
        for when_full in [WhenFull::Fails, WhenFull::TakesNothing] {
            let fails = write_fails(alloc, text.as_bytes(), wanted.as_bytes(), room, when_full);
            assert!(rt; fails, "room {room}");
        }
    }
    Ok(())
}

// Whether a session of one comment of so many bytes is too long.
fn is_too_long(alloc: Global, bytes: usize, end: &str) -> Result<bool, AllocError> {
    let mut text = "#".repeat(alloc, bytes)?;
    text.push_str(end)?;
    let mut written = Vec::new(alloc);
    let mut inlet = FromReader::new(text.as_bytes());
    let answer = live(
        alloc,
        HashKey(7),
        &mut inlet,
        &mut FromWriter::new(&mut written),
    );
    Ok(answer == Err(ReplayFault::TooLong(Source::Input)))
}

#[test]
fn a_line_has_a_limit(rt: HostRuntime) -> Result<(), Fail> {
    for end in ["\n", ""] {
        assert!(rt; !is_too_long(rt.alloc(), 65_536, end)?);
        assert!(rt; is_too_long(rt.alloc(), 65_537, end)?);
    }
    Ok(())
}
