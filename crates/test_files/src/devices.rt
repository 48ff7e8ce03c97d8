use dn_records::{
    FromReader, FromWriter, Inlet, Outlet, ReadFault, WriteFault, read_whole, write_whole,
};
use std::io;
use std::test::Fail;
use test_devices::{Parts, Sink, WhenFull};

const TEXT: &[u8] = b"abcdef";

#[test]
fn an_input_is_read_whole_however_it_is_cut(rt: HostRuntime) -> Result<(), Fail> {
    for step in 1..=7 {
        for (limit, whole) in [(5, false), (6, true), (7, true)] {
            let mut inlet = FromReader::new(Parts::of(TEXT, step));
            let outcome = read_whole(rt.alloc(), &mut inlet, limit);
            assert!(rt; !inlet.failed(), "step {step}");
            match outcome {
                Ok(text) => assert!(rt; whole && text.as_slice() == TEXT, "step {step}"),
                Err(fault) => assert!(rt; !whole && fault == ReadFault::TooLong, "step {step}"),
            }
        }
    }
    Ok(())
}

#[test]
fn an_input_that_never_ends_is_too_long(rt: HostRuntime) {
    let mut inlet = FromReader::new(io::repeat(b'x'));
    let outcome = read_whole(rt.alloc(), &mut inlet, 100000);
    assert!(rt; outcome.err() == Some(ReadFault::TooLong));
}

// An input that fails after each number of bytes: the failure is told, but not where one byte more
// than the limit came before it, since nothing is read after that byte.
#[test]
fn a_read_that_fails_is_told(rt: HostRuntime) {
    for good in 0..=6 {
        for limit in 0..=7 {
            let mut source = Parts {
                rest: TEXT,
                step: 1,
                good,
                calls: 0,
            };
            let mut inlet = FromReader::new(&mut source);
            let outcome = read_whole(rt.alloc(), &mut inlet, limit);
            let failed = inlet.failed();
            let too_long = good > limit;
            let fault = if too_long {
                ReadFault::TooLong
            } else {
                ReadFault::Read
            };
            assert!(rt; outcome.err() == Some(fault), "{good} bytes, limit {limit}");
            assert!(rt; failed != too_long, "{good} bytes, limit {limit}");
            assert!(rt;
                source.calls == good.min(limit).saturating_add(1),
                "{good} bytes, limit {limit}"
            );
        }
    }
}

#[test]
fn a_text_is_written_byte_by_byte(rt: HostRuntime) {
    let mut sink = Sink::new(rt.alloc(), 6, WhenFull::Fails);
    let mut outlet = FromWriter::new(&mut sink);
    assert!(rt; write_whole(&mut outlet, TEXT).is_ok());
    assert!(rt; write_whole(&mut outlet, b"").is_ok());
    assert!(rt; !outlet.failed());
    assert!(rt; sink.held.as_slice() == TEXT);
}

// An output that fails, or takes nothing, after each number of bytes: exactly those bytes were written.
#[test]
fn a_write_that_fails_is_told(rt: HostRuntime) {
    for room in 0..6usize {
        for when_full in [WhenFull::Fails, WhenFull::TakesNothing] {
            let mut sink = Sink::new(rt.alloc(), room, when_full);
            let mut outlet = FromWriter::new(&mut sink);
            let outcome = write_whole(&mut outlet, TEXT);
            assert!(rt; outcome == Err(WriteFault), "room {room}");
            assert!(rt; outlet.failed(), "room {room}");
            assert!(rt; sink.held.as_slice() == &TEXT[..room.min(6)], "room {room}");
        }
    }
}
