//! Entries are taken into a list, and written to a file in parts.
ghost use Rattle.std.specs.Prelude.{◌≡◌};

use crate::calls::{advance, made};
use dn_history::{audit_file, write_history_end, write_history_front, write_history_part};
use dn_records::{FromReader, FromWriter};
use dn_service::{AfterFault, Service, Taker, TryAfterFault};
use std::sync::Mutex;
use std::test::Fail;

/// The file of the three calls that the test makes, in parts of two, none and one.
const FILE: &str =
    "dummynet-history,3\nc,0,advance,5\nr,advanced,5\nc,0,advance,4\nr,advanced,5\nc,0,advance,9\nr,advanced,9\nend,3\n";

#[test]
fn parts_are_the_file_of_all(rt: HostRuntime) -> Result<(), Fail> {
    let alloc = rt.alloc();
    let (service, mut callers) = Service::open(alloc, 2)?;
    let mut taker = Taker::new(service.lasting(), callers.pop().ok_or("one")?);
    let mut file = Vec::new(alloc);
    // In the README of dn_history, 2:
    let mut out = FromWriter::new(&mut file);
    write_history_front(alloc, &mut out)?;
    // Up to here.
    let mut list = Vec::with_capacity(alloc, 100)?;
    let _ = made(&rt, &mut callers[0], advance(5));
    let _ = made(&rt, &mut callers[0], advance(4));
    assert!(rt; taker.take_into(&rt, &mut list) == 0 && list.len() == 2);
    // In the README of dn_history, 2:
    write_history_part(alloc, list.as_slice(), &mut out)?;
    // Up to here.
    list.clear();
    let _ = made(&rt, &mut callers[0], advance(9));
    assert!(rt; taker.take_into(&rt, &mut list) == 2 && list.len() == 1);
    // The list that was handed in before is back, with the room that it had.
    assert!(rt; list.capacity() >= 100);
    write_history_part(alloc, list.as_slice(), &mut out)?;
    // In the README of dn_history, 2:
    write_history_end(alloc, 3, &mut out)?;
    // Up to here.
    assert!(rt; file.as_slice() == FILE.as_bytes());
    let mut line = Vec::new(alloc);
    let _ = audit_file(
        alloc,
        &mut FromReader::new(file.as_slice()),
        &mut FromWriter::new(&mut line),
    )?;
    assert!(rt; line.as_slice() == "lawful 3\n".as_bytes());
    Ok(())
}

#[test]
fn a_taker_behind_a_lock_takes_on(rt: HostRuntime) -> Result<(), Fail> {
    let (service, mut callers) = Service::open(rt.alloc(), 2)?;
    let one = callers.pop().ok_or("one")?;
    let taker = Mutex::new(Taker::new(service.lasting(), one));
    let _ = made(&rt, &mut callers[0], advance(1));
    assert!(rt; taker.lock(&rt).take(&rt).entries.len() == 1);
    let call = advance(2).ok_or("a moment")?;
    assert!(rt; taker.lock(&rt).call(&rt, call).is_ok());
    let Ok(segment) = taker.lock(&rt).try_take() else {
        panic!(rt; "busy")
    };
    assert!(rt; segment.start == 1 && segment.entries.len() == 1);
    let (mut lasting, mut caller) = taker.into_inner().into_parts();
    assert!(rt; caller.take(&rt, &mut lasting).start == 2);
    Ok(())
}

#[test]
fn a_call_comes_after_a_place(rt: HostRuntime) -> Result<(), Fail> {
    let (_service, mut callers) = Service::open(rt.alloc(), 1)?;
    let call = advance(1).ok_or("a moment")?;
    assert!(rt;
        matches!(
            callers[0].try_call_after(1, call),
            Err(TryAfterFault::Ahead)
        )
    );
    assert!(rt; matches!(callers[0].call_after(&rt, 1, call), Err(AfterFault::Ahead)));
    assert!(rt; matches!(callers[0].try_call_after(0, call), Ok(placed) if placed.place == 0));
    assert!(rt; matches!(callers[0].call_after(&rt, 1, call), Ok(placed) if placed.place == 1));
    Ok(())
}
