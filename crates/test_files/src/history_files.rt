use crate::histories::one_caller;
use dn_files::{ReplayFault, Source};
use dn_history::read_history;
use dn_records::{FromReader, Inlet};
use dn_types::{Deliveries, Delivery, Entry, FlowKey, FlowStatus, Reply, Rule, Statuses, Target};
use std::alloc::Global;
use std::io;
use std::test::Fail;
use test_devices::Parts;

// The file of one caller's history, record by record.
const RECORDS: [&str; 12] = [
    "dummynet-history,3\n",
    "c,0,configure,pipe 1 config bw 8000000bit/s\n",
    "r,configured\n",
    "c,0,submit,pipe,1,10.0.0.1,10.0.0.2,17,1000,2000,1000,0,0\n",
    "r,queued,0,0,0\n",
    "c,0,collect,1000000\n",
    "r,delivered,1000000,1\n",
    "d,0,0,0,1000000\n",
    "c,0,show\n",
    "r,status,1\n",
    "f,0,pipe,1,1,0.0.0.0,0.0.0.0,0,0,0,0.0.0.0,0.0.0.0,0,0,0,0,0,0,0,1,0\n",
    "end,4\n",
];

// The rule and the count of the entries of a history file.
fn read(alloc: Global, text: &[u8]) -> Result<(Rule, usize), ReplayFault> {
    let mut input = FromReader::new(text);
    let (rule, entries) = read_history(alloc, &mut input)?;
    Ok((rule, entries.len()))
}

// The file with another record in the place of the one with this number.
pub fn text_with(alloc: Global, number: usize, other: &str) -> Result<String, Fail> {
    let mut text = String::new(alloc);
    for (i, record) in RECORDS.iter().enumerate() {
        text.push_str(if i + 1 == number { other } else { *record })?;
    }
    Ok(text)
}

// Whether a history file is read as these entries, by the rule Ordered, and no read fails.
pub fn is_read_as(alloc: Global, text: &[u8], expected: &[Entry]) -> Result<bool, ReplayFault> {
    let mut input = FromReader::new(text);
    let (rule, entries) = read_history(alloc, &mut input)?;
    Ok(!input.failed() && rule == Rule::Ordered && entries.as_slice() == expected)
}

#[test]
fn one_callers_history_is_read(rt: HostRuntime) -> Result<(), Fail> {
    let alloc = rt.alloc();
    let text = text_with(alloc, 0, "")?;
    let expected = one_caller(alloc)?;
    assert!(rt; is_read_as(alloc, text.as_bytes(), &expected)?);
    Ok(())
}

// Whether a record that is cut after so many bytes is a record of its own.
fn is_whole(number: usize, record: &str, cut: usize) -> bool {
    match number {
        // A shorter bandwidth, or none.
        2 => cut == 27 || cut == 28 || (32..=38).contains(&cut) || cut == 43,
        // An earlier moment.
        6 => (13..=19).contains(&cut),
        8 => (9..=15).contains(&cut),
        _ => cut.saturating_add(1) == record.len(),
    }
}

// Whether the file is refused as it should be after each byte of the record with this number, which is added to it.
fn cuts_are_refused(
    alloc: Global,
    text: &mut Vec<u8>,
    number: usize,
    record: &str,
) -> Result<bool, Fail> {
    for (cut, byte) in record.bytes().enumerate() {
        let answer = if number == 12 && cut == 5 {
            Ok((Rule::Ordered, 4))
        } else if is_whole(number, record, cut) {
            Err(ReplayFault::BadRecord((number as u64).saturating_add(1)))
        } else {
            Err(ReplayFault::BadRecord(number as u64))
        };
        if read(alloc, text.as_slice()) != answer {
            return Ok(false);
        }
        text.push(byte)?;
    }
    Ok(true)
}

// A cut that leaves a well-formed record is told by the record that is missing behind it.
#[test]
fn a_cut_history_is_refused(rt: HostRuntime) -> Result<(), Fail> {
    let alloc = rt.alloc();
    let mut text = Vec::new(alloc);
    for (i, record) in RECORDS.iter().enumerate() {
        assert!(rt;
            cuts_are_refused(alloc, &mut text, i + 1, record)?,
            "record {i}"
        );
    }
    assert!(rt; read(alloc, text.as_slice()) == Ok((Rule::Ordered, 4)));
    Ok(())
}

// What stands before many commas in the place of the third record, and what stands behind them.
static WIDE: [(&str, &str); 4] = [
    ("r,configured", "\n"),
    ("\"r\",\"configured\"", "\n"),
    ("r,configured", "\r\n"),
    ("r,\"configured\n\"", "\rr,configured\n"),
];

#[test]
fn a_wide_record_is_a_bad_one(rt: HostRuntime) -> Result<(), Fail> {
    let alloc = rt.alloc();
    for (front, end) in WIDE.iter() {
        let mut record = String::new(alloc);
        record.push_str(*front)?;
        for _ in 0..1_000_000 {
            record.push(',')?;
        }
        record.push_str(*end)?;
        let text = text_with(alloc, 3, record.as_str())?;
        assert!(rt;
            read(alloc, text.as_bytes()) == Err(ReplayFault::BadRecord(3)),
            "{front}"
        );
    }
    Ok(())
}

// No room is taken by the count of a reply's items.
#[test]
fn a_great_count_is_a_bad_record(rt: HostRuntime) -> Result<(), Fail> {
    let alloc = rt.alloc();
    let text = text_with(alloc, 7, "r,delivered,1000000,18446744073709551615\n")?;
    assert!(rt; read(alloc, text.as_bytes()) == Err(ReplayFault::BadRecord(9)));
    Ok(())
}

#[test]
fn a_failed_read_of_a_history_is_told(rt: HostRuntime) {
    let mut failing = FromReader::new(Parts::failing(b"dummynet-history,3\nend,0\n", 20));
    let fault = ReplayFault::Read(Source::History);
    assert!(rt; read_history(rt.alloc(), &mut failing).err() == Some(fault));
    assert!(rt; failing.failed());
}

#[test]
fn a_history_that_never_ends_is_too_long(rt: HostRuntime) {
    let mut input = FromReader::new(io::repeat(b'\n'));
    let fault = ReplayFault::TooLong(Source::History);
    assert!(rt; read_history(rt.alloc(), &mut input).err() == Some(fault));
    assert!(rt; !input.failed());
}
