use crate::histories::one_caller;
use crate::history::ONE_CALLER;
use dn_history::HistoryParts;
use dn_types::{Entry, Rule};
use std::alloc::AllocError;
use std::test::Fail;

// Of one caller's history two entries and six bytes of the third stand before this place.
const CUT: usize = 155;

// Adds the entries that have come and weren't given, and answers how many there are then.
fn add_given(entries: &mut Vec<Entry>, parts: &mut HistoryParts) -> Result<usize, AllocError> {
    for entry in parts.take()? {
        entries.push(entry)?;
    }
    Ok(entries.len())
}

#[test]
fn entries_are_given_once_they_have_come(rt: HostRuntime) -> Result<(), Fail> {
    let alloc = rt.alloc();
    let text = ONE_CALLER.as_bytes();
    let mut entries = Vec::new(alloc);
    // In the README of dn_history, 3:
    let mut parts = HistoryParts::new(alloc, &text[..CUT])?.ok_or("the line of a version")?;
    // Up to here.
    assert!(rt; parts.rule() == Rule::Ordered);
    assert!(rt; add_given(&mut entries, &mut parts)? == 2);
    // In the README of dn_history, 3:
    parts.feed(&text[CUT..])?;
    // Up to here.
    assert!(rt; add_given(&mut entries, &mut parts)? == 4);
    assert!(rt; entries == one_caller(alloc)?);
    assert!(rt; parts.given() == 4);
    assert!(rt; parts.finish().next() == Ok(None));
    Ok(())
}
