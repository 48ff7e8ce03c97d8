use crate::broken::{FULL_QUEUE, PACKET_HEADER, REPORT};
use dn_config::split_joined;
use dn_records::FromWriter;
use dn_replay::{FileReplay, HashKey, Manner, PACKET_LIMIT, ReplayFault, Source};
use std::alloc::{AllocError, Global};

// How long the parts of a text are.
const STEPS: [usize; 6] = [1, 2, 3, 7, 64, 65_536];

// Feeds a replay a text in parts of a length.
fn feed(replay: &mut FileReplay, text: &[u8], step: usize) -> Result<(), ReplayFault> {
    for part in text.chunks(step.max(1)) {
        replay.feed(part)?;
    }
    Ok(())
}

// Feeds it the whole text so, and answers how many entries its history has. What it writes is added to `written`.
fn fed(
    mut replay: FileReplay,
    text: &[u8],
    step: usize,
    written: &mut Vec<u8>,
) -> Result<usize, ReplayFault> {
    let answer = match feed(&mut replay, text, step) {
        Ok(()) => replay.finish(&mut FromWriter::new(written)),
        Err(fault) => {
            // The proof of a drop by a call has one step, where that of a drop at the end has one for each field.
            drop(replay);
            Err(fault)
        }
    };
    let (history, _) = answer?;
    Ok(history.len())
}

// What is answered and written of the worked example of a full queue, as a joined input and as two.
fn gives_the_report(alloc: Global, step: usize) -> bool {
    let mut written = Vec::new(alloc);
    let manner = Manner {
        key: HashKey(7),
        records: true,
        limit: PACKET_LIMIT,
    };
    let joined = FileReplay::joined(alloc, manner);
    let answer = fed(joined, FULL_QUEUE.as_bytes(), step, &mut written);
    if answer != Ok(6) || written.as_slice() != REPORT.as_bytes() {
        return false;
    }
    written.clear();
    let (config, packets) = split_joined(FULL_QUEUE.as_bytes());
    let Ok(behind) = FileReplay::behind(alloc, manner, config) else {
        return false;
    };
    fed(behind, packets, step, &mut written) == Ok(6) && written.as_slice() == REPORT.as_bytes()
}

#[test]
fn a_text_that_is_fed_in_parts_gives_its_report(rt: HostRuntime) {
    for step in STEPS {
        assert!(rt; gives_the_report(rt.alloc(), step), "{step} bytes");
    }
}

// A bad row is told when the text has ended, behind rows that came later.
#[test]
fn a_bad_row_is_told_at_the_end(rt: HostRuntime) -> Result<(), AllocError> {
    let rows = "0,pipe,1,10.0.0.1,10.0\n0,pipe,1,10.0.0.1,10.0.0.2,17,1000,2000,1000,0\n";
    let text = format!(in rt.alloc(); "pipe 1 config\n--\n{PACKET_HEADER}{rows}")?;
    for step in STEPS {
        let mut written = Vec::new(rt.alloc());
        let manner = Manner {
            key: HashKey(7),
            records: false,
            limit: PACKET_LIMIT,
        };
        let joined = FileReplay::joined(rt.alloc(), manner);
        let answer = fed(joined, text.as_bytes(), step, &mut written);
        assert_eq!(rt;
            answer,
            Err(ReplayFault::BadRow { row: 1, field: 0 }),
            "{step} bytes"
        );
        assert!(rt; written.is_empty(), "{step} bytes");
    }
    Ok(())
}

#[test]
fn a_refused_configuration_makes_no_replay(rt: HostRuntime) {
    let config = b"queue 1 config pipe 3\n";
    let manner = Manner {
        key: HashKey(7),
        records: false,
        limit: PACKET_LIMIT,
    };
    let refused = FileReplay::behind(rt.alloc(), manner, config).err();
    assert_eq!(rt; refused, Some(ReplayFault::NoSuchPipe(1)));
}

// Of a text that is one byte too long no part is taken, and the replay goes on without it.
#[test]
fn a_text_that_is_too_long_is_refused(rt: HostRuntime) -> Result<(), AllocError> {
    let long = vec![in rt.alloc(); b'\n'; 67_108_865]?;
    let mut written = Vec::new(rt.alloc());
    let manner = Manner {
        key: HashKey(7),
        records: false,
        limit: PACKET_LIMIT,
    };
    let mut replay = FileReplay::joined(rt.alloc(), manner);
    assert_eq!(rt;
        replay.feed(long.as_slice()),
        Err(ReplayFault::TooLong(Source::Input))
    );
    assert_eq!(rt; fed(replay, FULL_QUEUE.as_bytes(), 64, &mut written), Ok(0));
    assert_eq!(rt; written.as_slice(), REPORT.as_bytes());
    Ok(())
}
