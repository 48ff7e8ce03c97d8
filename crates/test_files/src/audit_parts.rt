use crate::history::ONE_CALLER;
use dn_files::ReplayFault;
use dn_history::{FileAudit, Verdict, audit_file_with_key};
use dn_records::{FromReader, FromWriter};
use dn_shaper::HashKey;
use std::alloc::Global;
use std::test::Fail;
use test_devices::Parts;

// How many bytes a read gives at most.
const STEPS: [usize; 6] = [1, 2, 3, 7, 64, 65_536];

// What the audit of a file finds that is fed in such parts.
fn fed(alloc: Global, file: &str, step: usize) -> Result<Verdict, ReplayFault> {
    // In the README of dn_history, 5:
    let mut audit = FileAudit::new(alloc, HashKey(7));
    for part in file.as_bytes().chunks(step.max(1)) {
        audit.feed(part)?;
    }
    let (verdict, _) = audit.finish()?;
    // Up to here.
    Ok(verdict)
}

// Whether the audit of a file that comes in such steps answers this, read or fed, and writes this line or nothing.
fn audits(
    alloc: Global,
    file: &str,
    step: usize,
    answer: Result<Verdict, ReplayFault>,
    line: &str,
) -> bool {
    let mut written = Vec::new(alloc);
    let mut input = FromReader::new(Parts::of(file.as_bytes(), step));
    let mut out = FromWriter::new(&mut written);
    let found = audit_file_with_key(alloc, HashKey(7), &mut input, &mut out);
    found == answer && written.as_slice() == line.as_bytes() && fed(alloc, file, step) == answer
}

// Whether it does so in steps of each length.
fn audits_in_steps(
    alloc: Global,
    file: &str,
    answer: Result<Verdict, ReplayFault>,
    line: &str,
) -> bool {
    for step in STEPS {
        if !audits(alloc, file, step, answer, line) {
            return false;
        }
    }
    true
}

// Files, the answers to their audits, and the lines of these.
static FILES: [(&str, Result<Verdict, ReplayFault>, &str); 23] = [
    (ONE_CALLER, Ok(Verdict::Lawful), "lawful 4\n"),
    // A call in quotes.
    (
        "dummynet-history,3\nc,0,advance,1\nr,advanced,1\nc,0,\"advance\",2\nr,advanced,2\nc,0,advance,3\nr,advanced,3\nend,3\n",
        Ok(Verdict::Lawful),
        "lawful 3\n",
    ),
    // The lines of an entry within the quotes of a remark.
    (
        "dummynet-live,1\nc,0,advance,1\nr,advanced,1\n#,\"\nc,0,advance,2\nr,advanced,9\n\"\nc,0,advance,3\nr,advanced,3\nend,2\n",
        Ok(Verdict::Lawful),
        "lawful 2\n",
    ),
    // Remarks and an empty line before a call and before the end, and a quoted field behind them.
    (
        "dummynet-live,1\n#,next\n\n#,bad\nc,0,advance,1\nr,advanced,1\n#,next\nend,1\n",
        Ok(Verdict::Lawful),
        "lawful 1\n",
    ),
    (
        "dummynet-live,1\r\n#\r\nc,0,\"advance\",1\r\nr,advanced,1\r\n#\r\nend,1\r\n",
        Ok(Verdict::Lawful),
        "lawful 1\n",
    ),
    // Remarks within an entry, behind the end and before the first record of a transcript.
    (
        "dummynet-live,1\nc,0,advance,1\n#,next\nr,advanced,1\nend,1\n",
        Err(ReplayFault::BadRecord(3)),
        "",
    ),
    (
        "dummynet-live,1\n#\nc,0,collect,1\nr,delivered,1,1\n#\nd,0,0,0,1\nend,1\n",
        Err(ReplayFault::BadRecord(4)),
        "",
    ),
    (
        "dummynet-live,1\nend,0\n#,next\n",
        Err(ReplayFault::BadRecord(3)),
        "",
    ),
    (
        "#,next\ndummynet-live,1\nend,0\n",
        Err(ReplayFault::BadRecord(1)),
        "",
    ),
    (
        "dummynet-live,2\nend,0\n",
        Err(ReplayFault::BadRecord(1)),
        "",
    ),
    // A history has no remarks.
    (
        "dummynet-history,1\n#\nend,0\n",
        Err(ReplayFault::BadRecord(2)),
        "",
    ),
    (
        "dummynet-history,2\n#\nend,0\n",
        Err(ReplayFault::BadRecord(2)),
        "",
    ),
    (
        "dummynet-history,3\n#\nend,0\n",
        Err(ReplayFault::BadRecord(2)),
        "",
    ),
    (
        "dummynet-history,3\r\nc,0,advance,1\r\nr,advanced,1\r\nend,1\r\n",
        Ok(Verdict::Lawful),
        "lawful 1\n",
    ),
    (
        "\u{feff}dummynet-history,3\nc,0,advance,1\nr,advanced,1\nend,1\n",
        Ok(Verdict::Lawful),
        "lawful 1\n",
    ),
    (
        "\n\"dummynet-history\",2\nc,0,advance,1\nr,advanced,1\nend,1\n",
        Ok(Verdict::Lawful),
        "lawful 1\n",
    ),
    (
        "dummynet-history,1\nend,0",
        Ok(Verdict::Lawful),
        "lawful 0\n",
    ),
    ("", Err(ReplayFault::BadRecord(1)), ""),
    ("dummynet-history,4\n", Err(ReplayFault::BadRecord(1)), ""),
    ("dummynet-history,3", Err(ReplayFault::BadRecord(2)), ""),
    (
        "dummynet-history,3\nc,0,advance,1\nr,advanced,2\nc,0,advance,3\nr,advanced,9\nend,2\n",
        Ok(Verdict::Differs(0)),
        "differs 0\n",
    ),
    // A bad record behind an entry that differs.
    (
        "dummynet-history,3\nc,0,advance,1\nr,advanced,2\nc,0,advance,3\nr,stopped\nend,2\n",
        Err(ReplayFault::BadRecord(5)),
        "",
    ),
    (
        "dummynet-history,3\nc,0,advance,1\nr,advanced,1\nend,1\nc,0,show\n",
        Err(ReplayFault::BadRecord(5)),
        "",
    ),
];

#[test]
fn files_in_steps_are_audited(rt: HostRuntime) {
    for (file, answer, line) in FILES.iter() {
        assert!(rt; audits_in_steps(rt.alloc(), file, *answer, line), "{file}");
    }
}

// A history of more than 65,536 bytes: these records, 3,000 entries, and these.
fn long(alloc: Global, first: &str, last: &str) -> Result<String, Fail> {
    let mut file = format!(in alloc; "dummynet-history,3\n{first}")?;
    for _ in 0..3000 {
        file.push_str("c,0,advance,1\nr,advanced,1\n")?;
    }
    file.push_str(last)?;
    Ok(file)
}

// What such histories begin and end with, the answers to their audits, and the lines of these.
static LONG: [(&str, &str, Result<Verdict, ReplayFault>, &str); 5] = [
    ("", "end,3000\n", Ok(Verdict::Lawful), "lawful 3000\n"),
    (
        "",
        "c,0,advance,1\nr,advanced,2\nend,3001\n",
        Ok(Verdict::Differs(3000)),
        "differs 3000\n",
    ),
    (
        "",
        "c,0,advance,1\nr,stopped\nend,3001\n",
        Err(ReplayFault::BadRecord(6003)),
        "",
    ),
    (
        "c,0,advance,1\nr,advanced,2\n",
        "end,3001\n",
        Ok(Verdict::Differs(0)),
        "differs 0\n",
    ),
    (
        "c,0,advance,1\nr,advanced,2\n",
        "c,0,advance,1\nr,stopped\nend,3002\n",
        Err(ReplayFault::BadRecord(6005)),
        "",
    ),
];

#[test]
fn long_files_are_audited(rt: HostRuntime) -> Result<(), Fail> {
    let alloc = rt.alloc();
    for (first, last, answer, line) in LONG.iter() {
        let file = long(alloc, first, last)?;
        for step in [1000, 65_536] {
            assert!(rt;
                audits(alloc, file.as_str(), step, *answer, line),
                "{first}{last}"
            );
        }
    }
    Ok(())
}

// A history of one reply that lists 6,000 packets, which pass a pipe without a bandwidth at once.
fn long_reply(alloc: Global, last_due: u64) -> Result<String, Fail> {
    let mut file = format!(in alloc;
        "dummynet-history,3\nc,0,configure,pipe 1 config\nr,configured\n"
    )?;
    for i in 0..6000u64 {
        let entry = format!(in alloc;
            "c,0,submit,pipe,1,10.0.0.1,10.0.0.2,17,1000,2000,1000,0,0\nr,queued,0,0,{i}\n"
        )?;
        file.push_str(entry.as_str())?;
    }
    file.push_str("c,0,collect,0\nr,delivered,0,6000\n")?;
    for i in 0..5999u64 {
        let delivery = format!(in alloc; "d,{i},0,0,0\n")?;
        file.push_str(delivery.as_str())?;
    }
    let end = format!(in alloc; "d,5999,0,0,{last_due}\nend,6002\n")?;
    file.push_str(end.as_str())?;
    Ok(file)
}

#[test]
fn a_reply_of_several_parts_is_audited(rt: HostRuntime) -> Result<(), Fail> {
    let alloc = rt.alloc();
    let lawful = long_reply(alloc, 0)?;
    let differs = long_reply(alloc, 1)?;
    for step in [1000, 65_536] {
        assert!(rt;
            audits(
                alloc,
                lawful.as_str(),
                step,
                Ok(Verdict::Lawful),
                "lawful 6002\n"
            )
        );
        assert!(rt;
            audits(
                alloc,
                differs.as_str(),
                step,
                Ok(Verdict::Differs(6001)),
                "differs 6001\n"
            )
        );
    }
    Ok(())
}
