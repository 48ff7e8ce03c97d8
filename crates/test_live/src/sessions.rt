use dn_live::{HashKey, Served, live};
use dn_records::{FromReader, FromWriter};
use std::alloc::{AllocError, Global};
use std::test::Fail;

/// A line, with its line feed, and what is written for it.
#[derive(Clone, Copy)]
pub struct Line {
    pub text: &'static str,
    pub answer: &'static str,
}

/// What is written before the first line.
pub const HEADER: &str = "dummynet-live,1\n";

/// Calls in each form, and between them each kind of line that is none.
pub static LINES: [Line; 13] = [
    Line {
        text: "# a note\n",
        answer: "",
    },
    Line {
        text: "pipe 1 config bw 8Mbit/s queue 1\n",
        answer: "c,0,configure,pipe 1 config bw 8000000bit/s queue 1\nr,configured\n",
    },
    Line {
        text: "c,0,submit,pipe,1,10.0.0.1,10.0.0.2,17,1000,2000,1000,0,0\n",
        answer: "c,0,submit,pipe,1,10.0.0.1,10.0.0.2,17,1000,2000,1000,0,0\nr,queued,0,0,0\n",
    },
    Line {
        text: "hello\n",
        answer: "#,bad,4,1,word 1: unknown word\n",
    },
    Line {
        text: "c,16,show\n",
        answer: "#,bad,5,2,bad field\n",
    },
    Line {
        text: "\n",
        answer: "",
    },
    Line {
        text: "\"c\",3,collect,1000000\n",
        answer: "c,3,collect,1000000\nr,delivered,1000000,1\nd,0,0,0,1000000\n",
    },
    Line {
        text: "c,0,configure,pipe 1 config bw 3x\n",
        answer: "#,bad,8,4,word 5: bad number\n",
    },
    Line {
        text: "c,0,configure,\n",
        answer: "#,bad,9,4,no command\n",
    },
    Line {
        text: "c,0,show\rc,0,show\n",
        answer: "#,bad,10,0,not one record\n",
    },
    Line {
        text: "c,0,show\r\n",
        answer: "c,0,show\nr,status,1\nf,0,pipe,1,1,0.0.0.0,0.0.0.0,0,0,0,0.0.0.0,0.0.0.0,0,0,0,0,0,0,0,1,0\n",
    },
    Line {
        text: "next\rc,0,show\n",
        answer: "#,bad,12,0,not one record\n",
    },
    Line {
        text: "next\r\n",
        answer: "#,next\n",
    },
];

/// What stands behind the last line feed.
pub const TAIL: &str = "c,0,sho";

/// What is written in the end.
pub const END: &str = "#,bad,14,0,no line feed\nend,4\n";

/// What such a session comes to.
pub const SERVED: Served = Served { calls: 4, bad: 7 };

/// All lines and the tail.
pub fn input(alloc: Global) -> Result<String, AllocError> {
    let mut text = String::new(alloc);
    for line in &LINES {
        text.push_str(line.text)?;
    }
    text.push_str(TAIL)?;
    Ok(text)
}

/// What is written for the first lines, so many of them.
pub fn answered(alloc: Global, count: usize) -> Result<String, AllocError> {
    let mut text = String::from_str(alloc, HEADER)?;
    for line in LINES.iter().take(count) {
        text.push_str(line.answer)?;
    }
    Ok(text)
}

/// What is written in all.
pub fn session(alloc: Global) -> Result<String, AllocError> {
    let mut text = answered(alloc, LINES.len())?;
    text.push_str(END)?;
    Ok(text)
}

// Whether an input is served so, and this is written.
fn serves(alloc: Global, input: &str, served: Served, session: &str) -> bool {
    let mut written = Vec::new(alloc);
    // In the README of dn_live, 1:
    let mut reader = FromReader::new(input.as_bytes());
    let answer = live(
        alloc,
        HashKey(7),
        &mut reader,
        &mut FromWriter::new(&mut written),
    );
    // Up to here.
    answer == Ok(served) && written.as_slice() == session.as_bytes()
}

#[test]
fn a_session_is_written(rt: HostRuntime) -> Result<(), Fail> {
    let alloc = rt.alloc();
    let text = input(alloc)?;
    let wanted = session(alloc)?;
    assert!(rt; serves(alloc, text.as_str(), SERVED, wanted.as_str()));
    assert!(rt; SERVED.status() == 4);
    Ok(())
}

#[test]
fn an_empty_session_is_written(rt: HostRuntime) {
    let served = Served { calls: 0, bad: 0 };
    assert!(rt; serves(rt.alloc(), "", served, "dummynet-live,1\nend,0\n"));
    assert!(rt; served.status() == 0);
}
