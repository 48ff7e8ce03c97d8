use dn_config::LineFault;
use dn_files::{ReplayFault, Source, read_config, read_packets};
use dn_records::{FromReader, Inlet};
use dn_types::{Command, Number};
use std::alloc::{AllocError, Global};
use std::io;
use std::process::Abort;
use std::test::Fail;

const HEADER: &str = "moment,target,number,src,dst,proto,sport,dport,len,word\n";

// How many rows a packet file has, and whether reading it failed.
fn count_rows(alloc: Global, text: &[u8]) -> (Result<usize, ReplayFault>, bool) {
    let mut input = FromReader::new(text);
    let count = read_packets(alloc, &mut input).map(|rows| rows.len());
    (count, input.failed())
}

#[test]
fn packet_files_have_a_header(rt: HostRuntime) {
    let alloc = rt.alloc();
    let bad = Err(ReplayFault::BadRow { row: 0, field: 0 });
    assert!(rt; count_rows(alloc, b"") == (Ok(0), false));
    assert!(rt; count_rows(alloc, b"moment,target\n") == (bad, false));
    let mut endless = FromReader::new(io::repeat(b'\n'));
    let count = read_packets(alloc, &mut endless).map(|rows| rows.len());
    assert!(rt; count == Err(ReplayFault::TooLong(Source::Packets)));
}

// The commands of a configuration, with the numbers of their lines.
fn check_commands(rt: &impl Abort, commands: &[(usize, Command)]) {
    let seven = Number::new(7).map(Command::DeletePipe);
    let two = Number::new(2).map(Command::DeleteQueue);
    assert!(rt; commands.len() == 2);
    assert!(rt; commands[0].0 == 2 && Some(commands[0].1) == seven);
    assert!(rt; commands[1].0 == 4 && Some(commands[1].1) == two);
}

#[test]
fn configurations_have_numbered_lines(rt: HostRuntime) -> Result<(), Fail> {
    let alloc = rt.alloc();
    let lines = b"# two links\npipe delete 7\r\n\nqueue delete 2".as_slice();
    let commands = read_config(alloc, &mut FromReader::new(lines))?;
    check_commands(&rt, commands.as_slice());
    drop(commands);
    let mut bad = FromReader::new(b"pipe 1 config\n\xff\n".as_slice());
    assert!(rt; read_config(alloc, &mut bad).err() == Some(ReplayFault::ConfigText(2)));
    Ok(())
}

// Faults, with the lines that tell of them and the statuses with which the program ends.
static FAULTS: [(ReplayFault, &str, u8); 12] = [
    (
        ReplayFault::Config {
            line: 3,
            fault: LineFault::OutOfRange(2),
        },
        "config line 3, word 2: out of range",
        3,
    ),
    (ReplayFault::ConfigText(4), "config line 4: not UTF-8", 3),
    (ReplayFault::NoSuchPipe(1), "config line 1: no such pipe", 3),
    (
        ReplayFault::BadRow { row: 7, field: 9 },
        "packet row 7, field 9: bad",
        4,
    ),
    (ReplayFault::BadRecord(12), "history record 12: bad", 4),
    (ReplayFault::TooLong(Source::Input), "input too long", 6),
    (ReplayFault::Read(Source::Config), "cannot read config", 6),
    (ReplayFault::Write(Source::Report), "cannot write report", 6),
    (ReplayFault::OutOfMemory, "out of memory", 5),
    (ReplayFault::BadCount, "bad count of callers", 2),
    (
        ReplayFault::PipeHasQueues(2),
        "config line 2: pipe has queues",
        3,
    ),
    (
        ReplayFault::NoSuchQueue(5),
        "config line 5: no such queue",
        3,
    ),
];

fn check_fault(
    rt: &impl Abort,
    alloc: Global,
    fault: &ReplayFault,
    line: &str,
    status: u8,
) -> Result<(), AllocError> {
    let shown = format!(in alloc; "{fault}")?;
    assert!(rt; shown.as_str() == line && fault.status() == status);
    Ok(())
}

#[test]
fn fault_lines_and_statuses(rt: HostRuntime) -> Result<(), Fail> {
    for (fault, line, status) in FAULTS.iter() {
        check_fault(&rt, rt.alloc(), fault, line, *status)?;
    }
    Ok(())
}
