use dn_config::{LineFault, each_text_reads_back, parse_line, print_and_parse, print_command};
use dn_types::{Bandwidth, Command, Delay, KbyteCount, Limit, Loss, Mask, Number};
use std::alloc::{AllocError, Global};
use std::process::Abort;

fn check_parsed(rt: &impl Abort, line: &str, command: Command) {
    assert!(rt; parse_line(line) == Ok(Some(command)));
}

fn check_printed(
    rt: &impl Abort,
    alloc: Global,
    command: &Command,
    line: &str,
) -> Result<(), AllocError> {
    let text = print_command(alloc, command)?;
    assert!(rt; text.as_str() == line);
    Ok(())
}

// The lines and their commands are worked by hand from ipfw(8) and this project's rules.
#[test]
fn a_line_and_its_canonical_text(rt: HostRuntime) -> Result<(), AllocError> {
    let line = "ipfw pipe 7 config queue 20KBYTES plr .1 bw 1MByte/s mask proto 255 dst-ip 255 # x";
    let command = Command::Pipe {
        number: Number::new(7).expect(&rt, "7 is a number"),
        bw: Bandwidth::new(8_000_000).expect(&rt, "a bandwidth"),
        delay: Delay::new(0).expect(&rt, "a delay"),
        limit: Limit::Kbytes(KbyteCount::new(20).expect(&rt, "a limit")),
        loss: Loss::new(214_748_364).expect(&rt, "a loss rate"),
        buckets: None,
        mask: Mask {
            src: 0,
            dst: 255,
            proto: 255,
            sport: 0,
            dport: 0,
        },
    };
    check_parsed(&rt, line, command);
    let wanted =
        "pipe 7 config bw 8000000bit/s queue 20Kbytes plr 0.099999999627470971 mask dst-ip 0x000000ff proto 0xff";
    check_parsed(&rt, wanted, command);
    check_printed(&rt, rt.alloc(), &command, wanted)?;
    assert!(rt; print_and_parse(rt.alloc(), &command)? == Ok(Some(command)));
    Ok(())
}

// Lines, with the words and the position of the fault that users see.
static FAULTS: [(&str, &str, usize); 6] = [
    ("pipe 1 config weight 3", "unknown word", 4),
    ("ipfw", "missing value", 1),
    ("pipe 1 config plr .", "bad number", 5),
    ("pipe 0 config", "out of range", 2),
    ("pipe 1 config red", "left out", 4),
    ("ipfw queue 1 config", "needs a pipe", 2),
];

fn check_shown(
    rt: &impl Abort,
    alloc: Global,
    fault: LineFault,
    words: &str,
) -> Result<(), AllocError> {
    let shown = format!(in alloc; "{fault}")?;
    assert!(rt; shown.as_str() == words);
    Ok(())
}

fn check_fault(
    rt: &impl Abort,
    alloc: Global,
    line: &str,
    words: &str,
    position: usize,
) -> Result<(), AllocError> {
    let Err(fault) = parse_line(line) else {
        panic!(rt; "the line has a fault")
    };
    assert!(rt; fault.position() == Some(position) && fault.word() == position);
    let text = fault.text(alloc)?;
    let wanted = format!(in alloc; "word {position}: {words}")?;
    assert!(rt; text.as_str() == wanted.as_str() && fault.name() == words);
    check_shown(rt, alloc, fault, words)
}

#[test]
fn faults_have_words_and_positions(rt: HostRuntime) -> Result<(), AllocError> {
    each_text_reads_back();
    for (line, words, position) in FAULTS.iter() {
        check_fault(&rt, rt.alloc(), line, words, *position)?;
    }
    assert!(rt; LineFault::OutOfMemory.position().is_none() && LineFault::OutOfMemory.word() == 0);
    check_shown(&rt, rt.alloc(), LineFault::OutOfMemory, "out of memory")
}
