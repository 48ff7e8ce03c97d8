use dn_config::LineFault;
use dn_files::{ReplayFault, Source, command_at, read_input, write_text};
use dn_records::{FromReader, FromWriter};
use dn_types::{Command, Number};
use std::process::Abort;
use std::test::Fail;

#[test]
fn a_text_is_read_up_to_its_limit(rt: HostRuntime) -> Result<(), Fail> {
    let alloc = rt.alloc();
    let mut input = FromReader::new(b"abc".as_slice());
    let text = read_input(alloc, &mut input, 3, Source::Packets)?;
    assert!(rt; text.as_slice() == b"abc".as_slice());
    let mut longer = FromReader::new(b"abcd".as_slice());
    let outcome = read_input(alloc, &mut longer, 3, Source::Packets);
    assert!(rt; outcome.err() == Some(ReplayFault::TooLong(Source::Packets)));
    Ok(())
}

#[test]
fn a_text_is_written(rt: HostRuntime) -> Result<(), Fail> {
    let mut output = Vec::new(rt.alloc());
    write_text(
        &mut FromWriter::new(&mut output),
        Source::Report,
        b"lawful 3\n",
    )?;
    assert!(rt; output.as_slice() == b"lawful 3\n".as_slice());
    Ok(())
}

fn check_line(
    rt: &impl Abort,
    line: usize,
    text: &[u8],
    answer: Result<Option<Command>, ReplayFault>,
) {
    assert!(rt; command_at(line, text) == answer);
}

#[test]
fn a_line_has_its_command(rt: HostRuntime) {
    let seven = Number::new(7).map(Command::DeletePipe);
    let fault = LineFault::OutOfRange(3);
    check_line(&rt, 1, b"pipe delete 7", Ok(seven));
    check_line(&rt, 1, b"# pipe delete 7", Ok(None));
    check_line(&rt, 3, b"\xff", Err(ReplayFault::ConfigText(3)));
    check_line(
        &rt,
        2,
        b"pipe delete 0",
        Err(ReplayFault::Config { line: 2, fault }),
    );
}
