//! Measures `parse_line`.

use dn_config::parse_line;
use std::io;
use std::time::Instant;

/// Lines of ten words each.
const LINES: [&str; 2] = [
    "ipfw queue 1 config pipe 1 weight 10 queue 20Kbytes",
    "ipfw pipe 1 config bw 8Mbit/s delay 50ms plr 0.01",
];

/// How many of so many lines are commands.
fn commands(rounds: u64) -> u64 {
    let mut commands = 0u64;
    for round in 0..rounds {
        let line = if round % 2 == 0 { LINES[0] } else { LINES[1] };
        if let Ok(Some(_)) = parse_line(line) {
            commands = commands.wrapping_add(1);
        }
    }
    commands
}

/// Parses so many lines of ten words, and two lines of 1,048,576 bytes.
pub fn measure_lines(rt: &HostRuntime, rounds: u64) -> io::Result<()> {
    let alloc = rt.alloc();
    let start = Instant::now(rt)?;
    let commands = commands(rounds);
    let nanos = start.elapsed(rt)?.as_nanos();
    println!(rt; "{commands} commands")?;
    eprintln!(rt; "{nanos} ns for {rounds} lines of ten words")?;

    let mut blank = String::new(alloc);
    for _ in 0..1_048_575 {
        blank.push(' ')?;
    }
    let mut comment = String::from_str(alloc, "#")?;
    comment.push_str(blank.as_str())?;
    blank.push('#')?;
    for (name, line) in [
        ("a comment", comment.as_str()),
        ("blanks and a comment", blank.as_str()),
    ] {
        let start = Instant::now(rt)?;
        let none = parse_line(line) == Ok(None);
        let nanos = start.elapsed(rt)?.as_nanos();
        println!(rt; "{name}: no command {none}")?;
        eprintln!(rt; "{nanos} ns for {name} of 1,048,576 bytes")?;
    }
    Ok(())
}
