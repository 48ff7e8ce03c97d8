//! Measures calls of the library.
//!
//! Results go to standard output and times to standard error, so that two runs write the same output.
#![tactic(auto)]

mod callers;
mod calls;
mod kind;
mod lines;
mod load;
mod lookups;
mod parts;
mod run;
mod shaper;

use callers::measure_callers;
use lines::measure_lines;
use shaper::measure_shaper;
use std::{env, io};

/// What the program is asked for.
#[derive(Clone, Copy)]
enum Task {
    /// So many configuration lines.
    Lines(u64),
    /// So many rounds of each load of a shaper, or of the load at the place.
    Shaper(u64, Option<usize>),
    /// So many calls of each kind through a service.
    Callers(u64),
    /// A little of each.
    Each,
}

/// The task that the arguments name: its word, a count, and for a shaper a load's place.
fn task_of(rt: &HostRuntime) -> io::Result<Task> {
    let mut args = env::args(rt)?;
    let _program = args.next();
    let Some(word) = args.next() else {
        return Ok(Task::Each);
    };
    let count = match args.next() {
        Some(text) => text.as_str().parse::<u64>().ok(),
        None => None,
    };
    let load = match args.next() {
        Some(text) => text.as_str().parse::<usize>().ok(),
        None => None,
    };
    Ok(match word.as_str() {
        "lines" => Task::Lines(count.unwrap_or(1_000)),
        "shaper" => Task::Shaper(count.unwrap_or(2), load),
        "callers" => Task::Callers(count.unwrap_or(1_600)),
        _ => Task::Each,
    })
}

fn main(rt: HostRuntime) -> io::Result<()> {
    match task_of(&rt)? {
        Task::Lines(lines) => measure_lines(&rt, lines),
        Task::Shaper(rounds, load) => measure_shaper(&rt, rounds, load),
        Task::Callers(calls) => measure_callers(&rt, calls),
        Task::Each => {
            measure_lines(&rt, 1_000)?;
            measure_shaper(&rt, 2, None)?;
            measure_callers(&rt, 1_600)
        }
    }
}
