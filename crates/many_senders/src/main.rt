//! Sixteen threads make calls over one emulated link, and one of them writes the history to a file while they go on.
#![tactic(auto)]

mod asked;
mod calls;
mod history_file;
mod pace;
mod run;
mod sender;
mod writer;

use asked::asked_for;
use history_file::HistoryFile;
use run::run;
use std::fs;

fn main(rt: HostRuntime) -> anyhow::Result<()> {
    let asked = asked_for(&rt)?;
    let rounds = asked.calls / 16;
    let mut file = HistoryFile::new(rt.alloc(), fs::create(&rt, asked.path.as_str())?)?;
    let entries = run(&rt, rt.alloc(), &mut file, rounds)?;
    println!(rt;
        "16 threads made {rounds} calls each: {entries} entries in {}",
        asked.path
    )?;
    Ok(())
}
