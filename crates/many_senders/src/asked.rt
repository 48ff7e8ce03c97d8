use std::rt::Env;
use std::{env, io};

/// How many calls are made if the command line names no count.
const CALLS: u32 = 1_600;

/// What the command line asks for.
#[derive(Drop)]
pub struct Asked {
    /// How many calls the sixteen threads make together.
    pub calls: u32,
    /// Where the history goes.
    pub path: String,
}

/// Reads a count of calls and the name of a file, each of which may be absent.
pub fn asked_for<R: Env + AllocGlobal>(rt: &R) -> io::Result<Asked> {
    let mut args = env::args(rt)?;
    let _program = args.next();
    let calls = match args.next() {
        Some(count) => count.as_str().parse::<u32>().unwrap_or(CALLS),
        None => CALLS,
    };
    let path = match args.next() {
        Some(path) => path,
        None => String::from_str(rt.alloc(), "history")?,
    };
    Ok(Asked { calls, path })
}
