//! The program: opens what the command line names, replays, audits or serves, and ends with the status of what came of it.
#![tactic(auto)]

mod asked;
mod audits;
mod fault;
mod form;
mod history_file;
mod refusal;
mod replays;
mod request;
mod words;

use asked::request_of;
use audits::audit;
use dn_live::live;
use dn_records::{FromReader, FromWriter};
use dn_replay::{HashKey, ReplayFault};
use fault::Fault;
use refusal::Refusal;
use replays::{replay_files, replay_input};
use request::Request;
use std::io;
use std::process::ExitCode;
use std::random::RandomSource;
use std::rt::{Env, Files};
use std::sync::Wait;
use std::thread::Threads;
use words::words_of;

// The status of a replay that was made.
const DONE: u8 = 0;

// The status where the system gives no random numbers.
const UNREAD: u8 = 6;

/// Serves a live session from standard input, and answers its status.
fn serve<R: Input + Print + AllocGlobal>(rt: &R, key: HashKey) -> Result<u8, ReplayFault> {
    let mut input = FromReader::new(rt.reader());
    let mut out = FromWriter::new(io::writer(rt));
    Ok(live(rt.alloc(), key, &mut input, &mut out)?.status())
}

/// Does what is asked for, and answers its status.
fn run<R: Input + Files + Print + AllocGlobal + Threads + Wait + Sync>(
    rt: &R,
    key: HashKey,
    request: &Request<'_>,
) -> Result<u8, Fault> {
    match request {
        Request::Joined => replay_input(rt, key)?,
        Request::Replay(asked) => replay_files(rt, key, asked)?,
        Request::Audit(asked) => return Ok(audit(rt, key, asked)?),
        Request::Live => return Ok(serve(rt, key)?),
    }
    Ok(DONE)
}

/// The secret by which the flow table hashes, drawn anew in each run, so that who writes a packet file can't know it.
fn drawn_key<R: RandomSource>(rt: &R) -> io::Result<HashKey> {
    let mut bytes = [0; 16];
    rt.fill_bytes(&mut bytes)?;
    Ok(HashKey(u128::from_le_bytes(bytes)))
}

/// Does what is asked for, with one line on standard error for a fault, and answers the status.
fn done<R>(rt: &R, request: &Request<'_>) -> u8
where
    R: Input + Files + Print + Eprint + AllocGlobal + Threads + Wait + Sync + RandomSource,
{
    let Ok(key) = drawn_key(rt) else {
        let _ = eprintln!(rt; "cannot read random numbers");
        return UNREAD;
    };
    match run(rt, key, request) {
        Ok(status) => status,
        Err(fault) => {
            let _ = eprintln!(rt; "{fault}");
            fault.status()
        }
    }
}

/// Does what the command line asks for, or tells why it asks for nothing, and answers the status.
fn status_of<R>(rt: &R) -> Result<u8, Refusal>
where
    R: Env + Input + Files + Print + Eprint + AllocGlobal + Threads + Wait + Sync + RandomSource,
{
    let words = words_of(rt)?;
    let request = request_of(rt.alloc(), words.as_slice())?;
    Ok(done(rt, &request))
}

fn main(rt: HostRuntime) -> ExitCode {
    match status_of(&rt) {
        Ok(status) => ExitCode::from(status),
        Err(refusal) => {
            let _ = refusal.print(&rt);
            ExitCode::from(refusal.status())
        }
    }
}
