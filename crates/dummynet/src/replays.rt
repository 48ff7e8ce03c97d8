use crate::fault::Fault;
use crate::history_file::{HistoryFile, may_take_history};
use crate::request::Replay;
use dn_records::{FromReader, FromWriter};
use dn_replay::{
    HashKey, Manner, NoGate, PACKET_LIMIT, ReplayFault, Source, replay_callers_with_key,
    write_history,
};
use std::rt::Files;
use std::sync::Wait;
use std::thread::Threads;
use std::{fs, io};

// No limit is above this one, as the command line says too.
const MOST: usize = 1 << 40;

/// From standard input to standard output.
pub fn replay_input<R: Input + Print + AllocGlobal>(
    rt: &R,
    key: HashKey,
) -> Result<(), ReplayFault> {
    let mut input = FromReader::new(rt.reader());
    let mut out = FromWriter::new(io::writer(rt));
    let manner = Manner {
        key,
        records: false,
        limit: PACKET_LIMIT,
    };
    dn_replay::replay_input(rt.alloc(), manner, &mut input, &mut out)?;
    Ok(())
}

/// Whether no file is lost where the history goes.
fn spares_files<R: Files>(rt: &R, history: Option<&str>) -> bool {
    match history {
        Some(path) => may_take_history(rt, path),
        None => true,
    }
}

/// From two files to standard output.
///
/// Both are opened before either is read. The history goes to a third one after the report, once its whole text is in
/// memory. Whether that file may be replaced is seen before the replay, and again after it.
pub fn replay_files<R: Files + Print + AllocGlobal + Threads + Wait + Sync>(
    rt: &R,
    key: HashKey,
    asked: &Replay<'_>,
) -> Result<(), Fault> {
    let Ok(config) = fs::open(rt, asked.config) else {
        return Err(Fault::Replay(ReplayFault::Read(Source::Config)));
    };
    let Ok(packets) = fs::open(rt, asked.packets) else {
        return Err(Fault::Replay(ReplayFault::Read(Source::Packets)));
    };
    if !spares_files(rt, asked.history) {
        return Err(Fault::OtherFile);
    }
    let mut config = FromReader::new(config);
    let mut packets = FromReader::new(packets);
    let mut out = FromWriter::new(io::writer(rt));
    let alloc = rt.alloc();
    let limit = asked.most_packets.unwrap_or(PACKET_LIMIT).min(MOST);
    let manner = Manner {
        key,
        records: asked.history.is_some(),
        limit,
    };
    let entries = match asked.callers {
        Some(n) => replay_callers_with_key(
            rt,
            alloc,
            key,
            n,
            &mut config,
            &mut packets,
            &mut out,
            &NoGate,
        )?,
        None => dn_replay::replay_files(alloc, manner, &mut config, &mut packets, &mut out)?.0,
    };
    let Some(path) = asked.history else {
        return Ok(());
    };
    if !may_take_history(rt, path) {
        return Err(Fault::OtherFile);
    }
    write_history(
        alloc,
        &entries,
        &mut FromWriter::new(HistoryFile::new(rt, path)),
    )?;
    Ok(())
}
