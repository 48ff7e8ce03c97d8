use dn_records::{FromReader, FromWriter};
use dn_replay::{ReplayFault, replay, replay_joined};
use std::alloc::Global;
use std::io::Read;

// What a replay answers, by the count of its entries, and what it writes.
#[derive(Drop)]
pub struct Outcome {
    pub answer: Result<usize, ReplayFault>,
    pub written: Vec<u8>,
}

impl Outcome {
    // Whether the replay was refused for this fault, and wrote nothing.
    pub fn is_refused(&self, fault: ReplayFault) -> bool {
        self.answer == Err(fault) && self.written.is_empty()
    }
}

pub fn replay_readers<C: Read + Drop, P: Read + Drop>(
    alloc: Global,
    config: C,
    packets: P,
) -> Outcome {
    let mut config = FromReader::new(config);
    let mut packets = FromReader::new(packets);
    let mut written = Vec::new(alloc);
    let mut out = FromWriter::new(&mut written);
    let history = replay(alloc, &mut config, &mut packets, &mut out);
    let answer = history.map(|entries| entries.len());
    Outcome { answer, written }
}

pub fn replay_files(alloc: Global, config: &str, packets: &str) -> Outcome {
    replay_readers(alloc, config.as_bytes(), packets.as_bytes())
}

pub fn replay_joined_reader<I: Read + Drop>(alloc: Global, input: I) -> Outcome {
    let mut input = FromReader::new(input);
    let mut written = Vec::new(alloc);
    let mut out = FromWriter::new(&mut written);
    let history = replay_joined(alloc, &mut input, &mut out);
    let answer = history.map(|entries| entries.len());
    Outcome { answer, written }
}

pub fn replay_text(alloc: Global, text: &str) -> Outcome {
    replay_joined_reader(alloc, text.as_bytes())
}
