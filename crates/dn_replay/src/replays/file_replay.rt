ghost use Rattle.std.specs.Prelude.{◌≡◌, ◌≤◌, ◌+◌, ◌-◌, length, List, [], None, Some, Ok, Err, OnOk, IfOk, IfErr, false};
ghost use Rattle.dn_types.specs.declared.call.Call.{Call as CallValue};
ghost use Rattle.dn_files.specs.Reading.{IsFaultOf, IsRefusal};
ghost use Rattle.dn_files.specs.Writing.{NothingWritten};
ghost use Rattle.dn_files.specs.declared.replay_fault.ReplayFault.TheVariants.{OutOfMemory};
ghost use Rattle.dn_replay.specs.Held.{has_entries};
ghost use Rattle.dn_replay.specs.InParts.{AskedOf, calls_asked, HasCome, IsLimit, IsUnfed, LacksMemory, source_of, AnswersCome, CanGoOn, ComesMore, ComesWhole, Coming, First, IsFaultBehind, LeavesCome};
ghost use Rattle.dn_replay.specs.Replays.{config_calls};

use crate::config::config_part::ConfigPart;
use crate::replays::manner::Manner;
use crate::replays::pass::Pass;
use crate::replays::stage::Stage;
use crate::report::Outcome;
use dn_files::{CONFIG_LIMIT, Feed, ReplayFault, Source, feed_all};
use dn_records::{Inlet, Outlet};
use dn_types::Entry;
use std::alloc::Global;
use std::marker::Model;
use std::mem;

/// A replay by one caller of files that come in parts of any length.
///
/// Its text is a joined input, or the packets behind a configuration. `HasCome` says which text has come. Packets are
/// submitted as they come, and nothing is written before `finish`, whose result rests on the text alone and not on its
/// parts.
#[derive(Drop)]
pub struct FileReplay {
    stage: Stage,
    pass: Pass,
    source: Source,
    limit: usize,
    length: usize,
    alloc: Global,
}

impl Model for FileReplay {
    ghost use Rattle.dn_replay.specs.InParts.{CanGoOn, Coming};

    ghost Value = { Coming };

    ghost view = { λ s. record { stage = s.stage; pass = s.pass; source = s.source; limit = s.limit; length = s.length } };

    ghost invariant = { λ s. CanGoOn (record { stage = s.stage; pass = s.pass; source = s.source; limit = s.limit; length = s.length }) };
}

impl FileReplay {
    /// A replay of a joined input, of which nothing has come: a configuration up to the line `--`, and then packets.
    pub fn joined(alloc: Global, manner: Manner) -> FileReplay
        requires { IsLimit manner.limit }
        ensures come { HasCome manner.records result None [] }
        ensures limit { result.limit ≡ manner.limit }
    {
        FileReplay {
            stage: Stage::Config(ConfigPart::new(alloc)),
            pass: Pass::new(alloc, manner.key, manner.records),
            source: Source::Input,
            limit: manner.limit,
            length: 0,
            alloc,
        }
    }

    /// A replay of packets, of which none has come, behind a configuration whose commands are made.
    ///
    /// The configuration has at most 1,048,576 bytes. The faults are the one of the first line that is bad or refused,
    /// TooLong(Config), and OutOfMemory.
    pub fn behind(alloc: Global, manner: Manner, config: &[u8]) -> Result<FileReplay, ReplayFault>
        requires { IsLimit manner.limit }
        ensures ok { IfOk result (λ replay. HasCome manner.records replay (Some config.now) []) }
        ensures limit { IfOk result (λ replay. replay.limit ≡ manner.limit) }
        ensures accepted { OnOk result ((calls : List CallValue) × (config_calls config.now ≡ Ok calls)) }
        ensures err { IfErr result (λ fault. IsFaultOf (config_calls config.now) fault) }
    {
        if config.len() > CONFIG_LIMIT {
            return Err(ReplayFault::TooLong(Source::Config));
        }
        let mut pass = Pass::new(alloc, manner.key, manner.records);
        match pass.configure(config) {
            Ok(()) => Ok(FileReplay {
                stage: Stage::Packets,
                pass,
                source: Source::Packets,
                limit: manner.limit,
                length: 0,
                alloc,
            }),
            Err(fault) => {
                // The proof of a drop by a call has one step, where that of a drop at the end has one for each field.
                drop(pass);
                Err(fault)
            }
        }
    }

    /// Takes the next part, of at most as many bytes in all as its limit says.
    ///
    /// TooLong comes exactly if there are more, and the replay is as before. OutOfMemory says that a growth was refused. After
    /// it the replay lacks memory for good: it takes no more of its text, and `finish` returns OutOfMemory too.
    pub fn feed(&mut self, part: &[u8]) -> Result<(), ReplayFault>
        ensures ok { OnOk result (ComesMore part.now self.old self.new) }
        ensures limit { self.new.limit ≡ self.old.limit }
        ensures room { OnOk result (length part.now + (self.new.limit - self.new.length) ≤ self.old.limit - self.old.length) }
        ensures err { IfErr result (λ fault. IsFaultBehind part.now self.old fault) }
        ensures faults { IfErr result (λ fault. IsUnfed self.old self.new part.now fault) }
        ensures lacks { LacksMemory self.old → LacksMemory self.new }
    {
        if part.len() > self.limit - self.length {
            return Err(ReplayFault::TooLong(self.source));
        }
        // If memory is refused, this stage stays.
        let refused = Stage::Refused(ReplayFault::OutOfMemory);
        let stage = mem::replace(&mut self.stage, refused);
        let Ok(next) = stage.feed(&mut self.pass, part) else {
            return Err(ReplayFault::OutOfMemory);
        };
        self.stage = next;
        self.length += part.len();
        Ok(())
    }

    /// Feeds what an inlet has left, in parts of at most 65,536 bytes.
    ///
    /// The faults are those of `feed`, after which nothing more is read, and Read if a read failed.
    pub fn read<I: Inlet>(&mut self, inlet: &mut I) -> Result<(), ReplayFault>
        requires sound { I.has_failed inlet.old ≡ false }
        ensures ok { OnOk result (ComesWhole (I.remaining inlet.old) self.old self.new) }
        ensures limit { OnOk result (First self.old (λ records config. self.new.limit ≡ self.old.limit)) }
        ensures sound { OnOk result (I.has_failed inlet.new ≡ false) }
        ensures err { IfErr result (λ fault. First self.old (λ records config.
            IsRefusal (source_of config) (calls_asked self.old.limit config) (I.remaining inlet.old) (I.has_failed inlet.new) fault)) }
    {
        feed_all(self.alloc, inlet, self)
    }

    /// Takes the end of the text: returns its first fault, or writes its report and returns its history and its outcome.
    ///
    /// The history is empty if none is kept. Before Write a part of the report was written, and before any other fault
    /// nothing.
    pub fn finish<O: Outlet>(self, out: &mut O) -> Result<(Vec<Entry>, Outcome), ReplayFault>
        requires sound { O.has_failed out.old ≡ false }
        ensures ok { IfOk result (λ both. AnswersCome self both.0.items both.1.untargeted (O.contents out.old) (O.contents out.new)) }
        ensures unasked { IfOk result (λ both. has_entries self.pass.held ≡ false → both.0.items ≡ []) }
        ensures sound { IfOk result (λ _. O.has_failed out.new ≡ false) }
        ensures err { IfErr result (λ fault. LeavesCome self (O.contents out.old) (O.contents out.new) (O.has_failed out.new) fault) }
        ensures lacks { LacksMemory self
            → (result ≡ Err OutOfMemory) × NothingWritten (O.contents out.old) (O.contents out.new) (O.has_failed out.new) }
    {
        let mut pass = self.pass;
        let answer = self.stage.finish(self.alloc, &mut pass, out);
        drop(pass);
        answer
    }
}

impl Feed for FileReplay {
    ghost Known = { AskedOf };

    ghost Value = { List CallValue };

    ghost reading = { λ known. calls_asked known.limit known.config };

    ghost source_of = { λ known. source_of known.config };

    ghost has_come = { λ known replay text. HasCome known.records replay known.config text × (replay.limit ≡ known.limit) };

    ghost room = { λ replay. replay.limit - replay.length };

    fn feed(&mut self, part: &[u8]) -> Result<(), ReplayFault> {
        FileReplay::feed(self, part)
    }

    fn source(&self) -> Source {
        self.source
    }
}
