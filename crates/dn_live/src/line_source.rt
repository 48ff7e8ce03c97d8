ghost use Rattle.std.specs.Prelude.{◌≡◌, ◌≤◌, ◌<◌, ◌++◌, ℕ, List, [], length, false, IfOk, IfErr};
ghost use Rattle.std.specs.List.{position_or_len};
ghost use Rattle.std.specs.Io.KnownBytes.{prepend_known};
ghost use Rattle.dn_config.specs.Tokens.Lines.{is_line_feed};
ghost use Rattle.dn_live.specs.LinesTaken.{IsFilled, IsLine, IsNotRead, IsNotTaken, IsOneLine, TakesLine, TakesPiece};

use dn_files::{ReplayFault, Source};
use dn_records::Inlet;
use std::alloc::{AllocError, Global};
use std::marker::Model;

// How many bytes one read asks for at most.
const CHUNK: usize = 16384;

/// The greatest length of a line in bytes.
const LINE_LIMIT: usize = 65_536;

/// Where the first line feed of a text is, or its end.
#[tactic(auto, using(std::proofs::lemmas::List::Sums::position_or_len_is))]
fn feed_at(text: &[u8]) -> usize
    ensures value { result ≡ position_or_len is_line_feed text.now }
    ensures within { result ≤ length text.now }
{
    for (i, byte) in text.iter().enumerate() {
        if *byte == b'\n' {
            return i;
        }
    }
    text.len()
}

/// Bytes that were read and aren't taken yet. It is seen as these bytes.
#[derive(Drop)]
pub(crate) struct LineSource {
    bytes: Vec<u8>,
    start: usize,
}

impl Model for LineSource {
    ghost use Rattle.std.specs.Prelude.{ℕ, ◌≤◌, List, drop, length};

    ghost Value = { List ℕ };

    ghost view = { λ s. drop s.start s.bytes.items };

    ghost invariant = { λ s. s.start ≤ length s.bytes.items };
}

impl LineSource {
    /// No byte.
    pub(crate) fn new(alloc: Global) -> LineSource
        ensures { result ≡ [] }
    {
        LineSource {
            bytes: Vec::new(alloc),
            start: 0,
        }
    }

    /// The bytes.
    fn left(&self) -> &[u8]
        ensures { result.now ≡ self.now }
    {
        &self.bytes[self.start..]
    }

    /// Moves the bytes up to the next line feed to the end of `line`, and drops the line feed.
    ///
    /// It returns whether there was one.
    fn take_piece(&mut self, line: &mut Vec<u8>) -> Result<bool, AllocError>
        ensures { IfOk result (λ found. (piece : List ℕ) × TakesPiece self.old self.new found piece
            × (line.new.items ≡ line.old.items ++ piece) × IsOneLine piece) }
    {
        let rest = self.left();
        let length = feed_at(rest);
        line.extend_from_slice(&rest[..length])?;
        if length < rest.len() {
            self.start += length + 1;
            Ok(true)
        } else {
            self.start = self.bytes.len();
            Ok(false)
        }
    }

    /// Reads bytes where none is left, and answers whether some are there. At the end of the input none are.
    fn fill<I: Inlet>(&mut self, input: &mut I) -> Result<bool, ReplayFault>
        requires { I.has_failed input.old ≡ false }
        ensures ok { IfOk result (λ more. IsFilled (prepend_known self.old (I.remaining input.old))
            (prepend_known self.new (I.remaining input.new)) more self.new) }
        ensures sound { IfOk result (λ _. I.has_failed input.new ≡ false) }
        ensures err { IfErr result (λ fault. IsNotRead (I.has_failed input.new) fault) }
    {
        if self.start < self.bytes.len() {
            return Ok(true);
        }
        let mut chunk = [0u8; CHUNK];
        let Some(count) = input.read(&mut chunk) else {
            return Err(ReplayFault::Read(Source::Input));
        };
        self.bytes.clear();
        self.start = 0;
        if self.bytes.extend_from_slice(&chunk[..count]).is_err() {
            return Err(ReplayFault::OutOfMemory);
        }
        Ok(count > 0)
    }

    /// Takes the next line into `line`, without its line feed, and returns true.
    ///
    /// At the end of the input it returns false, and what follows the last line feed is in `line`. It reads only if it has
    /// no line feed, so that a line is there as soon as it has come.
    pub(crate) fn next<I: Inlet>(
        &mut self,
        input: &mut I,
        line: &mut Vec<u8>,
    ) -> Result<bool, ReplayFault>
        requires { I.has_failed input.old ≡ false }
        ensures ok { IfOk result (λ found. TakesLine (prepend_known self.old (I.remaining input.old))
            (prepend_known self.new (I.remaining input.new)) found line.new.items) }
        ensures one { IfOk result (λ _. IsLine line.new.items) }
        ensures sound { IfOk result (λ _. I.has_failed input.new ≡ false) }
        ensures err { IfErr result (λ fault.
            IsNotTaken (prepend_known self.old (I.remaining input.old)) (I.has_failed input.new) fault) }
    {
        line.clear();
        loop {
            match self.fill(input) {
                Ok(true) => {}
                Ok(false) => return Ok(false),
                Err(fault) => return Err(fault),
            }
            let Ok(found) = self.take_piece(line) else {
                return Err(ReplayFault::OutOfMemory);
            };
            if line.len() > LINE_LIMIT {
                return Err(ReplayFault::TooLong(Source::Input));
            }
            if found {
                return Ok(true);
            }
        }
    }
}
