ghost use Rattle.std.specs.Prelude.{bytes_eq, if◌then◌else◌, ◌≡◌, ◌∷◌, ◌+◌, ◌<◌, ◌^◌, length, codes, ◌||◌, IfOk};
ghost use Rattle.dn_config.specs.Line.{answer, config_at, deletes, whole_at, verb_at, delete_at, behind_kind, command_from, command_with, behind_ipfw, command_of};
ghost use Rattle.std.specs.List.{before_first};
ghost use Rattle.std.specs.Prelude.{◌≤◌};
ghost use Rattle.dn_config.specs.Words.{is_hash};
ghost use Rattle.dn_config.specs.Reading.{left};

use crate::fault::LineFault;
use crate::keywords::{asks, is};
use crate::kind::Kind;
use crate::numbers::number_value;
use crate::options::{Options, read_options};
use crate::tokens::Words;
use dn_types::{Command, Number};

/// The command that the options of a `config` line make.
///
/// Here and below `at` is the position of the word that begins the command, `pipe` or `queue`.
fn configured(kind: Kind, at: usize, number: Number, options: Options) -> Result<Command, LineFault>
    ensures { result ≡ command_with kind at number options }
{
    match kind {
        Kind::Pipe => Ok(Command::Pipe {
            number,
            bw: options.bw,
            delay: options.delay,
            limit: options.limit,
            loss: options.loss,
            buckets: options.buckets,
            mask: options.mask,
        }),
        Kind::Queue => {
            let Some(pipe) = options.pipe else {
                return Err(LineFault::NeedsPipe(at));
            };
            Ok(Command::Queue {
                number,
                pipe,
                weight: options.weight,
                limit: options.limit,
                loss: options.loss,
                buckets: options.buckets,
                mask: options.mask,
            })
        }
    }
}

/// The deletion of a pipe or of a queue.
fn deletion(kind: Kind, number: Number) -> Command
    ensures { result ≡ deletes kind number }
{
    match kind {
        Kind::Pipe => Command::DeletePipe(number),
        Kind::Queue => Command::DeleteQueue(number),
    }
}

/// The command, where nothing follows it.
fn whole(words: Words<'_>, command: Command) -> Result<Command, LineFault>
    requires { words.position + length words.rest.now < 2 ^ 64 }
    ensures { result ≡ whole_at words.entry.position (left words.entry) command }
{
    match words.next() {
        None => Ok(command),
        Some(_) => Err(LineFault::UnknownWord(words.position)),
    }
}

/// What a `config` line says behind the word `config`.
fn config(kind: Kind, at: usize, number: Number, words: Words<'_>) -> Result<Command, LineFault>
    requires place { words.position ≡ at + 3 }
    requires room { words.position + length words.rest.now < 2 ^ 64 }
    ensures { result ≡ config_at kind at number (left words.entry) }
{
    match read_options(kind, words) {
        Ok(options) => configured(kind, at, number, options),
        Err(fault) => Err(fault),
    }
}

/// What a line says behind the number.
fn verb(kind: Kind, at: usize, number: Number, words: Words<'_>) -> Result<Command, LineFault>
    requires place { words.position ≡ at + 2 }
    requires room { words.position + length words.rest.now < 2 ^ 64 }
    ensures { result ≡ verb_at kind at number (left words.entry) }
{
    let Some((word, behind)) = words.next() else {
        return Err(LineFault::MissingValue(at + 1));
    };
    if is(word, "config") {
        config(kind, at, number, behind)
    } else if is(word, "delete") {
        whole(behind, deletion(kind, number))
    } else if asks(word) {
        Err(LineFault::LeftOut(words.position))
    } else {
        Err(LineFault::UnknownWord(words.position))
    }
}

/// What a line says behind a `delete` that stands before the number.
fn delete(kind: Kind, at: usize, words: Words<'_>) -> Result<Command, LineFault>
    requires place { words.position ≡ at + 2 }
    requires room { words.position + length words.rest.now < 2 ^ 64 }
    ensures { result ≡ delete_at kind at (left words.entry) }
{
    let Some((word, behind)) = words.next() else {
        return Err(LineFault::MissingValue(at + 1));
    };
    let number = number_value(word, words.position)?;
    whole(behind, deletion(kind, number))
}

/// What a line says behind `pipe` or `queue`.
fn target(kind: Kind, at: usize, words: Words<'_>) -> Result<Command, LineFault>
    requires place { words.position ≡ at + 1 }
    requires room { words.position + length words.rest.now < 2 ^ 64 }
    ensures { result ≡ behind_kind kind at (left words.entry) }
{
    let Some((word, behind)) = words.next() else {
        return Err(LineFault::MissingValue(at));
    };
    if is(word, "delete") {
        return delete(kind, at, behind);
    }
    if asks(word) {
        return Err(LineFault::LeftOut(words.position));
    }
    let number = number_value(word, words.position)?;
    verb(kind, at, number, behind)
}

/// The command that the word at this position begins.
fn command(at: usize, word: &[u8], words: Words<'_>) -> Result<Command, LineFault>
    requires place { words.position ≡ at + 1 }
    requires room { words.position + length words.rest.now < 2 ^ 64 }
    ensures { result ≡ command_from at (word.now ∷ left words.entry) }
{
    if is(word, "pipe") {
        target(Kind::Pipe, at, words)
    } else if is(word, "queue") {
        target(Kind::Queue, at, words)
    } else if is(word, "sched") {
        Err(LineFault::LeftOut(at))
    } else {
        Err(LineFault::UnknownWord(at))
    }
}

/// The command of a line, as its first word has it.
fn line_command(word: &[u8], words: Words<'_>) -> Result<Command, LineFault>
    requires place { words.position ≡ 2 }
    requires room { words.position + length words.rest.now < 2 ^ 64 }
    ensures { result ≡ (if bytes_eq word.now (codes "ipfw") then behind_ipfw (left words.entry) else command_from 1 (word.now ∷ left words.entry)) }
{
    if !is(word, "ipfw") {
        return command(1, word, words);
    }
    match words.next() {
        Some((word, behind)) => command(2, word, behind),
        None => Err(LineFault::MissingValue(1)),
    }
}

/// The command of the words of a line.
fn command_in(words: Words<'_>) -> Result<Option<Command>, LineFault>
    requires place { words.position ≡ 1 }
    requires room { words.position + length words.rest.now < 2 ^ 64 }
    ensures { result ≡ command_of (left words.entry) }
{
    let Some((word, behind)) = words.next() else {
        return Ok(None);
    };
    match line_command(word, behind) {
        Ok(command) => Ok(Some(command)),
        Err(fault) => Err(fault),
    }
}

/// What stands before the comment of a line.
#[tactic(auto, using(std::proofs::lemmas::List::Sums::position_or_len_is))]
fn before_comment(line: &[u8]) -> &[u8]
    ensures value { result.now ≡ before_first is_hash line.now }
    ensures shorter { length result.now ≤ length line.now }
{
    for (i, byte) in line.iter().enumerate() {
        if *byte == b'#' {
            return &line[..i];
        }
    }
    line
}

/// The command of a configuration line in the manner of ipfw(8), or the line's first fault.
///
/// A line without words has no command: None. It takes no memory, whatever the line's length, and so it never returns
/// [`LineFault::OutOfMemory`].
#[tactic(auto, unfolding(crate::specs::Line::answer, crate::specs::Words::words))]
pub fn parse_line(line: &str) -> Result<Option<Command>, LineFault>
    ensures { result ≡ answer line.now }
{
    let rest = before_comment(line.as_bytes());
    command_in(Words::new(rest))
}
