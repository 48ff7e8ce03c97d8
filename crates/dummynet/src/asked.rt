ghost use Rattle.std.specs.Prelude.{◌≡◌, ◌↔◌, IfErr, IfOk, IsTrue, MatchOption, map, string_bytes};
ghost use Rattle.clap.specs.Words.{found_of, rows_of, subcommand_rows_of};
ghost use Rattle.dummynet.specs.Requests.{Asks, AsksFor, Conflicts, IsAuditOf, IsRefusedFor, IsReplayOf, LimitsCallers, Overwrites, value_of};

use crate::form::{called_replay, form};
use crate::refusal::Refusal;
use crate::request::{Audit, Replay, Request};
use clap::ArgMatches;
use clap::error::ErrorKind;
use std::alloc::Global;

// The value of an argument that has to be given.
fn value<'a>(found: &ArgMatches<'a>, name: &str) -> &'a str
    ensures { result.now ≡ value_of name.now (rows_of (found_of found.now)) }
{
    found.get_str(name).unwrap_or("")
}

// The replay that these arguments ask for.
fn replay<'a>(found: &ArgMatches<'a>) -> Replay<'a>
    ensures { IsReplayOf (rows_of (found_of found.now)) result }
{
    Replay {
        config: value(found, "config"),
        packets: value(found, "packets"),
        callers: found.get_one::<usize>("callers"),
        history: found.get_str("history"),
        most_packets: found.get_one::<usize>("most-packets"),
    }
}

// The audit that these arguments ask for.
fn audit<'a>(found: &ArgMatches<'a>) -> Audit<'a>
    ensures { IsAuditOf (rows_of (found_of found.now)) result }
{
    Audit {
        history: value(found, "history"),
        most_history: found.get_one::<usize>("most-history"),
    }
}

// What was understood.
fn asked<'a>(matches: &ArgMatches<'a>) -> Request<'a>
    ensures { AsksFor (subcommand_rows_of matches.now) result }
{
    match matches.subcommand() {
        None => Request::Joined,
        Some(("audit", found)) => Request::Audit(audit(found)),
        Some(("live", _)) => Request::Live,
        Some((_, found)) => Request::Replay(replay(found)),
    }
}

// Whether the history would go where the configuration or the packets are read from, by the same word.
fn overwrites(request: &Request<'_>) -> bool
    ensures { IsTrue result ↔ Overwrites request.now }
{
    let Request::Replay(replay) = request else {
        return false;
    };
    let Some(history) = replay.history else {
        return false;
    };
    history == replay.config || history == replay.packets
}

// Whether a limit of the packets is given to callers, who have the usual one.
fn limits_callers(request: &Request<'_>) -> bool
    ensures { IsTrue result ↔ LimitsCallers request.now }
{
    let Request::Replay(replay) = request else {
        return false;
    };
    replay.callers.is_some() && replay.most_packets.is_some()
}

// Why the arguments of a request don't go together, if they don't.
fn conflict_of(request: &Request<'_>) -> Option<&'static str>
    ensures { MatchOption result (Conflicts request.now → ⊥) (λ _. Conflicts request.now) }
{
    if overwrites(request) {
        return Some("--history FILE would overwrite CONFIG or PACKETS");
    }
    if limits_callers(request) {
        return Some("--most-packets BYTES can't be used with --callers N");
    }
    None
}

/// What the words of a command line ask for, of which the first is the program's name, or why they ask for nothing.
pub fn request_of<'a>(alloc: Global, words: &'a [String]) -> Result<Request<'a>, Refusal>
    ensures ok { IfOk result (Asks (map (λ s. string_bytes s) words.now)) }
    ensures err { IfErr result (IsRefusedFor (map (λ s. string_bytes s) words.now)) }
{
    let mut form = form(alloc)?;
    let matches = form.try_get_matches_from_mut(words)?;
    let request = asked(&matches);
    if let Some(told) = conflict_of(&request) {
        let mut replay = called_replay(alloc)?;
        return Err(Refusal::from(replay.error(ErrorKind::ArgumentConflict, told)?));
    }
    Ok(request)
}
