ghost use Rattle.std.specs.Prelude.{◌≡◌, IfOk, false};
ghost use Rattle.clap.specs.Words.{rule_of};
ghost use Rattle.dummynet.specs.Program.{IsForm, audit_form, bare_form, callers_rule, file_rule, history_rule, live_form, most_rule, program, replay_form, unlimited_form};

use clap::builder::ValueParser;
use clap::{Arg, Command};
use std::alloc::{AllocError, Global};

// What `--version` tells: the version, and the kit with which it is proved and built.
const VERSION: &str = "2.0.0 (rattle-kit-13f)";

// What stands below the options in the help of the whole.
const EXAMPLE: &str = "Example:
  dummynet replay dsl.config dsl.csv --history dsl.history > dsl.report
  dummynet audit dsl.history

CONFIG has a line for each pipe or queue, as ipfw(8): pipe 1 config bw 8Mbit/s delay 20ms
PACKETS is CSV with a header and a row for each packet that is sent
HISTORY is what --history wrote: each call and the reply that it got
The report on standard output tells for each packet when it left, or why it didn't.
dummynet(1) and docs/FILES.md describe the files, the faults and the statuses.";

// A file that has to be named.
fn required<'a>(alloc: Global, name: &'a str, shown: &'a str, help: &'a str) -> Arg<'a>
    ensures rule { rule_of result ≡ file_rule name.entry.now }
    ensures local { result.global ≡ false }
{
    Arg::new(alloc, name)
        .value_name(shown)
        .required(true)
        .help(help)
}

// How many callers replay.
fn callers<'a>(alloc: Global) -> Arg<'a>
    ensures rule { rule_of result ≡ callers_rule }
    ensures local { result.global ≡ false }
{
    Arg::new(alloc, "callers")
        .long("callers")
        .value_name("N")
        .value_parser(ValueParser::unsigned(1, 16))
        .help("Replays by N callers in threads of their own, 1 to 16")
}

// Where the history goes.
fn history<'a>(alloc: Global) -> Arg<'a>
    ensures rule { rule_of result ≡ history_rule }
    ensures local { result.global ≡ false }
{
    Arg::new(alloc, "history")
        .long("history")
        .value_name("FILE")
        .help(
            "Writes the calls and their replies to FILE, after the report. FILE is made, or emptied if it is there",
        )
}

// How many bytes a file can have at most.
fn most<'a>(alloc: Global, name: &'a str, help: &'a str) -> Arg<'a>
    ensures rule { rule_of result ≡ most_rule name.entry.now }
    ensures local { result.global ≡ false }
{
    Arg::new(alloc, name)
        .long(name)
        .value_name("BYTES")
        .value_parser(ValueParser::unsigned(1, 1 << 40))
        .help(help)
}

// The command that replays two files, without a limit of the packets.
fn unlimited_replay<'a>(alloc: Global) -> Result<Command<'a>, AllocError>
    ensures { IfOk result (IsForm unlimited_form) }
{
    Command::new(alloc, "replay")
        .about("Replays a packet file through a configuration and writes the report")
        .arg(required(
            alloc,
            "config",
            "CONFIG",
            "The configuration: a line for each pipe or queue",
        ))?
        .arg(required(
            alloc,
            "packets",
            "PACKETS",
            "The packets: CSV, a row for each",
        ))?
        .arg(callers(alloc))?
        .arg(history(alloc))
}

// The command that replays two files.
fn replay<'a>(alloc: Global) -> Result<Command<'a>, AllocError>
    ensures { IfOk result (IsForm replay_form) }
{
    unlimited_replay(alloc)?.arg(most(
        alloc,
        "most-packets",
        "Takes PACKETS of at most so many bytes, in place of 67108864. Not with --callers",
    ))
}

// The same command under the name by which it is called, so that a fault of its own shows its own usage.
pub(crate) fn called_replay<'a>(alloc: Global) -> Result<Command<'a>, AllocError> {
    replay(alloc)?.bin_name("dummynet replay")
}

// The command that audits a history.
fn audit<'a>(alloc: Global) -> Result<Command<'a>, AllocError>
    ensures { IfOk result (IsForm audit_form) }
{
    Command::new(alloc, "audit")
        .about("Tells whether a history is lawful, or the first entry that differs")
        .arg(required(
            alloc,
            "history",
            "HISTORY",
            "A history: a file that replay --history wrote, or what live or the library did",
        ))?
        .arg(most(
            alloc,
            "most-history",
            "Takes a HISTORY of at most so many bytes, in place of 268435456",
        ))
}

// The command that serves a live session.
fn live<'a>(alloc: Global) -> Command<'a>
    ensures { IsForm live_form result }
{
    Command::new(alloc, "live").about(
        "Emulates for programs that run: calls on standard input are answered at once on standard output, as a history",
    )
}

// The program without its commands.
fn alone<'a>(alloc: Global) -> Command<'a>
    ensures { IsForm bare_form result }
{
    Command::new(alloc, "dummynet")
        .version(VERSION)
        .about(
            "Replays packets through emulated links. Without arguments it reads standard input: a configuration, a line --, and packets",
        )
        .after_help(EXAMPLE)
}

// The command line of the program.
pub(crate) fn form<'a>(alloc: Global) -> Result<Command<'a>, AllocError>
    ensures { IfOk result (IsForm program) }
{
    let replay = replay(alloc)?;
    let audit = audit(alloc)?;
    alone(alloc)
        .subcommand(replay)?
        .subcommand(audit)?
        .subcommand(live(alloc))
}
