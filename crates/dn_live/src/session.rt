ghost use Rattle.std.specs.Prelude.{◌≡◌, ◌≤◌, ◌<◌, ◌+◌, ◌^◌, ℕ, List, [], ◌∷◌, ◌++◌, length, false, true, IfOk, IfErr, OnOk};
ghost use Rattle.std.specs.Io.KnownBytes.{Appends};
ghost use Rattle.dn_types.specs.declared.call.Call.{Call as CallValue};
ghost use Rattle.dn_types.specs.declared.rule.Rule.TheVariants.{Ordered};
ghost use Rattle.dn_records.specs.Records.{text_of};
ghost use Rattle.dn_files.specs.Writing.{IsUnwritten};
ghost use Rattle.dn_history.specs.HistoryText.{end_record};
ghost use Rattle.dn_records.specs.Devices.{AppendsPart};
ghost use Rattle.dn_files.specs.declared.replay_fault.ReplayFault.TheVariants.{Write};
ghost use Rattle.dn_files.specs.declared.source.Source.TheVariants.{History};
ghost use Rattle.dn_shaper.specs.Shaper.{StandsAfter};
ghost use Rattle.dn_live.specs.Asked.{asked};
ghost use Rattle.dn_live.specs.Session.{answer, bad_of, bad_tail, begun, calls_after, count_of, IsBrokenOff, IsServed, tail_answer};
ghost use Rattle.dn_live.specs.Transcripts.{IsServedTyped, IsTranscript, IsTyped};

use crate::answers::{answer_text, closing_text};
use crate::line_source::LineSource;
use crate::read_line::read_line;
use crate::served::Served;
use csv::ByteRecord;
use dn_files::{ReplayFault, Source, write_text};
use dn_records::{Inlet, Outlet, write_whole};
use dn_shaper::{HashKey, Shaper};
use dn_types::Rule;
use std::alloc::Global;

/// Writes the record that names the format.
fn write_head<O: Outlet>(out: &mut O) -> Result<(), ReplayFault>
    requires { O.has_failed out.old ≡ false }
    ensures ok { OnOk result (Appends (O.contents out.old) (O.contents out.new) (begun [])) }
    ensures sound { OnOk result (O.has_failed out.new ≡ false) }
    ensures err { IfErr result (λ fault. (fault ≡ Write History) × (O.has_failed out.new ≡ true)
        × AppendsPart (O.contents out.old) (O.contents out.new) (begun [])) }
{
    match write_whole(out, b"dummynet-live,1\n") {
        Ok(()) => Ok(()),
        Err(_) => Err(ReplayFault::Write(Source::History)),
    }
}

/// Makes the call that a line asks for, if it asks for one, and writes the reply.
///
/// It counts the call or the bad line.
fn serve_line<O: Outlet>(
    alloc: Global,
    shaper: &mut Shaper,
    number: u64,
    line: &[u8],
    fields: &mut ByteRecord,
    out: &mut O,
) -> Result<Served, ReplayFault>
    requires { O.has_failed out.old ≡ false }
    ensures ok { IfOk result (λ _. (calls : List CallValue) → StandsAfter Ordered shaper.old calls →
        StandsAfter Ordered shaper.new (calls_after calls (asked line.now))
        × Appends (O.contents out.old) (O.contents out.new) (text_of (answer number calls (asked line.now))) × IsTyped calls (asked line.now)) }
    ensures count { IfOk result (λ made. (made.calls ≡ count_of (asked line.now)) × (made.bad ≡ bad_of (asked line.now))) }
    ensures sound { IfOk result (λ _. O.has_failed out.new ≡ false) }
    ensures err { IfErr result (λ fault. (calls : List CallValue) → StandsAfter Ordered shaper.old calls →
        IsUnwritten History (text_of (answer number calls (asked line.now)))
        (O.contents out.old) (O.contents out.new) (O.has_failed out.new) fault) }
{
    let Ok(asked) = read_line(alloc, line, fields) else {
        return Err(ReplayFault::OutOfMemory);
    };
    let Ok(text) = answer_text(alloc, shaper, number, asked) else {
        return Err(ReplayFault::OutOfMemory);
    };
    match write_text(out, Source::History, text.as_slice()) {
        Ok(()) => Ok(Served {
            calls: asked.count(),
            bad: asked.bad_count(),
        }),
        Err(fault) => Err(fault),
    }
}

/// What a session came to after `so_far`, with this tail.
fn with_tail(so_far: Served, tail: &[u8]) -> Served
    requires { so_far.bad + 1 < 2 ^ 64 }
    ensures { result ≡ record { calls = so_far.calls; bad = so_far.bad + bad_tail tail.now } }
{
    match tail {
        [] => so_far,
        [_, ..] => Served {
            calls: so_far.calls,
            bad: so_far.bad + 1,
        },
    }
}

/// Writes the end of a session, and answers what it came to.
fn close<O: Outlet>(
    alloc: Global,
    number: u64,
    tail: &[u8],
    so_far: Served,
    out: &mut O,
) -> Result<Served, ReplayFault>
    requires few { so_far.bad + 1 < 2 ^ 64 }
    requires sound { O.has_failed out.old ≡ false }
    ensures ok { IfOk result (λ served. (served ≡ record { calls = so_far.calls; bad = so_far.bad + bad_tail tail.now })
        × Appends (O.contents out.old) (O.contents out.new) (text_of (tail_answer number tail.now ++ end_record so_far.calls ∷ []))) }
    ensures sound { IfOk result (λ _. O.has_failed out.new ≡ false) }
    ensures err { IfErr result (λ fault. IsUnwritten History (text_of (tail_answer number tail.now ++ end_record so_far.calls ∷ []))
        (O.contents out.old) (O.contents out.new) (O.has_failed out.new) fault) }
{
    let Ok(text) = closing_text(alloc, number, tail, so_far.calls) else {
        return Err(ReplayFault::OutOfMemory);
    };
    match write_text(out, Source::History, text.as_slice()) {
        Ok(()) => Ok(with_tail(so_far, tail)),
        Err(fault) => Err(fault),
    }
}

/// Serves a session by a shaper before its first call.
fn serve<I: Inlet, O: Outlet>(
    alloc: Global,
    shaper: &mut Shaper,
    input: &mut I,
    out: &mut O,
) -> Result<Served, ReplayFault>
    requires shaper { StandsAfter Ordered shaper.old [] }
    requires input { I.has_failed input.old ≡ false }
    requires out { O.has_failed out.old ≡ false }
    ensures ok { IfOk result (λ served. IsServedTyped (I.remaining input.old) (O.contents out.old) (O.contents out.new) served) }
    ensures inputs { IfOk result (λ _. I.has_failed input.new ≡ false) }
    ensures sound { IfOk result (λ _. O.has_failed out.new ≡ false) }
    ensures err { IfErr result (λ fault. IsBrokenOff (I.remaining input.old) (I.has_failed input.new)
        (O.contents out.old) (O.contents out.new) (O.has_failed out.new) fault) }
{
    match write_head(out) {
        Ok(()) => {}
        Err(fault) => return Err(fault),
    }
    let mut source = LineSource::new(alloc);
    let mut line = Vec::new(alloc);
    let mut fields = ByteRecord::new(alloc);
    let mut so_far = Served { calls: 0, bad: 0 };
    for number in 1..u64::MAX {
        match source.next(input, &mut line) {
            Ok(true) => {}
            Ok(false) => return close(alloc, number, line.as_slice(), so_far, out),
            Err(fault) => return Err(fault),
        }
        match serve_line(alloc, shaper, number, line.as_slice(), &mut fields, out) {
            Ok(made) => so_far = so_far.with(made),
            Err(fault) => return Err(fault),
        }
    }
    Err(ReplayFault::TooLong(Source::Input))
}

/// Serves a live session.
///
/// Each line of the input is a call, as the record that history files have (`c,CALLER,..`) or as a configuration line
/// (`pipe 1 config ..`), which is taken as a Configure of caller 0. The records of its entry are written in one write,
/// before the next line is read. What is written begins with the record `dummynet-live,1`, and ends with the count of the
/// calls. It is read as the history of the session, by the rule Ordered: `read_history`, `audit` and `audit_file` pass over
/// its remarks. A line that is no call is reported by a remark, `#,bad,LINE,FIELD,CAUSE`, and changes nothing. Empty lines
/// and those that begin with `#` get no reply. What follows the last line feed is no line, and gets a remark.
///
/// No history is kept: a session takes the memory that its shaper takes, and that of one line and one
/// answer. A line has at most 65,536 bytes. The fault is `TooLong(Input)` at a longer one, `Read(Input)` where a
/// read failed, `Write(History)` where a write failed, and `OutOfMemory` where memory was refused; the lines
/// before it are answered. No answer depends on the key, the secret of the flow table.
pub fn live<I: Inlet, O: Outlet>(
    alloc: Global,
    key: HashKey,
    input: &mut I,
    out: &mut O,
) -> Result<Served, ReplayFault>
    requires input { I.has_failed input.old ≡ false }
    requires out { O.has_failed out.old ≡ false }
    ensures ok { IfOk result (λ served. IsServed (I.remaining input.old) (O.contents out.old) (O.contents out.new) served) }

    // What was written is the transcript of a lawful history, and is read as that.
    ensures lawful { IfOk result (λ _. IsTranscript (O.contents out.old) (O.contents out.new)) }

    // No read and no write failed.
    ensures inputs { IfOk result (λ _. I.has_failed input.new ≡ false) }
    ensures sound { IfOk result (λ _. O.has_failed out.new ≡ false) }
    ensures err { IfErr result (λ fault. IsBrokenOff (I.remaining input.old) (I.has_failed input.new)
        (O.contents out.old) (O.contents out.new) (O.has_failed out.new) fault) }
{
    let mut shaper = Shaper::with_key(alloc, Rule::Ordered, key);
    let served = serve(alloc, &mut shaper, input, out);
    // The proof of a drop by a call has one step, where that of a drop at the end has one for each field.
    drop(shaper);
    served
}
