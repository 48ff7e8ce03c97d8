ghost use Rattle.std.specs.Prelude.{◌≡◌, ℕ, Bool, List, [], Result, Err, OnOk, IfOk, IfErr, false};
ghost use Rattle.dn_types.specs.declared.call.Call.{Call as CallValue};
ghost use Rattle.dn_files.specs.Reading.{IsFaultOf};
ghost use Rattle.dn_files.specs.Writing.{NothingWritten};
ghost use Rattle.dn_files.specs.declared.replay_fault.ReplayFault.{ReplayFault as FaultValue};
ghost use Rattle.dn_replay.specs.Held.{has_entries};
ghost use Rattle.dn_replay.specs.OnePass.{AreFew, CanTake, HasTaken, HasTakenAll, IsFresh};
ghost use Rattle.dn_replay.specs.declared.replays.stage.Stage.TheVariants.{Refused as RefusedValue};
ghost use Rattle.dn_replay.specs.Feeding.{AnswersTaken, LeavesTaken, Taken, TakesConfig, TakesPart};

use crate::config::config_part::ConfigPart;
use crate::replays::pass::Pass;
use crate::report::Outcome;
use dn_files::ReplayFault;
use dn_records::Outlet;
use dn_types::Entry;
use std::alloc::{AllocError, Global};

/// Which part of a replay's text is read, and what has come of it beside packets.
#[derive(Drop)]
pub(crate) enum Stage {
    /// The configuration of a joined input.
    Config(ConfigPart),
    /// Packets.
    Packets,
    /// The text behind a configuration that was refused.
    ///
    /// Reading goes on, since a failed read and an input that is too long are reported before the fault.
    Refused(ReplayFault),
}

/// Makes the commands of a configuration, which has come whole, and takes the first bytes behind it.
///
/// The stage behind it is returned.
fn begin(config: &[u8], pass: &mut Pass, packets: &[u8]) -> Result<Stage, AllocError>
    requires { IsFresh pass.old }
    ensures { IfOk result (λ stage. TakesConfig config.now packets.now pass.old stage pass.new) }
{
    match pass.configure(config) {
        Ok(()) => {
            pass.feed(packets)?;
            Ok(Stage::Packets)
        }
        Err(fault) => Ok(Stage::Refused(fault)),
    }
}

impl Stage {
    /// Takes a part of the text, and returns the stage behind it.
    pub(crate) fn feed(self, pass: &mut Pass, part: &[u8]) -> Result<Stage, AllocError>
        requires { CanTake self pass.old }
        ensures taken { IfOk result (λ stage. TakesPart part.now self pass.old stage pass.new) }
        ensures refused { IfOk result (λ stage. (fault : FaultValue) → self ≡ RefusedValue fault → stage ≡ self) }
    {
        match self {
            Stage::Config(mut config) => match config.feed(part)? {
                Some(packets) => begin(config.lines.as_slice(), pass, packets),
                None => Ok(Stage::Config(config)),
            },
            Stage::Packets => {
                pass.feed(part)?;
                Ok(Stage::Packets)
            }
            Stage::Refused(fault) => Ok(Stage::Refused(fault)),
        }
    }

    /// Takes the end of the text: the commands of its configuration are made by then, or the fault is why not.
    fn end(self, pass: &mut Pass) -> Result<(), ReplayFault>
        requires { CanTake self pass.old }
        ensures ok { OnOk result (Taken self pass.old (λ records asked text. HasTakenAll records pass.new asked text)) }
        ensures err { IfErr result (λ fault. Taken self pass.old (λ records asked text. IsFaultOf (asked text) fault)) }
        ensures refused { (fault : FaultValue) → self ≡ RefusedValue fault → result ≡ Err fault }
    {
        match self {
            Stage::Config(mut config) => {
                let Ok(()) = config.finish() else {
                    return Err(ReplayFault::OutOfMemory);
                };
                pass.configure(config.lines.as_slice())
            }
            Stage::Packets => Ok(()),
            Stage::Refused(fault) => Err(fault),
        }
    }

    /// Takes the end of the text, and writes the report of what it asks for.
    ///
    /// The history is returned, which is empty if none is kept.
    pub(crate) fn finish<O: Outlet>(
        self,
        alloc: Global,
        pass: &mut Pass,
        out: &mut O,
    ) -> Result<(Vec<Entry>, Outcome), ReplayFault>
        requires taken { (records : Bool) × (asked : List ℕ → Result (List CallValue) FaultValue) × (text : List ℕ)
            × HasTaken self records pass.old asked text × AreFew (asked text) }
        requires sound { O.has_failed out.old ≡ false }
        ensures ok { IfOk result (λ both. AnswersTaken self pass.old both.0.items both.1.untargeted (O.contents out.old) (O.contents out.new)) }
        ensures unasked { IfOk result (λ both. has_entries pass.old.held ≡ false → both.0.items ≡ []) }
        ensures sound { IfOk result (λ _. O.has_failed out.new ≡ false) }
        ensures err { IfErr result (λ fault. LeavesTaken self pass.old (O.contents out.old) (O.contents out.new) (O.has_failed out.new) fault) }
        ensures refused { (fault : FaultValue) → self ≡ RefusedValue fault
            → (result ≡ Err fault) × NothingWritten (O.contents out.old) (O.contents out.new) (O.has_failed out.new) }
    {
        self.end(pass)?;
        pass.finish(alloc, out)
    }
}
