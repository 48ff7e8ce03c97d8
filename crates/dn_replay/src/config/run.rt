ghost use Rattle.std.specs.Prelude.{◌≡◌, List, [], ◌∷◌, Some, Ok, OnOk, IfErr};
ghost use Rattle.dn_types.specs.declared.call.Call.{Call as CallValue};
ghost use Rattle.dn_types.specs.declared.call.Call.TheVariants.{Configure};
ghost use Rattle.dn_replay.specs.Rows.{submit};
ghost use Rattle.dn_replay.specs.Configuring.{applied, configured_by, refusal};
ghost use Rattle.dn_files.specs.Reading.{IsFaultOf};
ghost use Rattle.dn_replay.specs.Runs.{HasMade, AddsEntry};

use dn_config::Lines;
use dn_files::{ReplayFault, Row, command_at};
use dn_shaper::{HashKey, Shaper};
use dn_types::{Call, Command, Entry, Reply, Rule};
use std::alloc::{AllocError, Global};
use std::mem;

/// The calls of one caller to a shaper of its own, and their history.
#[derive(Drop)]
pub(crate) struct Run {
    pub(crate) key: HashKey,
    pub(crate) shaper: Shaper,
    pub(crate) history: Vec<Entry>,
}

/// The Submit of a row's packet.
pub(crate) fn submit(row: &Row) -> Call
    ensures { result ≡ submit row.now }
{
    Call::Submit {
        target: row.target,
        packet: row.packet,
        moment: row.moment,
    }
}

/// Why the command of a line is refused, by its reply.
fn refusal(line: usize, reply: &Reply) -> Option<ReplayFault>
    ensures { result ≡ refusal line reply.now }
{
    match reply {
        Reply::NoSuchPipe => Some(ReplayFault::NoSuchPipe(line)),
        Reply::PipeHasQueues => Some(ReplayFault::PipeHasQueues(line)),
        Reply::NoSuchQueue => Some(ReplayFault::NoSuchQueue(line)),
        Reply::Configured
        | Reply::Deleted
        | Reply::Queued { .. }
        | Reply::Lost { .. }
        | Reply::Full { .. }
        | Reply::NoTarget { .. }
        | Reply::Advanced { .. }
        | Reply::Delivered { .. }
        | Reply::Status { .. }
        | Reply::Exhausted => None,
    }
}

impl Run {
    /// A run without a call.
    #[tactic(auto, unfolding(crate::specs::Runs::history_of))]
    pub(crate) fn new(alloc: Global, key: HashKey) -> Run
        ensures { HasMade result [] }
    {
        Run {
            key,
            shaper: Shaper::with_key(alloc, Rule::Ordered, key),
            history: Vec::new(alloc),
        }
    }

    /// Adds the entry of a call that the shaper has answered.
    pub(crate) fn add_entry(&mut self, call: Call, reply: Reply) -> Result<(), AllocError>
        ensures { OnOk result (AddsEntry call reply self.old self.new) }
    {
        let entry = Entry {
            caller: 0,
            call,
            reply,
        };
        self.history.push(entry)?;
        Ok(())
    }

    /// Makes a call.
    pub(crate) fn make(&mut self, call: Call) -> Result<(), AllocError>
        ensures { OnOk result ((calls : List CallValue) → HasMade self.old calls → HasMade self.new (call ∷ calls)) }
    {
        let reply = self.shaper.apply(&call)?;
        self.add_entry(call, reply)
    }

    /// Makes the command of a line, or answers why it is refused.
    fn make_command(&mut self, line: usize, command: Command) -> Result<(), ReplayFault>
        ensures ok { OnOk result ((calls : List CallValue) → HasMade self.old calls →
            (applied line calls (Some command) ≡ Ok (Configure command ∷ calls)) × HasMade self.new (Configure command ∷ calls)) }
        ensures err { IfErr result (λ fault. (calls : List CallValue) → HasMade self.old calls →
            IsFaultOf (applied line calls (Some command)) fault) }
    {
        let call = Call::Configure(command);
        let Ok(reply) = self.shaper.apply(&call) else {
            return Err(ReplayFault::OutOfMemory);
        };
        match refusal(line, &reply) {
            Some(fault) => return Err(fault),
            None => {}
        }
        let Ok(()) = self.add_entry(call, reply) else {
            return Err(ReplayFault::OutOfMemory);
        };
        Ok(())
    }

    /// Makes the command of a line, if it has one.
    fn apply_line(&mut self, line: usize, command: Option<Command>) -> Result<(), ReplayFault>
        ensures ok { OnOk result ((calls : List CallValue) → HasMade self.old calls →
            (after : List CallValue) × (applied line calls command ≡ Ok after) × HasMade self.new after) }
        ensures err { IfErr result (λ fault. (calls : List CallValue) → HasMade self.old calls →
            IsFaultOf (applied line calls command) fault) }
    {
        match command {
            Some(command) => self.make_command(line, command),
            None => Ok(()),
        }
    }

    /// Makes the commands of a configuration's text before the first call.
    ///
    /// Each is made before the next line is read: a refused command is reported before the fault of a later line.
    /// `read_config` of dn_files has a loop of its own, which reads all lines and asks for none to be accepted.
    pub(crate) fn configure(&mut self, text: &[u8]) -> Result<(), ReplayFault>
        requires { HasMade self.old [] }
        ensures ok { OnOk result ((calls : List CallValue) × (configured_by text.now ≡ Ok calls) × HasMade self.new calls) }
        ensures err { IfErr result (λ fault. IsFaultOf (configured_by text.now) fault) }
    {
        let mut lines = Lines::new(text);
        loop {
            let number = lines.number;
            let Some((line, rest)) = lines.next() else {
                return Ok(());
            };
            // Where a loop of this crate reads, a `match` stands for `?`: the proof names its arms, and here
            // the check makes no plan for `?`.
            let command = match command_at(number, line) {
                Ok(command) => command,
                Err(fault) => return Err(fault),
            };
            match self.apply_line(number, command) {
                Ok(()) => lines = rest,
                Err(fault) => return Err(fault),
            }
        }
    }

    /// The history so far, which leaves the run none.
    pub(crate) fn take_history(&mut self, alloc: Global) -> Vec<Entry>
        ensures { result.items ≡ self.old.history.items }
    {
        mem::replace(&mut self.history, Vec::new(alloc))
    }
}
