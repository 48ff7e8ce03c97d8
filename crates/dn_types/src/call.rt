use crate::command::Command;
use crate::moment::Moment;
use crate::packet::Packet;
use crate::target::Target;

/// One call of the emulator. `Submit`, `Advance` and `Collect` are timed.
#[derive(Clone, Copy, Debug, PartialEq, Eq)]
pub enum Call {
    /// Configures or deletes a pipe or a queue.
    Configure(Command),
    /// Sends a packet to a pipe or a queue.
    Submit {
        target: Target,
        packet: Packet,
        moment: Moment,
    },
    /// Moves the clock.
    Advance(Moment),
    /// Moves the clock and takes the packets that are due.
    Collect(Moment),
    /// Asks for the state of all flows.
    Show,
}
