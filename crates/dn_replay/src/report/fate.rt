ghost use Rattle.std.specs.Prelude.{◌≡◌};
ghost use Rattle.dn_replay.specs.Kept.{fate_of, is_untargeted};

use crate::report::refusal::Refusal;
use dn_types::Reply;

/// What became of the packet of a row, by the reply to its Submit.
#[derive(Clone, Copy, Debug)]
pub(crate) enum Fate {
    /// The packet was accepted into the flow with this number, at the effective moment in nanoseconds.
    Accepted { flow: usize, at: u64 },
    Refused(Refusal),
}

impl Fate {
    /// What the reply to a Submit says of its packet.
    pub(crate) fn of(reply: &Reply) -> Fate
        ensures { result ≡ fate_of reply.now }
    {
        match reply {
            Reply::Queued { at, flow, .. } => Fate::Accepted {
                flow: *flow,
                at: *at,
            },
            Reply::Lost { at, flow } => Fate::Refused(Refusal::Lost {
                flow: *flow,
                at: *at,
            }),
            Reply::Full { at, flow } => Fate::Refused(Refusal::Full {
                flow: *flow,
                at: *at,
            }),
            Reply::NoTarget { at } => Fate::Refused(Refusal::NoTarget { at: *at }),
            _ => Fate::Refused(Refusal::Unanswered),
        }
    }

    pub(crate) fn is_untargeted(&self) -> bool
        ensures { result ≡ is_untargeted self.now }
    {
        match self {
            Fate::Accepted { .. } => false,
            Fate::Refused(why) => why.lacks_target(),
        }
    }
}
