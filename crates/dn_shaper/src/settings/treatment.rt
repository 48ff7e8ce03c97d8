ghost use Rattle.std.specs.Prelude.{◌≡◌};
ghost use Rattle.dn_types.specs.Flows.{key_of};
ghost use Rattle.dn_shaper.specs.Refinement.Submitting.{treatment_of};

use dn_flows::DropRule;
use dn_types::{FlowKey, Mask, Number, Packet, Target, Weight};

/// How packets to a target are treated.
///
/// It has the pipe that carries them, their weight, and the mask, the loss rate and the limit that judge them. Those to a
/// pipe have a link of their own for each flow.
#[derive(Clone, Copy, Debug, PartialEq, Eq)]
pub struct Treatment {
    pub target: Target,
    pub pipe: Number,
    pub weight: Weight,
    pub mask: Mask,
    pub drops: DropRule,
}

impl Treatment {
    /// The key of the flow of a packet.
    pub fn key(&self, packet: &Packet) -> FlowKey
        ensures { result ≡ key_of self.now.target packet.now.tuple (treatment_of self.now) }
    {
        FlowKey {
            target: self.target,
            pipe: self.pipe,
            mask: self.mask,
            tuple: self.mask.apply(&packet.tuple),
        }
    }
}
