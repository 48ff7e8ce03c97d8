ghost use Rattle.std.specs.Prelude.{◌≡◌, ◌≤◌, ◌<◌, ◌⊎◌, IfOk, IfErr, cond, false, nat_eq};
ghost use Rattle.dn_types.specs.declared.call.Call.TheVariants.{Submit};
ghost use Rattle.dn_types.specs.declared.target.Target.TheVariants.{Pipe, Queue};
ghost use Rattle.hingetulip_c.specs.Statuses.{answered};
ghost use Rattle.hingetulip_c.specs.Submits.{InRange, Faulty, submit_of};

use crate::records::CPacket;
use crate::status::{BAD_KIND, BAD_LENGTH, BAD_MOMENT, BAD_NUMBER, BAD_RESERVED};
use dn_types::{Call, FiveTuple, Len, Moment, Number, Packet, Target};

/// The pipe or the queue of this number.
fn target_of(kind: u8, number: u16) -> Result<Target, u32>
    ensures ok { IfOk result (λ target. (target ≡ cond (nat_eq kind 0) (Pipe number) (Queue number)) × (kind ≤ 1) × (1 ≤ number)) }
    ensures err { IfErr result (λ status. ((status ≡ 11) × (1 < kind)) ⊎ ((status ≡ 12) × (number ≡ 0))) }
{
    if kind > 1 {
        return Err(BAD_KIND);
    }
    let Some(number) = Number::new(u32::from(number)) else {
        return Err(BAD_NUMBER);
    };
    if kind == 0 {
        Ok(Target::Pipe(number))
    } else {
        Ok(Target::Queue(number))
    }
}

/// A packet, the pipe or the queue to which it is sent, and when.
#[derive(Clone, Copy)]
pub(crate) struct Sent {
    pub(crate) target: Target,
    pub(crate) packet: Packet,
    pub(crate) moment: Moment,
}

/// What C's packet says, or the status of the first of its numbers that is out of range.
pub(crate) fn sent_of(packet: &CPacket) -> Result<Sent, u32>
    ensures ok { IfOk result (λ sent. (Submit sent.target sent.packet sent.moment ≡ submit_of packet.now) × InRange packet.now) }
    ensures err { IfErr result (λ status. Faulty packet.now status) }
    ensures unanswered { IfErr result (λ status. answered status ≡ false) }
{
    let Some(moment) = Moment::new(packet.moment) else {
        return Err(BAD_MOMENT);
    };
    let target = match target_of(packet.kind, packet.number) {
        Ok(target) => target,
        Err(status) => return Err(status),
    };
    let Some(len) = Len::new(packet.length) else {
        return Err(BAD_LENGTH);
    };
    if packet.reserved != 0 {
        return Err(BAD_RESERVED);
    }
    let tuple = FiveTuple {
        src: packet.src,
        dst: packet.dst,
        proto: packet.proto,
        sport: packet.sport,
        dport: packet.dport,
    };
    let word = packet.word;
    let packet = Packet { tuple, len, word };
    Ok(Sent {
        target,
        packet,
        moment,
    })
}

/// The call that a packet makes, or the status of the first of its numbers that is out of range.
pub(crate) fn submit_of(packet: &CPacket) -> Result<Call, u32>
    ensures ok { IfOk result (λ call. (call ≡ submit_of packet.now) × InRange packet.now) }
    ensures err { IfErr result (λ status. Faulty packet.now status) }
    ensures unanswered { IfErr result (λ status. answered status ≡ false) }
{
    match sent_of(packet) {
        Err(status) => Err(status),
        Ok(
            Sent {
                target,
                packet,
                moment,
            },
        ) => Ok(Call::Submit {
            target,
            packet,
            moment,
        }),
    }
}
