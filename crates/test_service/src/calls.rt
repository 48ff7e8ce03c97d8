//! The calls that the tests make, all about pipe 1, and the history that is left.
ghost use Rattle.std.specs.Prelude.{All};
ghost use Rattle.dn_service.specs.Callers.{IsOf, IsSameCaller};

use dn_service::{Caller, CloseFault, Service};
use dn_types::{
    Bandwidth, Call, Command, Delay, Entry, Limit, Loss, Moment, Number, Reply, Target,
};
use std::process::Abort;
use test_devices::{example_packet, no_bits};

/// `pipe 1 config bw 8Mbit/s`, where the bandwidth is 8,000,000: a packet of 1,000 bytes takes 1,000,000 ns.
pub(crate) fn pipe(bandwidth: u64) -> Option<Call> {
    Some(Call::Configure(Command::Pipe {
        number: Number::new(1)?,
        bw: Bandwidth::new(bandwidth)?,
        delay: Delay::new(0)?,
        limit: Limit::slots(50)?,
        loss: Loss::new(0)?,
        buckets: None,
        mask: no_bits(),
    }))
}

/// A packet of 1,000 bytes from 10.0.0.1 to 10.0.0.2, to pipe 1.
pub(crate) fn packet(moment: u64) -> Option<Call> {
    Some(Call::Submit {
        target: Target::Pipe(Number::new(1)?),
        packet: example_packet()?,
        moment: Moment::new(moment)?,
    })
}

pub(crate) fn advance(moment: u64) -> Option<Call> {
    Some(Call::Advance(Moment::new(moment)?))
}

pub(crate) fn collect(moment: u64) -> Option<Call> {
    Some(Call::Collect(Moment::new(moment)?))
}

/// Makes the call by one try, which has to be answered.
pub(crate) fn made<R: Abort>(rt: &R, caller: &mut Caller, call: Option<Call>) -> Reply
    ensures { IsSameCaller caller.old caller.new }
{
    let call = call.expect(rt, "a call in range");
    let Ok(reply) = caller.try_call(call) else {
        panic!(rt; "the call was not answered")
    };
    reply
}

/// The history of a service that is closed with all its callers.
pub(crate) fn history_of(service: Service, callers: Vec<Caller>) -> Result<Vec<Entry>, CloseFault>
    requires { All (IsOf service) callers.items }
{
    match service.close(callers) {
        Ok(closed) => Ok(closed.history),
        Err(back) => Err(back.fault),
    }
}
