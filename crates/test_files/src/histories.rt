use dn_types::{
    Bandwidth, Call, Command, Delay, Deliveries, Delivery, Entry, FiveTuple, FlowKey, FlowStatus,
    Limit, Loss, Mask, Moment, Number, Reply, Statuses, Target,
};
use std::alloc::{AllocError, Global};
use std::test::Fail;
use test_devices::{example_packet, no_bits, one_started};

pub fn number(value: u32) -> Result<Number, Fail> {
    Ok(Number::new(value).ok_or("a number")?)
}

// The command of `pipe 1 config bw 8Mbit/s`.
pub fn pipe_one() -> Option<Command> {
    Some(Command::Pipe {
        number: Number::new(1)?,
        bw: Bandwidth::new(8_000_000)?,
        delay: Delay::new(0)?,
        limit: Limit::slots(50)?,
        loss: Loss::new(0)?,
        buckets: None,
        mask: no_bits(),
    })
}

// A Submit of the packet of 1,000 bytes that the worked examples send.
pub fn submit(target: Target, moment: Moment) -> Result<Call, Fail> {
    let packet = example_packet().ok_or("a length")?;
    Ok(Call::Submit {
        target,
        packet,
        moment,
    })
}

pub fn moment(value: u64) -> Result<Moment, Fail> {
    Ok(Moment::new(value).ok_or("a moment")?)
}

// A list of these. What is refused memory is tried twice more, so that a call under test is made all the same.
fn list_of<T: Drop, const N: usize>(alloc: Global, items: [T; N]) -> Result<Vec<T>, AllocError> {
    let items = match Vec::from_array(alloc, items) {
        Ok(list) => return Ok(list),
        Err(refused) => refused.value,
    };
    match Vec::from_array(alloc, items) {
        Ok(list) => Ok(list),
        Err(refused) => Ok(Vec::from_array(alloc, refused.value)?),
    }
}

fn delivered(alloc: Global) -> Result<Reply, AllocError> {
    let delivery = Delivery {
        due: 1_000_000,
        packet: 0,
        flow: 0,
        start: 0,
    };
    let items = list_of(alloc, [delivery])?;
    Ok(Reply::Delivered {
        at: 1_000_000,
        list: Deliveries::from_vec(items),
    })
}

fn status(alloc: Global) -> Result<Reply, Fail> {
    // The prover asks that a body that moves a state into a list names the types in it.
    let _key: Option<FlowKey> = None;
    let _target: Option<Target> = None;
    let items = list_of(alloc, [one_started().ok_or("a state")?])?;
    Ok(Reply::Status {
        list: Statuses::from_vec(items),
    })
}

pub fn entry(call: Call, reply: Reply) -> Entry {
    Entry {
        caller: 0,
        call,
        reply,
    }
}

// The history of one caller that configures pipe 1, submits a packet, collects it and asks for the flows.
pub fn one_caller(alloc: Global) -> Result<Vec<Entry>, Fail> {
    let queued = Reply::Queued {
        at: 0,
        flow: 0,
        packet: 0,
    };
    let pipe = Call::Configure(pipe_one().ok_or("the values are in range")?);
    let packet = submit(Target::Pipe(number(1)?), moment(0)?)?;
    let collect = Call::Collect(moment(1_000_000)?);
    let delivered = delivered(alloc)?;
    let status = status(alloc)?;
    let entries = [
        entry(pipe, Reply::Configured),
        entry(packet, queued),
        entry(collect, delivered),
        entry(Call::Show, status),
    ];
    Ok(list_of(alloc, entries)?)
}
