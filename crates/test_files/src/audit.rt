use crate::histories::{entry, moment, number, one_caller, submit};
use dn_config::parse_line;
use dn_history::{Verdict, audit, audit_with_key};
use dn_shaper::HashKey;
use dn_types::{Call, Deliveries, Delivery, Entry, Reply, Rule, Target};
use std::alloc::Global;
use std::test::Fail;

fn queued(at: u64, packet: u64) -> Reply {
    Reply::Queued {
        at,
        flow: 0,
        packet,
    }
}

// Puts this reply into the place of an entry's own.
fn change(history: &mut [Entry], place: usize, reply: Reply) {
    if let Some(entry) = history.get_mut(place) {
        entry.reply = reply;
    }
}

// Whether the history of one caller differs in a place where this reply stands for its own.
fn differs(alloc: Global, place: usize, reply: Reply) -> Result<bool, Fail> {
    let mut history = one_caller(alloc)?;
    change(&mut history, place, reply);
    Ok(
        audit_with_key(alloc, HashKey(7), Rule::Ordered, history.as_slice())
            == Ok(Verdict::Differs(place)),
    )
}

#[test]
fn one_caller_history(rt: HostRuntime) -> Result<(), Fail> {
    let alloc = rt.alloc();
    let verdict = audit_with_key(
        alloc,
        HashKey(7),
        Rule::Ordered,
        one_caller(alloc)?.as_slice(),
    );
    assert!(rt; verdict == Ok(Verdict::Lawful));
    assert!(rt; differs(alloc, 1, queued(0, 1))?);
    assert!(rt; differs(alloc, 1, queued(u64::MAX, 0))?);
    assert!(rt; differs(alloc, 0, Reply::Exhausted)?);
    Ok(())
}

fn configure(line: &str) -> Result<Call, Fail> {
    let command = parse_line(line).ok().flatten().ok_or("a command")?;
    Ok(Call::Configure(command))
}

// A packet of 1,000 bytes to pipe 1, which takes 1 ms at 8 Mbit/s.
fn packet(at: u64) -> Result<Call, Fail> {
    submit(Target::Pipe(number(1)?), moment(at)?)
}

// The second packet overtakes the first, which has a delay of 50 ms.
fn overtaking(alloc: Global) -> Result<Vec<Entry>, Fail> {
    let delivery = Delivery {
        due: 3_000_000,
        packet: 1,
        flow: 0,
        start: 2_000_000,
    };
    let slow = configure("pipe 1 config bw 8Mbit/s delay 50")?;
    let fast = configure("pipe 1 config bw 8Mbit/s")?;
    let first = packet(0)?;
    let second = packet(2_000_000)?;
    let collect = Call::Collect(moment(3_000_000)?);
    let given = Reply::Delivered {
        at: 3_000_000,
        list: Deliveries::from_vec(Vec::from_slice(alloc, &[delivery])?),
    };
    let entries = [
        entry(slow, Reply::Configured),
        entry(first, queued(0, 0)),
        entry(fast, Reply::Configured),
        entry(second, queued(2_000_000, 1)),
        entry(collect, given),
    ];
    Ok(Vec::from_array(alloc, entries)?)
}

#[test]
fn rules_of_old_files(rt: HostRuntime) -> Result<(), Fail> {
    let alloc = rt.alloc();
    let history = overtaking(alloc)?;
    assert!(rt;
        audit_with_key(alloc, HashKey(7), Rule::Free, history.as_slice()) == Ok(Verdict::Lawful)
    );
    assert!(rt;
        audit_with_key(alloc, HashKey(7), Rule::Ordered, history.as_slice())
            == Ok(Verdict::Differs(4))
    );
    Ok(())
}

#[test]
fn the_empty_history_is_lawful(rt: HostRuntime) {
    for rule in [Rule::Free, Rule::Ordered] {
        assert!(rt; audit(rt.alloc(), rule, &[]) == Ok(Verdict::Lawful));
    }
}

#[test]
fn statuses_of_verdicts(rt: HostRuntime) {
    assert!(rt; Verdict::Lawful.status() == 0);
    assert!(rt; Verdict::Differs(4).status() == 1);
}
