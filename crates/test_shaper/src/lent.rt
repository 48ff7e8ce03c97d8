//! A Collect in a list that is lent: the reply is the same whatever the list's room and items, and the list serves again.

use crate::example::{answers_step, is_wanted};
use crate::step::{collect, config, to_pipe};
use crate::wanted::{delivery, full, queued};
use dn_shaper::Shaper;
use dn_types::{Delivery, Moment, Reply};
use std::alloc::Global;
use std::io::Print;
use std::process::Abort;
use std::test::Fail;

// A link sends a packet of 1,000 bytes in 1 ms. The fourth packet finds the one place taken, until the second has started.
fn fill(rt: &(impl Abort + Print), alloc: Global, shaper: &mut Shaper) -> Result<(), Fail> {
    let steps = [
        config("pipe 1 config bw 8Mbit/s queue 1"),
        to_pipe(1, 0, queued(0, 0, 0)),
        to_pipe(1, 0, queued(0, 0, 1)),
        to_pipe(1, 0, full(0, 0)),
        to_pipe(1, 1_000_000, queued(1_000_000, 0, 2)),
    ];
    for (place, step) in steps.iter().enumerate() {
        answers_step(rt, alloc, shaper, place, step)?;
    }
    Ok(())
}

// The reply to a Collect in the list. Where it is refused, it is made again in another list.
fn reply_in(
    rt: &impl Print,
    alloc: Global,
    shaper: &mut Shaper,
    moment: Moment,
    lent: Vec<Delivery>,
) -> Result<Reply, Fail> {
    if let Ok(reply) = shaper.collect_lent(moment, lent) {
        return Ok(reply);
    }
    println!(rt; "a growth was refused")?;
    Ok(shaper.collect_lent(moment, Vec::new(alloc))?)
}

// A Collect at the moment gives these packets in the list, which is then taken back.
fn gives(
    rt: &(impl Abort + Print),
    alloc: Global,
    shaper: &mut Shaper,
    lent: Vec<Delivery>,
    at: u64,
    list: &[Delivery],
) -> Result<(), Fail> {
    let moment = Moment::new(at).ok_or("a moment")?;
    let reply = reply_in(rt, alloc, shaper, moment, lent)?;
    is_wanted(rt, alloc, 0, &reply, &collect(at, list))?;
    shaper.take_back(reply);
    Ok(())
}

// Two packets in the list, and one in the list that was taken back.
fn check(
    rt: &(impl Abort + Print),
    alloc: Global,
    shaper: &mut Shaper,
    lent: Vec<Delivery>,
) -> Result<(), Fail> {
    let first = [
        delivery(0, 0, 0, 1_000_000),
        delivery(1, 0, 1_000_000, 2_000_000),
    ];
    gives(rt, alloc, shaper, lent, 2_000_000, &first)?;
    let again = shaper.lend();
    assert!(rt; again.capacity() >= 2);
    let rest = [delivery(2, 0, 2_000_000, 3_000_000)];
    gives(rt, alloc, shaper, again, 3_000_000, &rest)
}

// A list with room for all that are held, and another packet in it.
fn roomy(alloc: Global, held: usize) -> Result<Vec<Delivery>, Fail> {
    let mut list = Vec::new(alloc);
    if list.reserve(held).is_err() {
        list.reserve(held)?;
    }
    list.push(delivery(7, 7, 7, 7))?;
    Ok(list)
}

fn check_with_room(
    rt: &(impl Abort + Print),
    alloc: Global,
    shaper: &mut Shaper,
) -> Result<(), Fail> {
    fill(rt, alloc, shaper)?;
    let list = roomy(alloc, shaper.held())?;
    check(rt, alloc, shaper, list)
}

fn check_without_room(
    rt: &(impl Abort + Print),
    alloc: Global,
    shaper: &mut Shaper,
) -> Result<(), Fail> {
    fill(rt, alloc, shaper)?;
    check(rt, alloc, shaper, Vec::new(alloc))
}

#[test]
fn a_list_with_room(rt: HostRuntime) -> Result<(), Fail> {
    let mut shaper = Shaper::new(rt.alloc());
    let held = check_with_room(&rt, rt.alloc(), &mut shaper);
    // The proof of a drop by a call has one step, where that of a drop at the end has one for each field.
    drop(shaper);
    held
}

#[test]
fn a_list_without_room(rt: HostRuntime) -> Result<(), Fail> {
    let mut shaper = Shaper::new(rt.alloc());
    let held = check_without_room(&rt, rt.alloc(), &mut shaper);
    // The proof of a drop by a call has one step, where that of a drop at the end has one for each field.
    drop(shaper);
    held
}
