//! A shaper through the trait that it keeps: a caller that knows it as an `Emulator` alone.

use crate::example::is_wanted;
use crate::step::{Step, collect, config, to_pipe};
use crate::wanted::{delivery, queued};
use dn_shaper::{Emulator, HashKey, Shaper};
use dn_types::Rule;
use std::alloc::Global;
use std::io::Print;
use std::process::Abort;
use std::test::Fail;

// After each step the emulator is to be asked at the moment that stands beside it, and its next reply has this room.
fn check_steps<E: Emulator>(
    rt: &(impl Abort + Print),
    alloc: Global,
    emulator: &mut E,
    steps: &[(Step<'_>, Option<u64>, usize)],
) -> Result<(), Fail> {
    for (place, (step, wake, room)) in steps.iter().enumerate() {
        let reply = emulator.apply(&step.asked.call()?)?;
        is_wanted(rt, alloc, place, &reply, step)?;
        assert!(rt; emulator.wake() == *wake);
        assert!(rt; emulator.reply_room() == *room);
    }
    Ok(())
}

// A packet of 1,000 bytes over 8 Mbit/s and 20 ms.
#[test]
fn a_packet_through_an_emulator(rt: HostRuntime) -> Result<(), Fail> {
    let given = [delivery(0, 0, 0, 21_000_000)];
    let steps = [
        (config("pipe 1 config bw 8Mbit/s delay 20"), None, 0),
        (to_pipe(1, 0, queued(0, 0, 0)), Some(21_000_000), 1),
        (collect(21_000_000, &given), None, 1),
    ];
    let mut shaper = Shaper::begin(rt.alloc(), Rule::Ordered, HashKey(7));
    let held = check_steps(&rt, rt.alloc(), &mut shaper, &steps);
    // The proof of a drop by a call has one step, where that of a drop at the end has one for each field.
    drop(shaper);
    held
}
