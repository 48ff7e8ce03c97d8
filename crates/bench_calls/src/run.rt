use crate::load::{Load, next, packet, pipe, queue};
use dn_shaper::Shaper;
use dn_types::{Call, Moment, Reply};

/// What a run came to: the packets that were accepted, the deliveries, and the times in ns.
#[derive(Clone, Copy)]
pub struct Run {
    pub queued: u64,
    pub delivered: u64,
    pub submitting: u128,
    pub collecting: u128,
}

impl Run {
    /// Nothing yet.
    pub fn new() -> Run {
        Run {
            queued: 0,
            delivered: 0,
            submitting: 0,
            collecting: 0,
        }
    }
}

/// Applies a call and counts what it was answered.
pub fn apply(shaper: &mut Shaper, call: Option<Call>, run: &mut Run) {
    let Some(call) = call else {
        return;
    };
    match shaper.apply(&call) {
        Ok(Reply::Queued { .. }) => run.queued = run.queued.wrapping_add(1),
        Ok(Reply::Delivered { list, .. }) => {
            run.delivered = run.delivered.wrapping_add(list.as_slice().len() as u64);
        }
        _ => {}
    }
}

/// Configures the pipe and its queues.
pub fn configure(shaper: &mut Shaper, load: &Load, run: &mut Run) {
    apply(shaper, pipe(load), run);
    for number in 1..load.queues.wrapping_add(1) {
        apply(shaper, queue(number), run);
    }
}

/// Submits so many packets, one at each interval from the moment on, and answers the next seed.
pub fn submit(
    shaper: &mut Shaper,
    load: &Load,
    packets: u64,
    from: u64,
    seed: u64,
    run: &mut Run,
) -> u64 {
    let mut seed = seed;
    for i in 0..packets {
        seed = next(seed);
        let moment = from.wrapping_add(i.wrapping_mul(load.interval));
        apply(shaper, packet(load, seed, moment), run);
    }
    seed
}

/// Collects what is due at the moment.
pub fn collect(shaper: &mut Shaper, moment: u64, run: &mut Run) {
    apply(shaper, Moment::new(moment).map(Call::Collect), run);
}
