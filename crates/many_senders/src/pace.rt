use std::sync::{Condvar, Mutex, Wait};

/// How many rounds a sender may be ahead of the thread that writes, and that thread of the senders' mean.
const AHEAD: u32 = 100;

/// How many senders there are.
const SENDERS: u64 = 15;

/// How far the threads have come.
#[derive(Clone, Copy)]
struct Stage {
    /// All rounds before this one were written.
    written: u32,
    /// How many calls the senders have begun.
    begun: u64,
    /// A thread has ended early, so that the others end too.
    ended: bool,
}

/// The pace of all threads. They wait for one another, so that few entries are in memory.
#[derive(Drop)]
pub struct Pace {
    stage: Mutex<Stage>,
    moved: Condvar,
}

impl Pace {
    /// No call was made yet.
    pub fn new() -> Pace {
        Pace {
            stage: Mutex::new(Stage {
                written: 0,
                begun: 0,
                ended: false,
            }),
            moved: Condvar::new(),
        }
    }

    /// Waits until a sender's round isn't too far ahead. It reports whether to go on.
    pub fn wait<R: Wait>(&self, rt: &R, round: u32) -> bool {
        let mut stage = self.stage.lock(rt);
        stage.begun = stage.begun.saturating_add(1);
        self.moved.notify_all();
        let stage = self.moved.wait_while(rt, stage, |stage| {
            !stage.ended && round.saturating_sub(AHEAD) > stage.written
        });
        !stage.ended
    }

    /// All rounds before this one were written. It waits until that isn't too far ahead of the senders.
    pub fn advance<R: Wait>(&self, rt: &R, round: u32) {
        let least = u64::from(round.saturating_sub(AHEAD)).saturating_mul(SENDERS);
        let mut stage = self.stage.lock(rt);
        stage.written = round;
        self.moved.notify_all();
        let _near = self
            .moved
            .wait_while(rt, stage, |stage| !stage.ended && least > stage.begun);
    }

    /// All threads end early.
    pub fn end<R: Wait>(&self, rt: &R) {
        let mut stage = self.stage.lock(rt);
        stage.ended = true;
        self.moved.notify_all();
    }
}
