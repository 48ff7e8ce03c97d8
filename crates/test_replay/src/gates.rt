use dn_replay::Gate;
use std::sync::atomic::{AtomicU64, Ordering};
use std::thread;

// A caller waits for another one at most so many turns.
const MOST_TURNS: u64 = 10_000_000;

// Whether the flag was seen set within the turns.
fn is_seen(flag: &AtomicU64) -> bool {
    for _ in 0..MOST_TURNS {
        if flag.load(Ordering::SeqCst) == 1 {
            return true;
        }
        thread::yield_now();
    }
    false
}

// Holds callers 0 and 1 before their first row until both have come, and counts those that saw the other.
#[derive(Drop)]
pub struct Meeting {
    pub zero: AtomicU64,
    pub one: AtomicU64,
    pub seen: AtomicU64,
}

impl Gate for Meeting {
    fn before(&self, caller: usize, turn: usize) {
        if turn != 0 || caller > 1 {
            return;
        }
        let (own, other) = if caller == 0 {
            (&self.zero, &self.one)
        } else {
            (&self.one, &self.zero)
        };
        own.store(1, Ordering::SeqCst);
        if is_seen(other) {
            self.seen.fetch_add(1, Ordering::SeqCst);
        }
    }

    fn after(&self, _caller: usize, _turn: usize) {}
}

// Holds caller 0 before its first row until caller 1's first row is answered.
#[derive(Drop)]
pub struct OneFirst {
    pub answered: AtomicU64,
}

impl Gate for OneFirst {
    fn before(&self, caller: usize, turn: usize) {
        if caller == 0 && turn == 0 {
            let _seen = is_seen(&self.answered);
        }
    }

    fn after(&self, caller: usize, turn: usize) {
        if caller == 1 && turn == 0 {
            self.answered.store(1, Ordering::SeqCst);
        }
    }
}

// Counts the calls of a gate, and the turns of caller 2.
#[derive(Drop)]
pub struct Count {
    pub before: AtomicU64,
    pub after: AtomicU64,
    pub last: AtomicU64,
}

impl Count {
    // The calls before and after a row, and the last turn of caller 2.
    pub fn counts(&self) -> [u64; 3] {
        [
            self.before.load(Ordering::SeqCst),
            self.after.load(Ordering::SeqCst),
            self.last.load(Ordering::SeqCst),
        ]
    }
}

impl Gate for Count {
    fn before(&self, caller: usize, turn: usize) {
        self.before.fetch_add(1, Ordering::SeqCst);
        if caller == 2 {
            self.last.store(turn as u64, Ordering::SeqCst);
        }
    }

    fn after(&self, _caller: usize, _turn: usize) {
        self.after.fetch_add(1, Ordering::SeqCst);
    }
}
