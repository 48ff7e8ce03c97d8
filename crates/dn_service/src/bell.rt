use std::sync::Wait;
use std::sync::atomic::{AtomicU64, Ordering};

/// Where callers sleep until the book is given back. The word is 1 where one may sleep whom nobody is about to wake.
///
/// No wake is lost. A caller raises the bell, then finds the book taken, and sleeps only while the word is 1. Whoever had the
/// book rings after that and finds 1, or another one has put 0 there in the meantime and is about to wake a sleeper. One that
/// was woken raises the bell again before its next try, so with the book it takes over the duty to those who still sleep.
#[derive(Drop)]
pub(crate) struct Bell {
    word: AtomicU64,
}

impl Bell {
    pub(crate) fn new() -> Bell {
        Bell {
            word: AtomicU64::new(0),
        }
    }

    /// From now on whoever gives the book back wakes a sleeper.
    pub(crate) fn raise(&self) {
        if self.word.load(Ordering::SeqCst) == 0 {
            self.word.store(1, Ordering::SeqCst);
        }
    }

    /// Sleeps until a ring, if there was none since the bell was raised, and raises it again.
    pub(crate) fn sleep<R: Wait>(&self, rt: &R) {
        self.word.park(rt, 1);
        self.raise();
    }

    /// Wakes a sleeper, if one may be there. Else it costs one load.
    pub(crate) fn ring(&self) {
        if self.word.load(Ordering::SeqCst) != 0 && self.word.swap(0, Ordering::SeqCst) != 0 {
            self.word.wake_one();
        }
    }
}
