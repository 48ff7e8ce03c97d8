use crate::bell::Bell;
use std::hint;
use std::sync::Wait;

/// How many turns a caller spins after each of its first tries, before it sleeps.
const SPINS: [u32; 4] = [256, 512, 1024, 2048];

fn spin(turns: u32) {
    for _ in 0..turns {
        hint::spin_loop();
    }
}

/// How a caller passes the time between its tries: it spins longer and longer, and then sleeps until a call has ended.
#[derive(Clone, Copy)]
pub(crate) struct Patience {
    spun: usize,
}

impl Patience {
    pub(crate) fn new() -> Patience {
        Patience { spun: 0 }
    }

    /// Passes the time after a try that found the book taken. The bell is raised before the try after which it sleeps.
    pub(crate) fn wait<R: Wait>(&mut self, rt: &R, bell: &Bell) {
        if let Some(turns) = SPINS.get(self.spun) {
            spin(*turns);
            self.spun += 1;
            if self.spun == SPINS.len() {
                bell.raise();
            }
        } else {
            bell.sleep(rt);
            self.spun = 0;
        }
    }
}
