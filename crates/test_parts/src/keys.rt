//! What the tests ask of both heaps.
use dn_heap::{MinHeap, RunHeap};
use std::alloc::AllocError;
use std::process::Abort;

/// A heap of numbers.
pub(crate) trait Keys {
    /// Its least key, its length, its room and its moves.
    fn told(&self) -> (Option<u32>, usize, usize, u64);

    /// Makes room for `n` pushes.
    fn make_room(&mut self, n: usize) -> Result<(), AllocError>;

    /// Pushes the key if there is room.
    fn add(&mut self, key: u32);

    /// Takes out the least key.
    fn take(&mut self) -> Option<u32>;
}

impl Keys for MinHeap<u32> {
    fn told(&self) -> (Option<u32>, usize, usize, u64) {
        let least = self.peek().copied();
        (least, self.len(), self.room(), self.moves())
    }

    fn make_room(&mut self, n: usize) -> Result<(), AllocError> {
        self.reserve(n)
    }

    fn add(&mut self, key: u32) {
        if self.room() > 0 && self.moves() < 100 {
            self.push_reserved(key);
        }
    }

    fn take(&mut self) -> Option<u32> {
        self.pop()
    }
}

impl Keys for RunHeap<u32> {
    fn told(&self) -> (Option<u32>, usize, usize, u64) {
        let least = self.peek().copied();
        (least, self.len(), self.room(), self.moves())
    }

    fn make_room(&mut self, n: usize) -> Result<(), AllocError> {
        self.reserve(n)
    }

    fn add(&mut self, key: u32) {
        if self.room() > 0 && self.moves() < 100 {
            self.push_reserved(key);
        }
    }

    fn take(&mut self) -> Option<u32> {
        self.pop()
    }
}

/// Makes room for `n` pushes, twice more at most if memory was refused, which changed nothing.
///
/// Run with each growth refused in turn, or each two in a row, the tests pass for every one.
pub(crate) fn reserved_again<R: Abort, H: Keys>(
    rt: &R,
    heap: &mut H,
    n: usize,
) -> Result<(), AllocError> {
    let before = heap.told();
    for _ in 0..2u64 {
        if heap.make_room(n).is_ok() {
            return Ok(());
        }
        assert!(rt; heap.told() == before);
    }
    heap.make_room(n)
}

/// The heap tells this of itself.
pub(crate) fn check_told<R: Abort, H: Keys>(
    rt: &R,
    heap: &H,
    told: (Option<u32>, usize, usize, u64),
) {
    assert!(rt; heap.told() == told);
}

/// Pushes the keys, as far as there is room.
pub(crate) fn push_all<H: Keys>(heap: &mut H, keys: &[u32]) {
    for key in keys {
        heap.add(*key);
    }
}

/// These keys leave next, and no other.
pub(crate) fn check_last<R: Abort, H: Keys>(rt: &R, heap: &mut H, keys: &[u32]) {
    check_pops(rt, heap, keys);
    assert!(rt; heap.take() == None);
}

/// These keys leave next.
pub(crate) fn check_pops<R: Abort, H: Keys>(rt: &R, heap: &mut H, keys: &[u32]) {
    for key in keys {
        assert!(rt; heap.take() == Some(*key));
    }
}
