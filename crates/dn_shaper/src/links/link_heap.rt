ghost use Rattle.std.specs.Prelude.{◌≡◌, ◌+◌, ◌<◌, ◌≤◌, ◌^◌, ◌↔◌, [], ◌∷◌, length, Contains, IfSome, IfNone, IsSome, OnOk, IsPermutation};
ghost use Rattle.dn_heap.specs.Heap.{IsLeast};
ghost use Rattle.dn_shaper.specs.Refinement.NextStarts.{keys_at, next_start_cmp};

use crate::links::emptied::Emptied;
use crate::links::leaving::{drop_first, make_room, make_way};
use crate::links::next_start::NextStart;
use dn_heap::RunHeap;
use std::alloc::{AllocError, Global};
use std::marker::Model;

/// The next start of each link with a backlog, by a heap.
///
/// A link that a delete empties leaves its key in the heap, where it counts for nothing, so that a delete looks at no other
/// link's key. It counts again if the same key comes back. It goes when it would be the first.
#[derive(Drop)]
pub struct LinkHeap {
    /// The keys that count, and those that were left. The first one counts.
    heap: RunHeap<NextStart>,
    emptied: Emptied,
}

impl Model for LinkHeap {
    ghost use Rattle.dn_heap.specs.Heap.{Heap};
    ghost use Rattle.dn_shaper.specs.declared.links.next_start.NextStart.{NextStart};
    ghost use Rattle.dn_shaper.specs.Refinement.Emptied.{IsTidy, counted_heap};

    ghost Value = { Heap NextStart };

    ghost view = { λ h. counted_heap h.heap h.emptied };

    ghost invariant = { λ h. IsTidy h.heap h.emptied };
}

impl LinkHeap {
    /// An empty heap without room. It takes no memory.
    pub fn new(alloc: Global) -> LinkHeap
        ensures empty { result.keys ≡ [] }
        ensures no_moves { result.moves ≡ 0 }
    {
        LinkHeap {
            heap: RunHeap::new(alloc),
            emptied: Emptied::new(alloc),
        }
    }

    /// Makes room for `n` more pushes; room that is there already counts.
    pub fn reserve(&mut self, n: usize) -> Result<(), AllocError>
        ensures ok { OnOk result (n ≤ self.new.room) }
        ensures keeps_keys { self.new.keys ≡ self.old.keys }
        ensures keeps_moves { self.new.moves ≡ self.old.moves }
        ensures keeps_room { self.old.room ≤ self.new.room }
    {
        let places = self.heap.len().saturating_add(self.heap.room().max(n));
        self.emptied.extend(places)?;
        self.heap.reserve(n)
    }

    /// Puts a key in. It takes no memory.
    #[inline(always)]
    pub fn push_reserved(&mut self, key: NextStart)
        requires reserved { 0 < self.old.room }
        requires few { self.old.moves < 2 ^ 63 }
        ensures keys { IsPermutation (key ∷ self.old.keys) self.new.keys }
        ensures room { self.new.room + 1 ≡ self.old.room }
        ensures moves { self.new.moves ≤ self.old.moves + 1 }
    {
        if self.emptied.is_empty() {
            self.heap.push_reserved(key);
        } else {
            self.put(key);
        }
    }

    /// The same where links left keys.
    #[inline(never)]
    fn put(&mut self, key: NextStart)
        requires reserved { 0 < self.old.room }
        requires few { self.old.moves < 2 ^ 63 }
        ensures keys { IsPermutation (key ∷ self.old.keys) self.new.keys }
        ensures room { self.new.room + 1 ≡ self.old.room }
        ensures moves { self.new.moves ≤ self.old.moves + 1 }
    {
        if self.emptied.contains(&key) {
            self.emptied.forget(&key);
            return;
        }
        make_room(&mut self.heap, &mut self.emptied, &key);
        self.heap.push_reserved(key);
    }

    /// A least key, which stays in.
    pub fn peek(&self) -> Option<&NextStart>
        ensures some { IsSome result ↔ (0 < length self.now.keys) }
        ensures held { IfSome result (λ key. Contains self.now.keys key.now) }
        ensures least { IfSome result (λ key. IsLeast next_start_cmp key.now self.now.keys) }
    {
        match self.heap.peek() {
            Some(key) => Some(key),
            None => None,
        }
    }

    /// Takes a least key out and gives its room back.
    #[inline(always)]
    pub fn pop(&mut self) -> Option<NextStart>
        ensures some { IsSome result ↔ (0 < length self.old.keys) }
        ensures least { IfSome result (λ key. IsLeast next_start_cmp key self.old.keys) }
        ensures keys { IfSome result (λ key. IsPermutation self.old.keys (key ∷ self.new.keys)) }
        ensures room { IfSome result (λ key. self.new.room ≡ self.old.room + 1) }
        ensures keeps_moves { self.new.moves ≡ self.old.moves }
        ensures none { IfNone result (self.new ≡ self.old) }
    {
        let Some(first) = self.heap.pop() else {
            return None;
        };
        if !self.emptied.is_empty() {
            drop_first(&mut self.heap, &mut self.emptied);
        }
        Some(first)
    }

    /// A link is emptied, and its key counts no more. It gives its room back.
    pub fn leave(&mut self, key: NextStart)
        requires held { Contains self.old.keys key }
        requires once { keys_at key.place self.old.keys ≡ 1 }
        requires within { key.place < length self.old.keys + self.old.room }
        ensures keys { IsPermutation self.old.keys (key ∷ self.new.keys) }
        ensures room { self.new.room ≡ self.old.room + 1 }
        ensures keeps_moves { self.new.moves ≡ self.old.moves }
    {
        make_way(&mut self.heap, &mut self.emptied, key.place);
        self.emptied.note(key);
        drop_first(&mut self.heap, &mut self.emptied);
    }
}
