//! A push and a pop in one step.
ghost use Rattle.std.specs.Prelude.{◌≡◌, ◌+◌, ◌<◌, ◌^◌, ◌≢◌, [], ◌∷◌, length, true, false, All, IsPermutation};
ghost use Rattle.dn_heap.specs.Heap.{IsLeast};
ghost use Rattle.dn_heap.specs.Run.{Leads};

use crate::numbered::Numbered;
use crate::placed_heap::PlacedHeap;

impl<K: Ord + Copy + Numbered> PlacedHeap<K> {
    /// Puts a key in and takes a least one out, which counts as a push.
    ///
    /// It needs no room. If no key is less than this one, it is returned itself, and the heap isn't touched.
    #[inline(always)]
    pub fn push_pop(&mut self, key: K) -> K
        requires few { self.old.moves < 2 ^ 63 }
        requires numbered { K.number key < length self.old.keys + self.old.room }
        requires free { All (λ k. K.number k ≢ K.number key) self.old.keys }
        ensures least { IsLeast K.cmp result (key ∷ self.old.keys) }
        ensures keys { IsPermutation (key ∷ self.old.keys) (result ∷ self.new.keys) }
        ensures room { self.new.room ≡ self.old.room }
        ensures moves { self.new.moves ≡ self.old.moves + 1 }
    {
        if self.precedes(&key) {
            return self.exchange(key);
        }
        self.moves += 1;
        key
    }

    /// Whether a least key of the heap is less than this one.
    fn precedes(&self, key: &K) -> bool
        ensures some { result ≡ true → 0 < length self.now.keys }
        ensures heap { result ≡ true → Leads K.cmp self.now.keys (key.now ∷ []) }
        ensures key { result ≡ false → IsLeast K.cmp key.now self.now.keys }
    {
        match self.peek() {
            Some(top) => top.cmp(key).is_lt(),
            None => false,
        }
    }

    /// Takes a least key out and puts this one into the place that it left.
    #[inline(never)]
    fn exchange(&mut self, key: K) -> K
        requires some { 0 < length self.old.keys }
        requires few { self.old.moves < 2 ^ 63 }
        requires numbered { K.number key < length self.old.keys + self.old.room }
        requires free { All (λ k. K.number k ≢ K.number key) self.old.keys }
        ensures least { IsLeast K.cmp result self.old.keys }
        ensures keys { IsPermutation (key ∷ self.old.keys) (result ∷ self.new.keys) }
        ensures room { self.new.room ≡ self.old.room }
        ensures moves { self.new.moves ≡ self.old.moves + 1 }
    {
        let top = self.pop().unwrap();
        self.push_reserved(key);
        top
    }
}
