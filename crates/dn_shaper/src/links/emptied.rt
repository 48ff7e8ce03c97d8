ghost use Rattle.std.specs.Prelude.{◌≡◌, ◌<◌, ◌≤◌, ◌^◌, ℕ, [], Some, None, true, length, slice_set, nat_eq, is_some, OnOk, OnErr};
ghost use Rattle.dn_shaper.specs.Refinement.Emptied.{is_left};
ghost use Rattle.dn_shaper.specs.Refinement.NextStarts.{backlogged, next_at};

use crate::links::next_start::NextStart;
use std::alloc::{AllocError, Global};
use std::marker::Model;

/// The moments of the keys that emptied links left in the heap, each at its link's place.
#[derive(Drop)]
pub struct Emptied {
    moments: Vec<Option<u64>>,
    /// How many there are.
    count: usize,
}

impl Model for Emptied {
    ghost use Rattle.std.specs.Prelude.{◌≡◌, ℕ, List, Option};
    ghost use Rattle.dn_shaper.specs.Refinement.NextStarts.{backlogged};

    ghost Value = { List (Option ℕ) };

    ghost view = { λ a. a.moments.items };

    ghost invariant = { λ a. a.count ≡ backlogged a.moments.items };
}

impl Emptied {
    /// No link left a key. It takes no memory.
    pub fn new(alloc: Global) -> Emptied
        ensures { result ≡ [] }
    {
        Emptied {
            moments: Vec::new(alloc),
            count: 0,
        }
    }

    /// Makes so many places at least.
    pub fn extend(&mut self, places: usize) -> Result<(), AllocError>
        ensures same { (place : ℕ) → next_at self.new place ≡ next_at self.old place }
        ensures count { backlogged self.new ≡ backlogged self.old }
        ensures longer { length self.old ≤ length self.new }
        ensures few { length self.new < 2 ^ 63 }
        ensures places { OnOk result (places ≤ length self.new) }
        ensures err { OnErr result (self.new ≡ self.old) }
    {
        if self.moments.len() < places {
            self.moments.resize(places, None)?;
        }
        Ok(())
    }

    /// Whether no link left a key.
    pub fn is_empty(&self) -> bool
        ensures { result ≡ nat_eq (backlogged self.now) 0 }
    {
        self.count == 0
    }

    /// Whether the link at the place left a key.
    pub fn has(&self, place: usize) -> bool
        ensures { result ≡ is_some (next_at self.now place) }
    {
        match self.moments.get(place) {
            Some(moment) => moment.is_some(),
            None => false,
        }
    }

    /// Whether the key is one that was left.
    pub fn contains(&self, key: &NextStart) -> bool
        ensures { result ≡ is_left self.now key.now }
    {
        match self.moments.get(key.place) {
            Some(Some(moment)) => *moment == key.moment,
            _ => false,
        }
    }

    /// Notes that a link left its key, where it left none before.
    pub fn note(&mut self, key: NextStart)
        requires place { key.place < length self.old }
        requires none { next_at self.old key.place ≡ None }
        ensures { self.new ≡ slice_set self.old key.place (Some key.moment) }
    {
        self.moments[key.place] = Some(key.moment);
        self.count += 1;
    }

    /// The key is none of those any more.
    pub fn forget(&mut self, key: &NextStart)
        requires left { is_left self.old key.now ≡ true }
        ensures { self.new ≡ slice_set self.old key.now.place None }
    {
        self.moments[key.place] = None;
        self.count -= 1;
    }

    /// Forgets all of them.
    pub fn clear(&mut self)
        ensures none { (place : ℕ) → next_at self.new place ≡ None }
        ensures places { length self.new ≡ length self.old }
        ensures count { backlogged self.new ≡ 0 }
    {
        self.moments.fill(None);
        self.count = 0;
    }
}
