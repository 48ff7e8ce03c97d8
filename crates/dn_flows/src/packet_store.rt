ghost use Rattle.std.specs.Prelude.{◌≡◌, ◌≢◌, ℕ, ◌+◌, ◌<◌, ◌≤◌, Some, None, IsOk, OnOk, OnErr};
ghost use Rattle.std.specs.Option.{option_map};
ghost use Rattle.dn_flows.specs.Packets.{ContainsKey, HasRoomFor, Updates, get, with_next};

use crate::stored::Stored;
use std::alloc::{AllocError, Global};
use std::marker::Model;

/// The packets of all queues, each under a key.
///
/// The place that a packet left last is taken first, so the memory that is in use stays small and near.
///
/// A place has no mark of its own that tells whether a packet lies there, so a packet is made to name
/// the one behind it by a write alone, which waits for no read.
#[derive(Drop)]
pub struct PacketStore {
    places: Vec<Stored>,
    /// The keys of the places that packets left, of which the last is taken first.
    free: Vec<u32>,
    /// How many packets fit in all.
    capacity: usize,
}

impl Model for PacketStore {
    ghost use Rattle.std.specs.Prelude.{◌≤◌, ◌-◌, ◌^◌, length, vec_len, vec_capacity};
    ghost use Rattle.dn_flows.specs.Packets.{AreFree, Packets};

    ghost Value = { Packets };

    ghost view = { λ a. record { places = a.places.items; free = a.free.items; len = length a.places.items - length a.free.items; capacity = a.capacity } };

    ghost invariant = { λ a. AreFree a.free.items (length a.places.items) × (length a.free.items ≤ length a.places.items) × (length a.places.items ≤ a.capacity) × (a.capacity ≤ vec_capacity a.places) × (a.capacity ≤ vec_capacity a.free) × (a.capacity ≤ 2 ^ 32) };
}

impl PacketStore {
    /// The store without a packet. It takes no memory.
    pub fn new(alloc: Global) -> PacketStore
        ensures none { (key : ℕ) → get result key ≡ None }
        ensures len { result.len ≡ 0 }
        ensures capacity { result.capacity ≡ 0 }
    {
        PacketStore {
            places: Vec::new(alloc),
            free: Vec::new(alloc),
            capacity: 0,
        }
    }

    /// How many packets there are.
    fn len(&self) -> usize
        ensures { result ≡ self.now.len }
    {
        self.places.len() - self.free.len()
    }

    /// Makes room for `additional` more packets. There are never more than 2^32.
    #[inline(always)]
    pub fn reserve(&mut self, additional: usize) -> Result<(), AllocError>
        ensures room { OnOk result (HasRoomFor self.new additional) }
        ensures succeeds { HasRoomFor self.old additional → IsOk result }
        ensures capacity { self.old.capacity ≤ self.new.capacity }
        ensures rest_kept { self.new ≡ record self.old { capacity = self.new.capacity } }
    {
        if additional <= self.capacity - self.len() {
            return Ok(());
        }
        self.grow(additional)
    }

    /// Makes room for more packets than there is room for.
    #[inline(never)]
    fn grow(&mut self, additional: usize) -> Result<(), AllocError>
        requires { self.old.capacity < self.old.len + additional }
        ensures room { OnOk result (HasRoomFor self.new additional) }
        ensures capacity { self.old.capacity ≤ self.new.capacity }
        ensures rest_kept { self.new ≡ record self.old { capacity = self.new.capacity } }
    {
        let wanted = self.len().saturating_add(additional);
        if wanted > 1 << 32 {
            return Err(AllocError);
        }
        self.places.reserve(wanted - self.places.len())?;
        self.free.reserve(wanted - self.free.len())?;
        self.capacity = wanted;
        Ok(())
    }

    /// Puts a packet under a key that was free, in room that is there, and answers the key.
    pub fn insert_reserved(&mut self, stored: Stored) -> u32
        requires { HasRoomFor self.old 1 }
        ensures was_free { get self.old result ≡ None }
        ensures updates { Updates self.old self.new result (Some stored) }
        ensures len { self.new.len ≡ self.old.len + 1 }
        ensures capacity { self.new.capacity ≡ self.old.capacity }
    {
        if let Some(key) = self.free.pop() {
            self.places[key as usize] = stored;
            return key;
        }
        let key = self.places.len() as u32;
        self.places.push_reserved(stored);
        key
    }

    /// The packet that lies under the key.
    pub fn get(&self, key: u32) -> Stored
        requires { ContainsKey self.now key }
        ensures { get self.now key ≡ Some result }
    {
        self.places[key as usize]
    }

    /// Takes the packet out that lies under the key, which is free from then on.
    pub fn remove(&mut self, key: u32) -> Stored
        requires { ContainsKey self.old key }
        ensures value { get self.old key ≡ Some result }
        ensures updates { Updates self.old self.new key None }
        ensures len { self.new.len + 1 ≡ self.old.len }
        ensures capacity { self.new.capacity ≡ self.old.capacity }
    {
        self.free.push_reserved(key);
        self.places[key as usize]
    }

    /// The packet under the key names another as the next.
    pub fn name_next(&mut self, key: u32, next: u32)
        requires { ContainsKey self.old key }
        ensures named { get self.new key ≡ option_map (with_next next) (get self.old key) }
        ensures others { (other : ℕ) → other ≢ key → get self.new other ≡ get self.old other }
        ensures len { self.new.len ≡ self.old.len }
        ensures capacity { self.new.capacity ≡ self.old.capacity }
    {
        self.places[key as usize].name_next(next);
    }
}
