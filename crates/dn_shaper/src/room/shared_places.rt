ghost use Rattle.std.specs.Prelude.{◌≡◌, ℕ, ◌<◌, [], Some, length, OnOk, OnErr};
ghost use Rattle.dn_shaper.specs.Refinement.Homing.{NotesFor, place_for};
ghost use Rattle.dn_shaper.specs.Refinement.Settings.{Sets, at_number};

use dn_types::{FlowKey, Number, Target};
use std::alloc::{AllocError, Global};
use std::marker::Model;

/// The place of the link that the queues on a pipe share, by the pipe's number.
///
/// One is found by a read at the number, so that no choice of numbers makes it dear.
#[derive(Drop)]
pub struct SharedPlaces {
    places: Vec<Option<u32>>,
}

impl Model for SharedPlaces {
    ghost use Rattle.std.specs.Prelude.{ℕ, List, Option};

    ghost Value = { List (Option ℕ) };

    ghost view = { λ a. a.places.items };
}

impl SharedPlaces {
    /// No link is shared yet. It takes no memory.
    pub fn new(alloc: Global) -> SharedPlaces
        ensures { result ≡ [] }
    {
        SharedPlaces {
            places: Vec::new(alloc),
        }
    }

    /// The place of the link that the queues on the pipe share, where they have one.
    fn get(&self, pipe: Number) -> Option<u32>
        ensures { result ≡ at_number self.now pipe }
    {
        match self.places.get(pipe.get() as usize) {
            Some(place) => *place,
            None => None,
        }
    }

    /// Makes a place for the number of the pipe, with none under it where it had none.
    fn extend(&mut self, pipe: Number) -> Result<(), AllocError>
        ensures same { (other : ℕ) → at_number self.new other ≡ at_number self.old other }
        ensures place { OnOk result (pipe < length self.new) }
        ensures err { OnErr result (self.new ≡ self.old) }
    {
        let wanted = pipe.get() as usize + 1;
        if self.places.len() < wanted {
            self.places.resize(wanted, None)?;
        }
        Ok(())
    }

    /// Notes the place of a pipe's shared link.
    fn insert(&mut self, pipe: Number, place: u32) -> Result<(), AllocError>
        ensures inserts { OnOk result (Sets pipe (Some place) self.old self.new) }
        ensures err { OnErr result (self.new ≡ self.old) }
    {
        self.extend(pipe)?;
        self.places[pipe.get() as usize] = Some(place);
        Ok(())
    }

    /// The place of the link that a flow with the key shares, if the key is a queue's and there is the link.
    pub fn place_for(&self, key: &FlowKey) -> Option<u32>
        ensures { result ≡ place_for key.now self.now }
    {
        match key.target {
            Target::Pipe(_) => None,
            Target::Queue(_) => self.get(key.pipe),
        }
    }

    /// Notes the place of the first link of a flow with the key, where queues share it.
    pub fn note(&mut self, key: &FlowKey, place: u32) -> Result<(), AllocError>
        ensures notes { OnOk result (NotesFor key.now.target key.now.pipe place self.old self.new) }
        ensures err { OnErr result (self.new ≡ self.old) }
    {
        match key.target {
            Target::Pipe(_) => Ok(()),
            Target::Queue(_) => self.insert(key.pipe, place),
        }
    }
}
