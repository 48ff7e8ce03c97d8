ghost use Rattle.std.specs.Prelude.{◌≡◌, ℕ, ◌-◌, ◌<◌, ◌++◌, ◌∷◌, [], cond, length, map, nat_eq, slice_get, take, vec_capacity, vec_items, OnOk, OnErr};
ghost use Rattle.dn_flows.specs.Members.{last_of, list_at};

use dn_types::Number;
use std::alloc::{AllocError, Global};
use std::marker::Model;

/// Lists of flow numbers, one for each number of a pipe or of a queue.
///
/// Contracts see a list of lists. There is one for each number up to the highest to which a flow was added.
#[derive(Drop)]
pub struct ByNumber {
    lists: Vec<Vec<usize>>,
    alloc: Global,
}

impl Model for ByNumber {
    ghost use Rattle.std.specs.Prelude.{ℕ, List, map, vec_items};

    ghost Value = { List (List ℕ) };

    ghost view = { λ a. map vec_items a.lists.items };
}

/// Adds empty lists, the last of them at the place.
fn add_lists(lists: &mut Vec<Vec<usize>>, alloc: Global, place: usize)
    requires { place < vec_capacity lists.old }
    ensures kept { (other : ℕ) → list_at (map vec_items lists.new.items) other ≡ list_at (map vec_items lists.old.items) other }
    ensures there { place < length lists.new.items }
{
    'empty: while lists.len() <= place {
        lists.push_reserved(Vec::new(alloc));
    }
}

impl ByNumber {
    /// No list. It takes no memory.
    pub fn new(alloc: Global) -> ByNumber
        ensures { result ≡ [] }
    {
        ByNumber {
            lists: Vec::new(alloc),
            alloc,
        }
    }

    /// Adds empty lists, so that there is one at the place.
    fn grow(&mut self, place: usize) -> Result<(), AllocError>
        requires { place < 65536 }
        ensures kept { (other : ℕ) → list_at self.new other ≡ list_at self.old other }
        ensures there { OnOk result (place < length self.new) }
    {
        if place < self.lists.len() {
            return Ok(());
        }
        self.lists.reserve(place + 1 - self.lists.len())?;
        add_lists(&mut self.lists, self.alloc, place);
        Ok(())
    }

    /// Adds the flow at the end of the list of the number.
    pub fn push(&mut self, number: Number, flow: usize) -> Result<(), AllocError>
        ensures ok { OnOk result ((other : ℕ) → list_at self.new other ≡ cond (nat_eq number other) (list_at self.old other ++ flow ∷ []) (list_at self.old other)) }
        ensures err { OnErr result ((other : ℕ) → list_at self.new other ≡ list_at self.old other) }
    {
        let place = number.get() as usize;
        self.grow(place)?;
        let list = &mut self.lists[place];
        list.reserve(1)?;
        list.push_reserved(flow);
        Ok(())
    }

    /// Takes the last flow out of the list of the number.
    pub fn pop(&mut self, number: Number)
        ensures { (other : ℕ) → list_at self.new other ≡ cond (nat_eq number other) (take (length (list_at self.old other) - 1) (list_at self.old other)) (list_at self.old other) }
    {
        let place = number.get() as usize;
        if self.lists.len() <= place {
            return;
        }
        let list = &mut self.lists[place];
        let _ = list.pop();
    }

    /// The last flow of the list of the number.
    pub fn last(&self, number: Number) -> Option<usize>
        ensures { result ≡ last_of (list_at self.now number) }
    {
        match self.lists.get(number.get() as usize) {
            Some(list) => list.last().copied(),
            None => None,
        }
    }

    /// The flow at a place of the list of the number.
    pub fn get(&self, number: Number, index: usize) -> Option<usize>
        ensures { result ≡ slice_get (list_at self.now number) index }
    {
        match self.lists.get(number.get() as usize) {
            Some(list) => list.get(index).copied(),
            None => None,
        }
    }
}
