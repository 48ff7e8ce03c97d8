ghost use Rattle.std.specs.Prelude.{◌≡◌, ◌+◌, [], length, IfOk, OnErr};
ghost use Rattle.dn_service.specs.Histories.{entry_of};
ghost use Rattle.dn_service.specs.Pasts.{Past, Keeps, IsCount, no_past, with_entry};
ghost use Rattle.dn_service.specs.Wakes.{IsWakeOf};

use crate::room::Room;
use dn_shaper::{HashKey, Shaper};
use dn_types::{Call, Entry, Reply, Rule};
use std::alloc::{AllocError, Global};
use std::marker::Model;
use std::mem;

/// What a book has in it.
#[derive(Drop)]
pub(crate) struct Pages {
    shaper: Shaper,
    history: Vec<Entry>,
    /// For the copy of each reply that the history keeps.
    room: Room,
    /// How many entries were taken out, up to 2^64 - 1.
    gone: u64,
}

/// The count with so many more.
fn count_on(count: u64, more: usize) -> u64
    ensures { IsCount (count + more) result }
{
    count.saturating_add(more as u64)
}

/// The shaper, with the history of all its calls except the entries that were taken out.
///
/// Contracts see the shaper and these entries. Its pages are in a block of their own, so that a book that changes hands is
/// a pointer.
#[derive(Drop)]
pub(crate) struct Book {
    pages: Box<Pages>,
}

impl Model for Book {
    ghost use Rattle.dn_service.specs.Pasts.{BookView};

    ghost Value = { BookView };

    ghost view = { λ b. record { shaper = b.pages.value.shaper; kept = b.pages.value.history.items; gone = b.pages.value.gone } };
}

impl Book {
    /// A new shaper, with no calls.
    pub(crate) fn new(alloc: Global, key: HashKey) -> Result<Book, AllocError>
        ensures { IfOk result (λ book. Keeps no_past book) }
    {
        let pages = Pages {
            shaper: Shaper::with_key(alloc, Rule::Ordered, key),
            history: Vec::new(alloc),
            room: Room::new(alloc),
            gone: 0,
        };
        Ok(Book {
            pages: Box::new(alloc, pages)?,
        })
    }

    /// Applies a caller's call to the shaper, and notes it with its reply.
    ///
    /// All room is taken before the shaper is touched, so that a refusal of memory leaves no trace.
    pub(crate) fn apply(&mut self, caller: usize, call: &Call) -> Result<Reply, AllocError>
        requires { (past : Past) × Keeps past self.old }
        ensures ok { IfOk result (λ reply. (past : Past) → Keeps past self.old → Keeps (with_entry past (entry_of caller call.now reply)) self.new) }
        ensures err { OnErr result ((past : Past) → Keeps past self.old → Keeps past self.new) }
    {
        let pages = &mut *self.pages;
        pages.history.reserve(1)?;
        pages.room.reserve(call, pages.shaper.reply_room())?;
        let reply = pages.shaper.apply(call)?;
        let copy = pages.room.copy_of(*pages.history.allocator(), &reply);
        pages.history.push_reserved(Entry {
            caller,
            call: *call,
            reply: copy,
        });
        Ok(reply)
    }

    /// Takes its entries out, into an empty list, whose memory is for the entries that come. It takes no memory.
    pub(crate) fn take(&mut self, list: &mut Vec<Entry>)
        requires { list.old.items ≡ [] }
        ensures entries { list.new.items ≡ self.old.kept }
        ensures book { (self.new.shaper ≡ self.old.shaper) × (self.new.kept ≡ []) }
        ensures gone { IsCount (self.old.gone + length self.old.kept) self.new.gone }
    {
        let pages = &mut *self.pages;
        pages.gone = count_on(pages.gone, pages.history.len());
        mem::swap(&mut pages.history, list);
    }

    /// How many calls were answered, up to 2^64 - 1.
    pub(crate) fn place(&self) -> u64
        ensures { IsCount (self.now.gone + length self.now.kept) result }
    {
        count_on(self.pages.gone, self.pages.history.len())
    }

    /// The moment of the next event of the shaper, as `Shaper::wake` reports it.
    pub(crate) fn wake(&self) -> Option<u64>
        ensures { (past : Past) → Keeps past self.now → IsWakeOf past.history result }
    {
        self.pages.shaper.wake()
    }

    pub(crate) fn into_history(self) -> Vec<Entry>
        ensures { result.items ≡ self.kept }
    {
        let Pages {
            shaper,
            history,
            room,
            gone: _,
        } = Box::into_inner(self.pages);
        // The proof of a drop by a call has one step, where that of a drop at the end has one for each field.
        drop(shaper);
        drop(room);
        history
    }
}
