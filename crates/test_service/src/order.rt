//! Four threads make calls, each behind the places that the others told it, and the history has them in the order of time.
ghost use Rattle.std.specs.Prelude.{◌≡◌};

use crate::calls::advance;
use dn_service::{Caller, Service};
use dn_types::{Call, Entry};
use std::process::Abort;
use std::sync::atomic::{AtomicU64, Ordering};
use std::sync::{Mutex, Wait};
use std::test::Fail;
use std::thread;

/// How many calls each thread makes.
const CALLS: u64 = 25_000;

/// What a thread noted of one of its calls. The moments are those of a count that all threads share.
#[derive(Clone, Copy, PartialEq, Eq, PartialOrd, Ord)]
struct Note {
    place: u64,
    /// How many calls it was told to come after.
    after: u64,
    caller: usize,
    call: u64,
    begun: u64,
    ended: u64,
}

/// What the threads share.
#[derive(Drop)]
struct Board {
    /// One more than the greatest place that a thread was given.
    told: u64,
    notes: Vec<Note>,
}

impl Board {
    /// Takes a note, and tells the others its place.
    fn note<R: Abort>(&mut self, rt: &R, note: Note) {
        self.told = self.told.max(note.place.wrapping_add(1));
        self.notes.push(note).expect(rt, "memory");
    }
}

/// Makes the calls in one thread, each after all that the board tells of.
fn call_on<R: Wait + Abort>(
    rt: &R,
    mut caller: Caller,
    board: &Mutex<Board>,
    time: &AtomicU64,
) -> Caller
    ensures { result.service ≡ caller.service }
{
    for call in 0..CALLS {
        let after = board.lock(rt).told;
        let begun = time.fetch_add(1, Ordering::SeqCst);
        let asked = advance(call).expect(rt, "a moment");
        let Ok(placed) = caller.call_after(rt, after, asked) else {
            panic!(rt; "a call was not answered")
        };
        let ended = time.fetch_add(1, Ordering::SeqCst);
        let note = Note {
            place: placed.place,
            after,
            caller: caller.number(),
            call,
            begun,
            ended,
        };
        board.lock(rt).note(rt, note);
    }
    caller
}

/// Whether the i-th note is of the i-th entry.
fn are_of(notes: &[Note], entries: &[Entry]) -> bool {
    let mut place = 0u64;
    for (note, entry) in notes.iter().zip(entries) {
        let is_called = matches!(&entry.call, Call::Advance(moment) if moment.get() == note.call);
        if note.place != place || note.caller != entry.caller || !is_called {
            return false;
        }
        place = place.wrapping_add(1);
    }
    notes.len() == entries.len()
}

/// Whether no call stands before one that had ended when it began, and each comes after what it was told of.
fn are_in_time(notes: &[Note]) -> bool {
    let mut latest = 0u64;
    for note in notes {
        if note.ended < latest || note.place < note.after {
            return false;
        }
        latest = latest.max(note.begun);
    }
    true
}

#[test]
fn calls_behind_places_stand_in_the_order_of_time(rt: HostRuntime) -> Result<(), Fail> {
    let (service, callers) = Service::open(rt.alloc(), 4)?;
    let board = Mutex::new(Board {
        told: 0,
        notes: Vec::new(rt.alloc()),
    });
    let time = AtomicU64::new(0);
    let back = thread::map_vec(&rt, callers, &|caller| call_on(&rt, caller, &board, &time))?;
    let Ok(closed) = service.close(back) else {
        panic!(rt; "not closed")
    };
    let mut notes = board.into_inner().notes;
    notes.sort()?;
    assert!(rt; closed.history.len() == 100_000);
    assert!(rt; are_of(notes.as_slice(), closed.history.as_slice()));
    assert!(rt; are_in_time(notes.as_slice()));
    Ok(())
}
