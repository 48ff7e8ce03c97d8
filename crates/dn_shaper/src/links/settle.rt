ghost use Rattle.std.specs.Prelude.{◌≡◌, ℕ, ◌+◌, ◌^◌, ◌<◌, ◌≤◌, All, true, false};
ghost use Rattle.dn_shaper.specs.Refinement.Settings.{settings_of};
ghost use Rattle.dn_shaper.specs.Refinement.Settling.{AreInStep, OnlyStarts, StartsFirst, HasNoStart, SettlesAll};

use crate::links::link_heap::LinkHeap;
use crate::links::next_start::NextStart;
use crate::links::parts::Parts;
use crate::links::start::start_next;
use crate::settings::configured::Configured;

/// Starts the packet that is next in time, where it starts by the moment.
fn settle_one(parts: &mut Parts, heap: &mut LinkHeap, configured: &Configured, at: u64) -> bool
    requires kept { AreInStep parts.old heap.old }
    requires early { at ≤ 2 ^ 62 }
    requires moves { heap.old.moves + parts.old.waiting ≤ 2 ^ 63 }
    ensures kept { AreInStep parts.new heap.new }
    ensures only { OnlyStarts parts.old heap.old parts.new heap.new }
    ensures fewer { result ≡ true → parts.new.waiting + 1 ≡ parts.old.waiting }
    ensures one { result ≡ true → StartsFirst (settings_of configured.now) at parts.old parts.new }
    ensures none { result ≡ false → HasNoStart (settings_of configured.now) at parts.new }
    ensures same { result ≡ false → parts.new ≡ parts.old }
{
    let Some(&top) = heap.peek() else {
        return false;
    };
    if at < top.moment {
        return false;
    }
    let NextStart { moment, place } = heap.pop().unwrap();
    let rates = configured.rates(parts.links[place].pipe);
    start_next(parts, place, moment, &rates);
    let link = &parts.links[place];
    if link.has_backlog(&parts.flows) {
        let moment = link.times.free();
        heap.push_reserved(NextStart { moment, place });
    }
    true
}

/// Whether the first of the links with a backlog is free by the moment.
#[inline(always)]
fn is_due(heap: &LinkHeap, at: u64) -> bool
    ensures late { result ≡ false → All (λ k. at < k.moment) heap.now.keys }
{
    match heap.peek() {
        Some(top) => top.moment <= at,
        None => false,
    }
}

/// Starts all packets that start up to the moment, in order of time, where one does.
fn settle_due(parts: &mut Parts, heap: &mut LinkHeap, configured: &Configured, at: u64)
    requires kept { AreInStep parts.old heap.old }
    requires early { at ≤ 2 ^ 62 }
    requires moves { heap.old.moves + parts.old.waiting ≤ 2 ^ 63 }
    ensures kept { AreInStep parts.new heap.new }
    ensures only { OnlyStarts parts.old heap.old parts.new heap.new }
    ensures settled { SettlesAll (settings_of configured.now) at parts.old parts.new }
{
    while settle_one(parts, heap, configured, at) {}
}

/// Starts all packets that start up to the moment, in order of time.
///
/// It costs the starts that are due, and not the links that there are. It is inlined, so that if none is due no call is
/// made.
#[inline(always)]
pub fn settle(parts: &mut Parts, heap: &mut LinkHeap, configured: &Configured, at: u64)
    requires kept { AreInStep parts.old heap.old }
    requires early { at ≤ 2 ^ 62 }
    requires moves { heap.old.moves + parts.old.waiting ≤ 2 ^ 63 }
    ensures kept { AreInStep parts.new heap.new }
    ensures only { OnlyStarts parts.old heap.old parts.new heap.new }
    ensures settled { SettlesAll (settings_of configured.now) at parts.old parts.new }
{
    if is_due(heap, at) {
        settle_due(parts, heap, configured, at);
    }
}
