//! A long run of calls in no order, beside a heap that doesn't know where its keys are.
use crate::placed_key::Key;
use crate::pushes::{push, push_plain};
use dn_heap::{MinHeap, Numbered, PlacedHeap};
use std::alloc::AllocError;
use std::process::Abort;

const NUMBERS: usize = 60;

/// Both heaps tell the same.
fn check_same<R: Abort>(rt: &R, heap: &PlacedHeap<Key>, plain: &MinHeap<Key>) {
    assert!(rt; heap.len() == plain.len());
    assert!(rt; heap.moves() == plain.moves());
    assert!(rt; heap.room() == plain.room());
    assert!(rt; heap.peek().copied() == plain.peek().copied());
}

fn take<R: Abort>(rt: &R, heap: &mut PlacedHeap<Key>, plain: &mut MinHeap<Key>, number: usize) {
    if let Some(old) = heap.take_number(number) {
        assert!(rt; old.number() == number);
        assert!(rt; plain.take_out(&old));
    }
    assert!(rt; heap.get(number).is_none());
}

fn push_both<R: Abort>(rt: &R, heap: &mut PlacedHeap<Key>, plain: &mut MinHeap<Key>, key: Key) {
    take(rt, heap, plain, key.number());
    assert!(rt; push(heap, key));
    assert!(rt; push_plain(plain, key));
}

fn pop_both<R: Abort>(rt: &R, heap: &mut PlacedHeap<Key>, plain: &mut MinHeap<Key>) -> bool {
    let first = heap.pop();
    assert!(rt; first == plain.pop());
    first.is_some()
}

fn next(seed: u64) -> u64 {
    seed.wrapping_mul(6364136223846793005)
        .wrapping_add(1442695040888963407)
}

/// One call on both heaps: a push of a key, a removal by its number, or a pop.
fn step<R: Abort>(rt: &R, heap: &mut PlacedHeap<Key>, plain: &mut MinHeap<Key>, seed: u64) {
    let number = (seed >> 33) % NUMBERS as u64;
    let tag = (seed >> 40) % 1000;
    let key = Key {
        tag: tag as u32,
        number: number as u32,
    };
    match (seed >> 60) % 4 {
        0 | 1 => push_both(rt, heap, plain, key),
        2 => take(rt, heap, plain, key.number()),
        _ => {
            pop_both(rt, heap, plain);
        }
    }
    check_same(rt, heap, plain);
}

fn check_run<R: Abort>(rt: &R, heap: &mut PlacedHeap<Key>, plain: &mut MinHeap<Key>) {
    let mut seed = 7u64;
    for _ in 0..3000u64 {
        seed = next(seed);
        step(rt, heap, plain, seed);
    }
    for _ in 0..NUMBERS {
        pop_both(rt, heap, plain);
    }
    assert!(rt; !pop_both(rt, heap, plain));
}

fn check_both<R: Abort>(
    rt: &R,
    heap: &mut PlacedHeap<Key>,
    plain: &mut MinHeap<Key>,
) -> Result<(), AllocError> {
    heap.reserve_numbers(NUMBERS)?;
    plain.reserve(NUMBERS)?;
    check_run(rt, heap, plain);
    Ok(())
}

#[test]
fn as_a_heap_that_seeks(rt: HostRuntime) -> Result<(), AllocError> {
    let mut heap = PlacedHeap::new(rt.alloc());
    let mut plain = MinHeap::new(rt.alloc());
    let outcome = check_both(&rt, &mut heap, &mut plain);
    drop(plain);
    drop(heap);
    outcome
}
