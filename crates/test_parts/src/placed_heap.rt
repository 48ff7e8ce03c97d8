use crate::on_new::on_new;
use crate::placed_key::Key;
use crate::pushes::{push, push_pop};
use dn_heap::PlacedHeap;
use std::alloc::AllocError;
use std::process::Abort;

fn key(tag: u32, number: u32) -> Key {
    Key { tag, number }
}

/// The least key, how many are in, for how many pushes there is room, and how many there have been.
fn check_told<R: Abort>(rt: &R, heap: &PlacedHeap<Key>, told: (Option<Key>, usize, usize, u64)) {
    assert!(rt; heap.peek().copied() == told.0);
    assert!(rt; heap.len() == told.1);
    assert!(rt; heap.is_empty() == (told.1 == 0));
    assert!(rt; heap.room() == told.2);
    assert!(rt; heap.moves() == told.3);
}

/// A place for each number, twice more at most if memory was refused.
fn reserve_again(heap: &mut PlacedHeap<Key>, numbers: usize) -> Result<(), AllocError> {
    for _ in 0..2u64 {
        if let Ok(()) = heap.reserve_numbers(numbers) {
            return Ok(());
        }
    }
    heap.reserve_numbers(numbers)
}

fn check_numbers<R: Abort>(rt: &R, heap: &mut PlacedHeap<Key>) -> Result<(), AllocError> {
    check_told(rt, heap, (None, 0, 0, 0));
    assert!(rt; !push(heap, key(5, 0)));
    // There are at most 2^32 numbers.
    assert!(rt; heap.reserve_numbers(4_294_967_297).is_err());
    check_told(rt, heap, (None, 0, 0, 0));
    reserve_again(heap, 4)?;
    check_told(rt, heap, (None, 0, 4, 0));
    assert!(rt; push(heap, key(5, 0)));
    assert!(rt; push(heap, key(2, 3)));
    assert!(rt; push(heap, key(9, 1)));
    check_told(rt, heap, (Some(key(2, 3)), 3, 1, 3));
    // A number that has a key, and one that has no place.
    assert!(rt; !push(heap, key(1, 3)));
    assert!(rt; !push(heap, key(1, 4)));
    assert!(rt; heap.get(1).copied() == Some(key(9, 1)));
    assert!(rt; heap.get(2).copied() == None);
    assert!(rt; heap.get(4).copied() == None);
    Ok(())
}

fn check_taken<R: Abort>(rt: &R, heap: &mut PlacedHeap<Key>) -> Result<(), AllocError> {
    assert!(rt; heap.take_number(2) == None);
    assert!(rt; heap.take_number(0) == Some(key(5, 0)));
    assert!(rt; heap.take_number(0) == None);
    check_told(rt, heap, (Some(key(2, 3)), 2, 2, 3));
    reserve_again(heap, 3)?;
    check_told(rt, heap, (Some(key(2, 3)), 2, 2, 3));
    reserve_again(heap, 5)?;
    check_told(rt, heap, (Some(key(2, 3)), 2, 3, 3));
    assert!(rt; heap.pop() == Some(key(2, 3)));
    assert!(rt; heap.pop() == Some(key(9, 1)));
    assert!(rt; heap.pop() == None);
    check_told(rt, heap, (None, 0, 5, 3));
    Ok(())
}

#[test]
fn a_key_leaves_by_its_number(rt: HostRuntime) -> Result<(), AllocError> {
    let mut heap = PlacedHeap::new(rt.alloc());
    let outcome = check_numbers(&rt, &mut heap).and_then(|()| check_taken(&rt, &mut heap));
    drop(heap);
    outcome
}

fn check_in_one_step<R: Abort>(rt: &R, heap: &mut PlacedHeap<Key>) -> Result<(), AllocError> {
    reserve_again(heap, 4)?;
    // Into an empty heap.
    assert!(rt; push_pop(heap, key(4, 2)) == Some(key(4, 2)));
    check_told(rt, heap, (None, 0, 4, 1));
    assert!(rt; push(heap, key(7, 0)));
    assert!(rt; push(heap, key(3, 1)));
    // A key that is less than all, one that isn't, and one whose number has a key.
    assert!(rt; push_pop(heap, key(2, 2)) == Some(key(2, 2)));
    check_told(rt, heap, (Some(key(3, 1)), 2, 2, 4));
    assert!(rt; push_pop(heap, key(5, 2)) == Some(key(3, 1)));
    check_told(rt, heap, (Some(key(5, 2)), 2, 2, 5));
    assert!(rt; push_pop(heap, key(1, 2)) == None);
    assert!(rt; heap.take_number(0) == Some(key(7, 0)));
    check_told(rt, heap, (Some(key(5, 2)), 1, 3, 5));
    Ok(())
}

#[test]
fn pushes_and_pops_in_one_step(rt: HostRuntime) -> Result<(), AllocError> {
    on_new(
        PlacedHeap::new(rt.alloc()),
        |heap| check_in_one_step(&rt, heap),
    )
}
