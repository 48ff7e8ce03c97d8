use crate::keys::{check_last, check_pops, check_told, push_all, reserved_again};
use crate::on_new::on_new;
use dn_heap::{MinHeap, RunHeap};
use std::alloc::{AllocError, Global};
use std::process::Abort;

fn first_due(alloc: Global) -> Result<Option<u64>, AllocError> {
    // In the README of dn_heap, 1:
    let mut due: MinHeap<u64> = MinHeap::new(alloc);
    due.reserve(2)?;
    due.push_reserved(90);
    due.push_reserved(30);
    let first = due.pop();
    // Up to here.
    Ok(first)
}

/// The same, twice more at most if memory was refused.
fn first_due_again(alloc: Global) -> Result<Option<u64>, AllocError> {
    for _ in 0..2u64 {
        if let Ok(first) = first_due(alloc) {
            return Ok(first);
        }
    }
    first_due(alloc)
}

#[test]
fn the_least_key_comes_first(rt: HostRuntime) {
    assert!(rt; first_due_again(rt.alloc()) == Ok(Some(30)));
}

fn check_parts<R: Abort>(rt: &R, heap: &mut MinHeap<u32>) -> Result<(), AllocError> {
    check_told(rt, heap, (None, 0, 0, 0));
    reserved_again(rt, heap, 3)?;
    push_all(heap, [5, 2, 9].as_slice());
    check_told(rt, heap, (Some(2), 3, 0, 3));
    check_last(rt, heap, [2, 5, 9].as_slice());
    check_told(rt, heap, (None, 0, 3, 3));
    Ok(())
}

/// One of equal keys is taken out.
fn check_equal<R: Abort>(rt: &R, heap: &mut MinHeap<u32>) -> Result<(), AllocError> {
    reserved_again(rt, heap, 2)?;
    push_all(heap, [7, 3].as_slice());
    check_told(rt, heap, (Some(3), 2, 0, 2));
    reserved_again(rt, heap, 3)?;
    push_all(heap, [7, 1].as_slice());
    assert!(rt; heap.take_out(&7));
    assert!(rt; !heap.take_out(&8));
    check_told(rt, heap, (Some(1), 3, 2, 4));
    check_pops(rt, heap, [1, 3, 7].as_slice());
    assert!(rt; heap.is_empty());
    Ok(())
}

/// What passes is retained.
fn check_passing<R: Abort>(rt: &R, heap: &mut MinHeap<u32>) -> Result<(), AllocError> {
    reserved_again(rt, heap, 5)?;
    push_all(heap, [8, 3, 4, 8, 5].as_slice());
    // Of two equal keys both are let go, and each key that is let go gives its room back.
    heap.retain(|key| *key != 8 && *key != 3);
    check_told(rt, heap, (Some(4), 2, 3, 5));
    push_all(heap, [6].as_slice());
    check_last(rt, heap, [4, 5, 6].as_slice());
    Ok(())
}

fn check_all_or_none<R: Abort>(rt: &R, heap: &mut MinHeap<u32>) -> Result<(), AllocError> {
    heap.retain(|_| false);
    check_told(rt, heap, (None, 0, 0, 0));
    reserved_again(rt, heap, 2)?;
    push_all(heap, [2, 1].as_slice());
    heap.retain(|_| true);
    check_told(rt, heap, (Some(1), 2, 0, 2));
    heap.retain(|_| false);
    check_told(rt, heap, (None, 0, 2, 2));
    Ok(())
}

/// Keys that come in order and keys that come out of it leave in one order.
fn check_keys<R: Abort>(rt: &R, heap: &mut RunHeap<u32>) -> Result<(), AllocError> {
    reserved_again(rt, heap, 4)?;
    push_all(heap, [10, 20, 15, 30].as_slice());
    reserved_again(rt, heap, 3)?;
    push_all(heap, [5, 20].as_slice());
    check_told(rt, heap, (Some(5), 6, 1, 6));
    check_pops(rt, heap, [5, 10, 15].as_slice());
    check_told(rt, heap, (Some(20), 3, 4, 6));
    push_all(heap, [25].as_slice());
    check_last(rt, heap, [20, 20, 25, 30].as_slice());
    check_told(rt, heap, (None, 0, 7, 7));
    Ok(())
}

fn check_retained<R: Abort>(rt: &R, heap: &mut RunHeap<u32>) -> Result<(), AllocError> {
    reserved_again(rt, heap, 5)?;
    push_all(heap, [2, 6, 4, 8, 6].as_slice());
    // One of the equal keys is in the run, the other in the heap beside it.
    heap.retain(|key| *key != 6);
    check_told(rt, heap, (Some(2), 3, 2, 5));
    heap.retain(|key| *key != 2);
    check_told(rt, heap, (Some(4), 2, 3, 5));
    check_last(rt, heap, [4, 8].as_slice());
    check_told(rt, heap, (None, 0, 5, 5));
    Ok(())
}

#[test]
fn a_heap(rt: HostRuntime) -> Result<(), AllocError> {
    let alloc = rt.alloc();
    on_new(MinHeap::new(alloc), |heap| check_parts(&rt, heap))?;
    on_new(MinHeap::new(alloc), |heap| check_equal(&rt, heap))?;
    on_new(MinHeap::new(alloc), |heap| check_passing(&rt, heap))?;
    on_new(MinHeap::new(alloc), |heap| check_all_or_none(&rt, heap))
}

#[test]
fn a_heap_with_a_run(rt: HostRuntime) -> Result<(), AllocError> {
    let alloc = rt.alloc();
    on_new(RunHeap::new(alloc), |heap| check_keys(&rt, heap))?;
    on_new(RunHeap::new(alloc), |heap| check_retained(&rt, heap))
}
