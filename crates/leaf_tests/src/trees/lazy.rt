//! A map that is made for its first value and freed with the last.

use crate::trees::number::Number;
use base::TryCopy;
use identity::Prefix;
use linked_list_allocator::LocalHeap;
use prefix_tree::LazyMap;
use std::test::Fail;

type Map<'h> = LazyMap<Number, &'h LocalHeap>;

// An identity, another one, and a prefix that begins both.
const ONE: (u64, u32) = (0x6000_0000_0004, 48);

const OTHER: (u64, u32) = (0x6000_0000_0005, 48);

const SHORT: (u64, u32) = (0x6000_0000_0000, 24);

fn at(place: (u64, u32)) -> Prefix {
    Prefix::of(place.0, place.1.min(48))
}

// The value there; 0 where there is none.
fn value(map: &Map, place: (u64, u32)) -> u64 {
    map.find(&at(place)).map_or(0, |number| number.0)
}

fn values(map: &Map) -> [u64; 3] {
    [value(map, ONE), value(map, OTHER), value(map, SHORT)]
}

// Sets the value there, and answers the one before, 0 where there was none; nothing where memory runs out.
fn set<'h>(map: &mut Map<'h>, heap: &'h LocalHeap, place: (u64, u32), number: u64) -> Option<u64> {
    let before = map.insert(&heap, at(place), Number(number)).ok()?;
    Some(before.map_or(0, |number| number.0))
}

// Adds ten to the value there, and answers the one before, 0 where there was none.
fn raise(map: &mut Map, place: (u64, u32)) -> u64 {
    let raised = map.change(&at(place), |before| {
        (before.0, Some(Number(before.0.wrapping_add(10))))
    });
    raised.unwrap_or(0)
}

// Drops the value there, and answers it, 0 where there was none.
fn drop_value(map: &mut Map, place: (u64, u32)) -> u64 {
    map.change(&at(place), |before| (before.0, None))
        .unwrap_or(0)
}

fn taken(map: &mut Map, place: (u64, u32)) -> u64 {
    map.take(&at(place)).map_or(0, |number| number.0)
}

fn is_set<'h>(map: &mut Map<'h>, heap: &'h LocalHeap) -> bool {
    set(map, heap, ONE, 1) == Some(0)
        && set(map, heap, SHORT, 2) == Some(0)
        && set(map, heap, ONE, 3) == Some(1)
        && values(map) == [3, 0, 2]
}

fn is_changed(map: &mut Map) -> bool {
    raise(map, ONE) == 3
        && raise(map, OTHER) == 0
        && values(map) == [13, 0, 2]
        && drop_value(map, SHORT) == 2
        && drop_value(map, SHORT) == 0
        && values(map) == [13, 0, 0]
}

fn is_copied(map: &Map, empty: usize, heap: &LocalHeap) -> bool {
    let used = heap.used();
    match map.try_copy() {
        Ok(copy) => values(&copy) == values(map) && heap.used() > used && used > empty,
        Err(_) => false,
    }
}

fn is_kept(heap: &LocalHeap) -> bool {
    let empty = heap.used();
    let mut map = LazyMap::new();
    let begun = values(&map) == [0, 0, 0] && taken(&mut map, ONE) == 0 && heap.used() == empty;
    let kept = is_set(&mut map, heap) && is_changed(&mut map) && is_copied(&map, empty, heap);
    let gone = taken(&mut map, OTHER) == 0 && taken(&mut map, ONE) == 13 && heap.used() == empty;
    begun && kept && gone && set(&mut map, heap, OTHER, 4) == Some(0)
}

#[test]
fn values_are_set_changed_and_taken(rt: HostRuntime) -> Result<(), Fail> {
    let heap = LocalHeap::new(rt.alloc(), 4096)?;
    let empty = heap.used();
    assert!(rt; is_kept(&heap) && heap.used() == empty);
    Ok(())
}

// How many values are set under identities from 0 upward, until one is refused.
fn filled<'h>(map: &mut Map<'h>, heap: &'h LocalHeap) -> u64 {
    for number in 0..4096u64 {
        let used = heap.used();
        if set(map, heap, (number, 48), number.wrapping_add(1)).is_none() {
            return if heap.used() == used { number } else { 0 };
        }
    }
    0
}

// Whether so many values are as they were set, and there are no more.
fn are_there(map: &Map, count: u64) -> bool {
    (0..count).all(|number| value(map, (number, 48)) == number.wrapping_add(1))
        && value(map, (count, 48)) == 0
}

// Whether so many values are changed and dropped in a heap that has no room for another one.
fn needs_nothing<'h>(map: &mut Map<'h>, heap: &'h LocalHeap, count: u64) -> bool {
    let used = heap.used();
    let mut all = set(map, heap, (0, 48), 1) == Some(1);
    for number in 0..count {
        all = raise(map, (number, 48)) == number.wrapping_add(1) && all;
    }
    all = all && heap.used() == used;
    for number in 0..count {
        all = drop_value(map, (number, 48)) == number.wrapping_add(11) && all;
    }
    all
}

fn is_full(heap: &LocalHeap) -> bool {
    let empty = heap.used();
    let mut map = LazyMap::new();
    let count = filled(&mut map, heap);
    let there = count > 0 && are_there(&map, count) && map.try_copy().is_err();
    there && needs_nothing(&mut map, heap, count) && heap.used() == empty
}

#[test]
fn a_full_heap_takes_changes_and_no_value(rt: HostRuntime) -> Result<(), Fail> {
    let heap = LocalHeap::new(rt.alloc(), 4096)?;
    let empty = heap.used();
    assert!(rt; is_full(&heap) && heap.used() == empty);
    Ok(())
}
