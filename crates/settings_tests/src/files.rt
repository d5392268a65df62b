//! Names and their places.

use linked_list_allocator::LocalHeap;
use settings::{NameFault, Places, name_files};
use std::alloc::{Allocator, Global};
use std::test::Fail;

const THREE: [&str; 3] = ["north.txt", "south.txt", "/var/lib/east west.txt"];

/// Names of the same file, and names that some systems take for the same.
const ALIKE: [&str; 6] = ["a", "./a", "A", "a ", "", "aa"];

/// Names, and the first place whose name is at an earlier place too.
const TWICE: [(&[&str], usize); 5] = [
    (&["a", "b", "a", "b"], 3),
    (&["a", "a"], 2),
    (&["a", "b", "c", "d", "d"], 5),
    (&["a", "b", "b", "a"], 3),
    (&["", "a", ""], 3),
];

/// Each two neighbours here are a name: these are more names than a small map has room for.
const LETTERS: &str = "abcdefghijklmnopqrstuvwxyz";

/// Whether these are the names in order with their places, and each name is found at its own.
fn are_placed<A: Allocator>(places: &Places<A>, names: &[&str]) -> bool {
    let mut next = 0;
    for (name, place) in places.iter() {
        if next >= names.len() || name.as_str() != names[next] || *place != next + 1 {
            return false;
        }
        if places.get(names[next]).copied() != Some(next + 1) {
            return false;
        }
        next += 1;
    }
    next == names.len()
}

/// Whether these names get their places.
fn names_all(alloc: Global, names: &[&str]) -> bool {
    match name_files(alloc, names) {
        Ok(places) => are_placed(&places, names),
        Err(_) => false,
    }
}

fn names_many(alloc: Global) -> Result<bool, Fail> {
    let mut names: Vec<&str> = Vec::new(alloc);
    for at in 0..25usize {
        names.push(LETTERS.get(at..at + 2).ok_or("two letters")?)?;
    }
    Ok(names_all(alloc, names.as_slice()))
}

/// The fault of these names.
fn fault_of<A: Allocator + Copy>(alloc: A, names: &[&str]) -> Option<NameFault> {
    name_files(alloc, names).err()
}

/// The first row with another result.
fn first_wrong(alloc: Global) -> Option<usize> {
    for (names, place) in TWICE {
        if fault_of(alloc, names) != Some(NameFault::Twice(place)) {
            return Some(place);
        }
    }
    None
}

/// Whether three names fit a heap of this size. An error where the result is neither, or where memory is not freed.
fn fits(alloc: Global, size: usize) -> Result<bool, Fail> {
    let heap = LocalHeap::new(alloc, size)?;
    let fault = fault_of(&heap, &THREE);
    if heap.used() != 0 {
        return Err(Fail::from("memory is not freed"));
    }
    match fault {
        None => Ok(true),
        Some(NameFault::NoMemory) => Ok(false),
        Some(NameFault::Twice(_)) => Err(Fail::from("no name is repeated")),
    }
}

/// The size of the least heap, in pieces of 16 bytes, that three names fit. They must fit every greater one.
fn least(alloc: Global) -> Result<Option<usize>, Fail> {
    let mut least = None;
    for pieces in 2..128usize {
        let fits = fits(alloc, pieces * 16)?;
        match least {
            None if fits => least = Some(pieces),
            Some(_) if !fits => return Err(Fail::from("a greater heap is too small")),
            _ => {}
        }
    }
    Ok(least)
}

/// Whether a repeated name is reported in every heap.
fn reported_without_memory(alloc: Global) -> Result<bool, Fail> {
    for pieces in 2..64usize {
        let heap = LocalHeap::new(alloc, pieces * 16)?;
        if fault_of(&heap, &["north.txt", "south.txt", "north.txt"]) != Some(NameFault::Twice(3)) {
            return Ok(false);
        }
    }
    Ok(true)
}

#[test]
fn places(rt: HostRuntime) -> Result<(), Fail> {
    let alloc = rt.alloc();
    let all = names_all(alloc, &[]) && names_all(alloc, &THREE) && names_all(alloc, &ALIKE);
    assert!(rt; all && names_many(alloc)?);
    Ok(())
}

#[test]
fn named_twice(rt: HostRuntime) {
    assert_eq!(rt; first_wrong(rt.alloc()), None);
}

#[test]
fn refused_growths(rt: HostRuntime) -> Result<(), Fail> {
    // The texts alone take 64 bytes, three entries of a text and a place 96.
    assert!(rt; least(rt.alloc())? >= Some(10));
    Ok(())
}

#[test]
fn named_twice_without_memory(rt: HostRuntime) -> Result<(), Fail> {
    assert!(rt; reported_without_memory(rt.alloc())?);
    Ok(())
}
