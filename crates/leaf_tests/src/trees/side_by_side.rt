use crate::list::PrefixList;
use crate::trees::changed::{drop_value, raise};
use crate::trees::counted::{longest, removed, write};
use crate::trees::number::Number;
use base::TryCopy;
use identity::Prefix;
use prefix_tree::PrefixTree;
use std::alloc::Global;
use std::marker::Brand;
use std::sync::ledger::Blank;
use std::test::Fail;

type Tree = PrefixTree<Number, Global>;

type List = PrefixList<Number, Global>;

// A step of the script.
enum Step {
    Insert(Prefix, Number),
    Take(Prefix),
    Remove(Prefix),
    Replace(Prefix, Number),
    Write(Prefix, Number),
    Raise(Prefix, u64),
    DropValue(Prefix),
    Longest(u64),
}

// The step of a number: of few prefixes, of all kinds of length.
fn made(number: u64) -> Step {
    let lens = [0, 1, 2, 3, 17, 47, 48];
    let ids = [0, 0xffff_ffff_ffff, 0xaaaa_aaaa_aaaa, 0x8000_0000_0000, 1];
    let id = ids[(number >> 8) as usize % 5];
    let prefix = Prefix::of(id, lens[(number >> 16) as usize % 7]);
    match number % 10 {
        0..=2 => Step::Insert(prefix, Number(number)),
        3 => Step::Take(prefix),
        4 => Step::Remove(prefix),
        5 => Step::Replace(prefix, Number(number)),
        6 => Step::Write(prefix, Number(number)),
        7 => Step::Raise(prefix, number),
        8 => Step::DropValue(prefix),
        _ => Step::Longest(id),
    }
}

// Makes one step in both, and answers whether the two answer alike.
fn alike(tree: &mut Tree, list: &mut List, step: Step) -> bool {
    match step {
        Step::Insert(prefix, value) => match (
            tree.insert(prefix, value),
            list.insert(prefix, value),
        ) {
            (Ok(left), Ok(right)) => left == right,
            _ => false,
        },
        Step::Take(prefix) => tree.take(&prefix) == list.remove(&prefix),
        Step::Remove(prefix) => {
            removed::<Brand>(tree, &prefix, Blank::new(1)) == list.remove(&prefix)
        }
        Step::Write(prefix, value) => {
            write::<Brand>(tree, &prefix, value, Blank::new(1)) == list.replace(&prefix, value)
        }
        Step::Raise(prefix, more) => raise(tree, &prefix, more)
            == raise_in_list(list, &prefix, more),
        Step::DropValue(prefix) => drop_value(tree, &prefix) == list.remove(&prefix),
        Step::Replace(prefix, value) => tree.replace(&prefix, value)
            == list.replace(&prefix, value),
        Step::Longest(id) => {
            is_same(found_in_tree(tree, id), found_in_list(list, id))
                && is_same(
                    longest::<Brand>(tree, id, Blank::new(1)),
                    found_in_list(list, id),
                )
        }
    }
}

fn raise_in_list(list: &mut List, prefix: &Prefix, more: u64) -> Option<Number> {
    let before = list.get(prefix)?.0;
    list.replace(prefix, Number(before.wrapping_add(more)))
}

fn found_in_tree(tree: &Tree, id: u64) -> Option<(Prefix, Number)> {
    match tree.find_longest(id) {
        Some((prefix, number)) => Some((prefix, *number)),
        None => None,
    }
}

fn found_in_list(list: &List, id: u64) -> Option<(Prefix, Number)> {
    match list.longest(id) {
        Some((prefix, number)) => Some((prefix, *number)),
        None => None,
    }
}

fn is_same(left: Option<(Prefix, Number)>, right: Option<(Prefix, Number)>) -> bool {
    match (left, right) {
        (Some(one), Some(other)) => one.0.same(&other.0) && one.1 == other.1,
        (None, None) => true,
        _ => false,
    }
}

// Whether both have the same entries in the same order, and each is found.
fn same_entries(alloc: Global, tree: &Tree, list: &List) -> Result<bool, Fail> {
    let left = tree.walk(alloc)?;
    let right = list.entries(alloc)?;
    if left.len() != right.len() || right.len() != list.len() {
        return Ok(false);
    }
    for (one, other) in left.iter().zip(&right) {
        if !one.0.same(&other.0) || *one.1 != other.1 || tree.find(&one.0) != list.get(&other.0) {
            return Ok(false);
        }
    }
    Ok(true)
}

// Whether the lists of both have the same entries in the same order.
fn same_copies(alloc: Global, tree: &Tree, list: &List) -> Result<bool, Fail> {
    let (left, right) = (tree.entries(alloc)?, list.entries(alloc)?);
    if left.len() != right.len() {
        return Ok(false);
    }
    for (one, other) in left.iter().zip(&right) {
        if !one.0.same(&other.0) || one.1 != other.1 {
            return Ok(false);
        }
    }
    Ok(true)
}

/// The most entries that there were within so many steps. After each step both must have the same ones.
fn most_entries(
    alloc: Global,
    tree: &mut Tree,
    list: &mut List,
    steps: u32,
) -> Result<usize, Fail> {
    let (mut number, mut most) = (1u64, 0);
    for _ in 0..steps {
        number = number
            .wrapping_mul(6_364_136_223_846_793_005)
            .wrapping_add(1_442_695_040_888_963_407);
        if !alike(tree, list, made(number >> 33)) || !same_entries(alloc, tree, list)? {
            return Err(Fail::from("tree and list differ"));
        }
        most = most.max(list.len());
    }
    Ok(most)
}

fn same_in_copy(alloc: Global, tree: &Tree, list: &List) -> Result<bool, Fail> {
    let copy = tree.try_copy()?;
    Ok(same_entries(alloc, &copy, list)? && same_copies(alloc, &copy, list)?)
}

fn compared(alloc: Global) -> Result<bool, Fail> {
    let mut tree: Tree = PrefixTree::new_in(alloc);
    let mut list: List = PrefixList::new_in(alloc);
    let most = most_entries(alloc, &mut tree, &mut list, 2000)?;
    Ok(most > 8 && same_in_copy(alloc, &tree, &list)?)
}

#[test]
fn tree_and_list_answer_alike(rt: HostRuntime) -> Result<(), Fail> {
    assert!(rt; compared(rt.alloc())?);
    Ok(())
}
