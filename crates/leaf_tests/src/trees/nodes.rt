use crate::trees::counted::next;
use crate::trees::number::Number;
use identity::{Itsi, Prefix};
use prefix_tree::PrefixTree;
use std::alloc::Global;
use std::marker::Brand;
use std::sync::ledger::Blank;
use std::test::Fail;

type Tree = PrefixTree<Number, Global>;

// The first bits of a radio's identity in network 234-14.
fn first_bits(ssi: u32, len: u32) -> Result<Prefix, Fail> {
    let radio = Itsi::new(234, 14, ssi).ok_or("an identity")?;
    Ok(Prefix::of(radio.number(), len.min(48)))
}

// How many nodes there are once the prefix has a value, and 0 where it could not be set.
fn set(tree: &mut Tree, prefix: Prefix) -> usize {
    if tree.insert(prefix, Number(1)).is_err() {
        return 0;
    }
    tree.nodes()
}

// How many nodes an empty tree has, the same tree with a network, then with one and two of its radios, and
// once the first of them is taken out.
fn counts(tree: &mut Tree, network: Prefix, radio: Prefix, other: Prefix) -> [usize; 5] {
    let empty = tree.nodes();
    let one = set(tree, network);
    let two = set(tree, radio);
    let three = set(tree, other);
    tree.take(&radio);
    [empty, one, two, three, tree.nodes()]
}

fn are_counted(alloc: Global) -> Result<bool, Fail> {
    let network = first_bits(0, 24)?;
    let (radio, other) = (first_bits(2001, 48)?, first_bits(2002, 48)?);
    let mut tree = PrefixTree::new_in(alloc);
    Ok(counts(&mut tree, network, radio, other) == [1, 2, 3, 5, 3])
}

#[test]
fn nodes_are_where_prefixes_part(rt: HostRuntime) -> Result<(), Fail> {
    assert!(rt; are_counted(rt.alloc())?);
    Ok(())
}

const SET: [(u32, u32); 7] = [
    (2001, 48),
    (0, 24),
    (2002, 48),
    (0, 0),
    (2001, 44),
    (2000, 48),
    (0, 48),
];

const ORDERED: [(u32, u32); 7] = [
    (0, 0),
    (0, 24),
    (0, 48),
    (2001, 44),
    (2000, 48),
    (2001, 48),
    (2002, 48),
];

// Sets the prefixes, in another order than the tree's.
fn grow(tree: &mut Tree) -> Result<(), Fail> {
    for (ssi, len) in SET {
        set(tree, first_bits(ssi, len)?);
    }
    Ok(())
}

// Whether the entry after this prefix, or the first of all, is the wanted one.
fn is_next(tree: &Tree, after: Option<Prefix>, want: Option<Prefix>) -> bool {
    match (tree.next(after), want) {
        (Some((prefix, _)), Some(want)) => prefix.same(&want),
        (None, None) => true,
        _ => false,
    }
}

// As `is_next`, counted.
fn is_next_counted(tree: &Tree, after: Option<Prefix>, want: Option<Prefix>) -> bool {
    match (next::<Brand>(tree, after, Blank::new(1)), want) {
        (Some((prefix, _)), Some(want)) => prefix.same(&want),
        (None, None) => true,
        _ => false,
    }
}

// Whether the tree gives its prefixes one after another, and then none.
fn is_in_order(tree: &Tree) -> Result<bool, Fail> {
    let mut after = None;
    for (ssi, len) in ORDERED {
        let want = Some(first_bits(ssi, len)?);
        if !is_next(tree, after, want) || !is_next_counted(tree, after, want) {
            return Ok(false);
        }
        after = want;
    }
    Ok(is_next(tree, after, None))
}

// A prefix without an entry, and the entry after it.
const BETWEEN: [(u32, u32, u32, u32); 5] = [
    (0, 23, 0, 24),
    (0, 25, 0, 48),
    (1, 48, 2001, 44),
    (2001, 47, 2000, 48),
    (2000, 47, 2000, 48),
];

fn has_next(tree: &Tree) -> Result<bool, Fail> {
    for (ssi, len, next_ssi, next_len) in BETWEEN {
        let next = first_bits(next_ssi, next_len)?;
        if !is_next(tree, Some(first_bits(ssi, len)?), Some(next)) {
            return Ok(false);
        }
    }
    Ok(is_next(tree, Some(first_bits(2003, 48)?), None))
}

// Whether the entries come one after another, and whether one comes after each prefix that has no entry.
fn follow(alloc: Global) -> Result<[bool; 2], Fail> {
    let mut tree = PrefixTree::new_in(alloc);
    grow(&mut tree)?;
    Ok([is_in_order(&tree)?, has_next(&tree)?])
}

#[test]
fn an_entry_follows_each_prefix(rt: HostRuntime) -> Result<(), Fail> {
    assert!(rt; follow(rt.alloc())? == [true, true]);
    Ok(())
}
