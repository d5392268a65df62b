ghost use Rattle.std.specs.Prelude.{◌≡◌, ◌<◌};

use crate::trees::number::Number;
use base::Steps;
use identity::Prefix;
use prefix_tree::PrefixTree;
use std::alloc::Global;
use std::sync::ledger::{Blank, Ledger};

type Tree = PrefixTree<Number, Global>;

/// Sets the value at a prefix that has one, through `get_mut`, and answers what `get` gave before.
pub fn write<L: Ledger>(
    tree: &mut Tree,
    prefix: &Prefix,
    value: Number,
    blank: Blank,
) -> Option<Number>
    requires name { blank.name ≡ L.name }
    requires parts { blank.parts ≡ L.parts }
    requires some { 0 < blank.parts }
{
    let mut steps = Steps::<L>::new(blank);
    let before = tree.get(prefix, &mut steps).copied();
    if let Some(place) = tree.get_mut(prefix, &mut steps) {
        *place = value;
    }
    before
}

/// As `remove`, counted by this ledger.
pub fn removed<L: Ledger>(tree: &mut Tree, prefix: &Prefix, blank: Blank) -> Option<Number>
    requires name { blank.name ≡ L.name }
    requires parts { blank.parts ≡ L.parts }
    requires some { 0 < blank.parts }
{
    let mut steps = Steps::<L>::new(blank);
    tree.remove(prefix, &mut steps)
}

/// As `longest`, counted by this ledger.
pub fn longest<L: Ledger>(tree: &Tree, identity: u64, blank: Blank) -> Option<(Prefix, Number)>
    requires name { blank.name ≡ L.name }
    requires parts { blank.parts ≡ L.parts }
    requires some { 0 < blank.parts }
{
    let mut steps = Steps::<L>::new(blank);
    match tree.longest(identity, &mut steps) {
        Some((prefix, number)) => Some((prefix, *number)),
        None => None,
    }
}

/// As `next_counted`, counted by this ledger.
pub fn next<L: Ledger>(tree: &Tree, after: Option<Prefix>, blank: Blank) -> Option<(Prefix, Number)>
    requires name { blank.name ≡ L.name }
    requires parts { blank.parts ≡ L.parts }
    requires some { 0 < blank.parts }
{
    let mut steps = Steps::<L>::new(blank);
    match tree.next_counted(after, &mut steps) {
        Some((prefix, number)) => Some((prefix, *number)),
        None => None,
    }
}
