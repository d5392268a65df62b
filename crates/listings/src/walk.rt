//! The entries of a table one after another, each found by the place of the one before. It takes no memory.
ghost use Rattle.std.specs.Prelude.{◌≡◌, ◌<◌, ◌^◌, ◌&&◌, ℕ, Some, IfSome, nat_le, option_map};
ghost use Rattle.identity.specs.Path.{left_aligned};
ghost use Rattle.prefix_tree.specs.Next.{next_entry};
ghost use Rattle.registration.specs.Listed.{under_its_bits};
ghost use Rattle.mailbox.specs.Order.{next_item, next_due};
ghost use Rattle.listings.specs.Entries.{ItemEntry, rule_entry, radio_entry};
ghost use Rattle.listings.specs.declared.listing.Table.TheVariants.{WaitingAt};
ghost use Rattle.listings.specs.Inside.Walking.{AreIdentities, entry_after, entry_of, if_under, is_past, next_waiting, radio_after};

use crate::listing::Table;
use crate::waiting::first_waiting;
use centre_core::Register;
use centre_core::laws::registers;
use identity::{Itsi, Prefix};
use mailbox::{Item, Key, Mail, Moment};
use registration::{Radio, Registry, Rule, Station};
use std::alloc::Allocator;

/// Where an entry is in its table.
#[derive(Clone, Copy)]
pub(crate) enum TablePlace {
    Rule(Prefix),
    Radio(Itsi),
    Item(u64, Key),
}

/// An entry of a table.
#[derive(Drop)]
pub(crate) enum Entry<'r, B: Allocator> {
    Rule(Prefix, Rule),
    Radio(Itsi, Radio),
    Item(&'r Item<B>),
}

impl<'r, B: Allocator> Entry<'r, B> {
    ghost use Rattle.std.specs.Prelude.{◌≡◌};
    ghost use Rattle.listings.specs.Inside.Walking.{entry_of, place_of};

    /// Where it is in its table.
    pub(crate) fn place(&self) -> TablePlace
        ensures { result ≡ place_of (entry_of self.now) }
    {
        match self {
            Entry::Rule(prefix, _) => TablePlace::Rule(*prefix),
            Entry::Radio(itsi, _) => TablePlace::Radio(*itsi),
            Entry::Item(item) => TablePlace::Item(item.number(), item.key()),
        }
    }
}

/// The ITSI before the first one under a prefix; `None` if there is none before it.
fn before_prefix(prefix: &Prefix) -> Option<Itsi>
    ensures { (n : ℕ) → is_past result n ≡ nat_le (left_aligned prefix.now) n }
{
    let first = prefix.bits();
    if first == 0 {
        return None;
    }
    Itsi::from_number(first - 1)
}

/// The greater of two radios; `None` is less than each.
fn later(one: Option<Itsi>, other: Option<Itsi>) -> Option<Itsi>
    ensures past { (n : ℕ) → is_past result n ≡ (is_past one n && is_past other n) }
    ensures below { IfSome result (λ itsi. itsi < 2 ^ 48) }
    ensures one_below { IfSome one (λ itsi. itsi < 2 ^ 48) }
{
    let Some(first) = one else {
        return other;
    };
    let Some(second) = other else {
        return one;
    };
    if first.number() < second.number() {
        other
    } else {
        one
    }
}

fn if_under(prefix: &Prefix, radio: Option<(Itsi, Radio)>) -> Option<(Itsi, Radio)>
    ensures { option_map under_its_bits result ≡ if_under prefix.now (option_map under_its_bits radio) }
{
    let (itsi, found) = radio?;
    if prefix.begins(itsi.number()) {
        Some((itsi, found))
    } else {
        None
    }
}

/// The first radio under the prefix after this one, or from the first under it on.
fn radio_under<B: Allocator + Clone>(
    registry: &Registry<B>,
    prefix: &Prefix,
    after: Option<Itsi>,
) -> Option<(Itsi, Radio)>
    requires { AreIdentities registry.now.radios }
    ensures { option_map under_its_bits result ≡ radio_after registry.now (Some prefix.now) after }
{
    // A call of `len` shows the prover the range.
    let _len = prefix.len();
    if_under(
        prefix,
        registry.next_radio(later(after, before_prefix(prefix))),
    )
}

/// The first radio under the prefix, or of all for no prefix, after this one, or from the first on.
fn radio_after<B: Allocator + Clone>(
    registry: &Registry<B>,
    prefix: &Option<Prefix>,
    after: Option<Itsi>,
) -> Option<(Itsi, Radio)>
    requires { AreIdentities registry.now.radios }
    ensures { option_map under_its_bits result ≡ radio_after registry.now prefix.now after }
{
    match prefix {
        None => registry.next_radio(after),
        Some(prefix) => radio_under(registry, prefix, after),
    }
}

fn next_rule<B: Allocator + Clone>(
    registry: &Registry<B>,
    after: Option<Prefix>,
) -> Option<Entry<'_, B>>
    ensures { option_map entry_of result ≡ option_map rule_entry (next_entry registry.now.rules after) }
{
    let (prefix, rule) = registry.next_rule(after)?;
    Some(Entry::Rule(prefix, rule))
}

fn next_radio<'r, B: Allocator + Clone>(
    registry: &'r Registry<B>,
    prefix: &Option<Prefix>,
    after: Option<Itsi>,
) -> Option<Entry<'r, B>>
    requires { AreIdentities registry.now.radios }
    ensures { option_map entry_of result ≡ option_map radio_entry (radio_after registry.now prefix.now after) }
{
    let (itsi, radio) = radio_after(registry, prefix, after)?;
    // A call of `number` shows the prover the range.
    let _number = itsi.number();
    Some(Entry::Radio(itsi, radio))
}

fn next_item<B: Allocator>(mail: &Mail<B>, after: Option<(u64, Key)>) -> Option<Entry<'_, B>>
    ensures { option_map entry_of result ≡ option_map ItemEntry (next_item mail.now after) }
{
    Some(Entry::Item(mail.next(after)?))
}

fn next_due<B: Allocator>(
    mail: &Mail<B>,
    moment: Moment,
    after: Option<(u64, Key)>,
) -> Option<Entry<'_, B>>
    ensures { option_map entry_of result ≡ option_map ItemEntry (next_due mail.now moment after) }
{
    Some(Entry::Item(mail.next_due(moment, after)?))
}

fn next_waiting<'r, B: Allocator + Clone>(
    register: &'r Register<B>,
    station: Station,
    after: Option<(u64, Key)>,
) -> Option<Entry<'r, B>>
    ensures { option_map entry_of result ≡ option_map ItemEntry (next_waiting register.now station after) }
{
    let item = first_waiting(register.registry(), register.mail(), station, after)?;
    Some(Entry::Item(item))
}

/// The first item that waits at the station after a place, or the first of all.
fn waiting_after<'r, B: Allocator + Clone>(
    register: &'r Register<B>,
    station: Station,
    after: &Option<TablePlace>,
) -> Option<Entry<'r, B>>
    ensures { option_map entry_of result ≡ entry_after register.now (WaitingAt station) after.now }
{
    match after {
        None => next_waiting(register, station, None),
        Some(TablePlace::Item(number, key)) => next_waiting(
            register,
            station,
            Some((*number, *key)),
        ),
        Some(_) => None,
    }
}

/// The first entry of a table after a place, or the first of all. After a place of another table it is `None`.
pub(crate) fn entry_after<'r, B: Allocator + Clone>(
    register: &'r Register<B>,
    table: &Table,
    after: Option<TablePlace>,
) -> Option<Entry<'r, B>>
    ensures { option_map entry_of result ≡ entry_after register.now table.now after }
{
    registers(register);
    match table {
        Table::Rules => match &after {
            None => next_rule(register.registry(), None),
            Some(TablePlace::Rule(prefix)) => next_rule(register.registry(), Some(*prefix)),
            Some(_) => None,
        },
        Table::Radios(under) => match &after {
            None => next_radio(register.registry(), under, None),
            Some(TablePlace::Radio(itsi)) => next_radio(register.registry(), under, Some(*itsi)),
            Some(_) => None,
        },
        Table::Items => match &after {
            None => next_item(register.mail(), None),
            Some(TablePlace::Item(number, key)) => next_item(
                register.mail(),
                Some((*number, *key)),
            ),
            Some(_) => None,
        },
        Table::Due(moment) => match &after {
            None => next_due(register.mail(), *moment, None),
            Some(TablePlace::Item(number, key)) => {
                next_due(register.mail(), *moment, Some((*number, *key)))
            }
            Some(_) => None,
        },
        Table::WaitingAt(station) => waiting_after(register, *station, &after),
    }
}
