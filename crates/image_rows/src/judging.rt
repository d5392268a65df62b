// Whether a row may come next. No call allocates.
ghost use Rattle.std.specs.Prelude.{◌≡◌, ◌<◌, ◌&&◌, Bool, List, None, Option, Some, count_by, length, nat_lt, not, ℕ};
ghost use Rattle.std.specs.List.{list_all};
ghost use Rattle.std.specs.Ordering.{is_lt};
ghost use Rattle.std.specs.Option.{is_some};
ghost use Rattle.std.specs.FinMap as map;
ghost use Rattle.identity.specs.Path.{id_path};
ghost use Rattle.prefix_tree.specs.Next.{next_entry};
ghost use Rattle.mailbox.specs.Mail.{holds};
ghost use Rattle.mailbox.specs.Order.{named, named_cmp};
ghost use Rattle.mailbox.specs.Refusals.{most_for_one};
ghost use Rattle.mailbox.specs.Item.{is_to};
ghost use Rattle.image_rows.specs.Rows.{how_many};
ghost use Rattle.image_rows.specs.Loading.{before_place, header_may, mail_may, place_may, rule_may, served_may};
ghost use Rattle.image_rows.specs.Loading.{all_done, are_free, is_next, is_numbered, mail_done, radios_done, rules_done};
ghost use Rattle.image_rows.specs.Held.{IsHeld};

use crate::Header;
use crate::item::ReadItem;
use centre_core::{LAST_NUMBER, LastAccepted, Parts};
use identity::{Itsi, Prefix};
use mailbox::{Key, Mail};
use registration::{Limits, Radio, Registry, Station};
use std::alloc::Allocator;

/// Whether the header states no more rows than the limits allow, and no more commands than there are numbers.
pub fn header_may(limits: &Limits, header: &Header) -> bool
    ensures { result ≡ header_may limits.now header.now }
{
    header.count <= LAST_NUMBER
        && header.rules <= limits.rules
        && header.radios <= limits.radios
        && header.mail <= limits.mail
        && header.served <= limits.stations
}

fn rules_done<A: Allocator + Clone>(header: &Header, parts: &Parts<A>) -> bool
    ensures { result ≡ rules_done header.now parts.now }
{
    parts.registry.rule_count() == header.rules
}

fn radios_done<A: Allocator + Clone>(header: &Header, parts: &Parts<A>) -> bool
    ensures { result ≡ radios_done header.now parts.now }
{
    rules_done(header, parts) && parts.registry.radio_count() == header.radios
}

fn mail_done<A: Allocator + Clone>(header: &Header, parts: &Parts<A>) -> bool
    ensures { result ≡ mail_done header.now parts.now }
{
    radios_done(header, parts) && parts.mail.len() == header.mail as usize
}

fn how_many<A: Allocator>(served: &[Option<LastAccepted<A>>]) -> usize
    ensures { result ≡ how_many served.now }
{
    served.iter().filter(|last| last.is_some()).count()
}

/// Whether all rows that the header states have come.
pub fn all_done<A: Allocator + Clone>(header: &Header, parts: &Parts<A>) -> bool
    ensures { result ≡ all_done header.now parts.now }
{
    mail_done(header, parts) && how_many(&parts.served) == header.served as usize
}

fn is_numbered(count: u64, number: u64) -> bool
    ensures { result ≡ is_numbered count number }
{
    0 < number && number <= count
}

// Whether the prefix has a rule, where no later prefix has one.
fn has_rule<A: Allocator + Clone>(registry: &Registry<A>, prefix: &Prefix) -> bool
    requires { next_entry registry.now.rules (Some prefix.now) ≡ None }
    ensures { result ≡ is_some (map.get registry.now.rules prefix.now) }
{
    match registry.longest_rule(prefix.bits()) {
        Some((longest, _)) => longest.same(prefix),
        None => false,
    }
}

fn is_next_rule<A: Allocator + Clone>(registry: &Registry<A>, prefix: &Prefix) -> bool
    ensures { result ≡ is_next registry.now.rules prefix.now }
{
    registry.next_rule(Some(*prefix)).is_none() && !has_rule(registry, prefix)
}

fn is_next_radio<A: Allocator + Clone>(registry: &Registry<A>, itsi: Itsi) -> bool
    ensures { result ≡ is_next registry.now.radios (id_path itsi) }
{
    match registry.last_radio() {
        Some(last) => last.number() < itsi.number(),
        None => true,
    }
}

/// Whether a rule under this prefix may come.
pub fn rule_may<A: Allocator + Clone>(header: &Header, parts: &Parts<A>, prefix: &Prefix) -> bool
    ensures { result ≡ rule_may header.now parts.now prefix.now }
{
    parts.registry.rule_count() < header.rules && is_next_rule(&parts.registry, prefix)
}

/// Whether a radio may come, before its groups are checked.
pub fn place_may<A: Allocator + Clone>(
    header: &Header,
    parts: &Parts<A>,
    itsi: Itsi,
    radio: &Radio,
) -> bool
    ensures { result ≡ place_may header.now parts.now itsi radio.now }
{
    rules_done(header, parts)
        && parts.registry.radio_count() < header.radios
        && is_next_radio(&parts.registry, itsi)
        && 0 < radio.station.number()
        && u32::from(radio.station.number()) <= parts.registry.limits().stations
}

// Whether the item's number and key come after those of all waiting items.
fn comes_last<A: Allocator + Clone>(mail: &Mail<A>, item: &ReadItem<'_>) -> bool
    ensures { result ≡ list_all (λ o. is_lt (named_cmp (named o) (named item.now))) mail.now.items }
{
    mail.is_next(item.number(), &item.key())
}

// Whether no item has this key, and its destination has room for one more.
fn is_free<A: Allocator + Clone>(mail: &Mail<A>, key: &Key) -> bool
    requires { length mail.now.items < mail.now.room }
    ensures { result ≡ (not (holds mail.now key.now) && nat_lt (count_by (is_to key.now.destination) mail.now.items) most_for_one) }
{
    mail.restore_refusal(key).is_none()
}

// Whether an item with this number may come, by the numbers alone.
fn number_may<A: Allocator + Clone>(header: &Header, parts: &Parts<A>, number: u64) -> bool
    ensures { result ≡ (radios_done header.now parts.now && nat_lt (length parts.now.mail.items) header.now.mail && is_numbered parts.now.count number) }
{
    radios_done(header, parts)
        && parts.mail.len() < header.mail as usize
        && is_numbered(parts.count, number)
}

// Whether an item may come, before its key and the room for its destination are checked.
fn before_place<A: Allocator + Clone>(
    header: &Header,
    parts: &Parts<A>,
    item: &ReadItem<'_>,
) -> bool
    ensures { result ≡ before_place header.now parts.now item.now }
{
    number_may(header, parts, item.number()) && comes_last(&parts.mail, item)
}

/// Whether an item may come.
pub fn mail_may<A: Allocator + Clone>(
    header: &Header,
    parts: &Parts<A>,
    item: &ReadItem<'_>,
) -> bool
    requires { IsHeld header.now parts.now }
    ensures { result ≡ mail_may header.now parts.now item.now }
{
    item.facts_of_known();
    if !before_place(header, parts, item) {
        return false;
    }
    is_free(&parts.mail, &item.key())
}

// Whether none of these stations has an accepted command.
fn are_free<A: Allocator>(served: &[Option<LastAccepted<A>>]) -> bool
    ensures { result ≡ are_free served.now }
{
    served.iter().all(|last| last.is_none())
}

/// Whether a station's last accepted command may come, if it has this number.
pub fn served_may<A: Allocator + Clone>(
    header: &Header,
    parts: &Parts<A>,
    station: Station,
    number: u64,
) -> bool
    ensures { (sequence : ℕ) (pdu : Option (List Bool))
        → result ≡ served_may header.now parts.now station (record { sequence = sequence; number = number; pdu = pdu }) }
{
    mail_done(header, parts)
        && how_many(&parts.served) < header.served as usize
        && 0 < station.number()
        && usize::from(station.number()) <= parts.served.len()
        && are_free(&parts.served[usize::from(station.number()) - 1..])
        && is_numbered(parts.count, number)
}
