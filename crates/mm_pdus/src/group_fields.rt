//! The groups that an element of a PDU names.

ghost use Rattle.std.specs.Prelude.{◌≡◌, ◌≤◌, ◌<◌, ◌^◌, ◌+◌, ◌++◌, Bool, List, Result, length, nat_lt, OnOk, IfErr};
ghost use Rattle.std.specs.List.{flat_map, AllByRecursion};
ghost use Rattle.mm_pdus.specs.declared.fault.MmFault.{MmFault};
ghost use Rattle.mm_pdus.specs.declared.fault.MmFault.TheVariants.{NoMemory};
ghost use Rattle.mm_pdus.specs.Values.{most_groups};
ghost use Rattle.mm_pdus.specs.Reading.{with_rest, giving, Gives, WantsMemory, made_element};
ghost use Rattle.mm_pdus.specs.Syntax.{element, extension};
ghost use Rattle.mm_pdus.specs.Groups.{groups_body, groups_extension};
ghost use Rattle.mm_pdus.specs.GroupReading.{unkept, groups_at, counted_at, body_at, appended_to, with_prefix};

use crate::fields::field;
use crate::writing::{put, put_bit};
use crate::{GroupItems, MOST_GROUPS, MmFault};
use identity::{BitReader, BitWriter};
use std::alloc::Allocator;

/// A group in a PDU, with its bits.
pub trait GroupText: Copy {
    ghost group_at: { List Bool → Result (Self × List Bool) MmFault };

    ghost text: { Self → List Bool };

    ghost is_in_range: { Self → Type 0 };

    /// Reads the next group.
    fn read(reader: &mut BitReader<'_>) -> Result<Self, MmFault>
        ensures { group_at reader.old ≡ with_rest result reader.new };

    /// How many bits it has.
    fn text_len(self) -> u64
        ensures value { result ≡ length (text self) }
        ensures small { result ≤ 56 };

    /// Appends its bits.
    fn put<A: Allocator>(self, writer: &mut BitWriter<A>) -> Result<(), MmFault>
        ensures ok { OnOk result (writer.new ≡ writer.old ++ text self) }
        ensures range { OnOk result (is_in_range self) }
        ensures err { IfErr result (λ e. e ≡ NoMemory) };
}

/// Reads `count` groups and appends them to `items`.
fn groups_into<T: GroupText, A: Allocator>(
    reader: &mut BitReader<'_>,
    count: u64,
    items: &mut GroupItems<T, A>,
) -> Result<(), MmFault>
    requires { length items.now + count ≤ most_groups }
    ensures given { Gives (giving result (items.new, reader.new)) (with_prefix items.old (groups_at T.group_at count reader.old)) }
    ensures memory { WantsMemory result (groups_at (unkept T.group_at) count reader.old) }
{
    for _ in 0..count {
        items.add(T::read(reader)?)?;
    }
    Ok(())
}

#[tactic(auto, unfolding(crate::specs::GroupReading::counted_at))]
fn counted_into<T: GroupText, A: Allocator>(
    reader: &mut BitReader<'_>,
    items: &mut GroupItems<T, A>,
) -> Result<(), MmFault>
    ensures given { Gives (giving result items.new) (appended_to items.old (counted_at T.group_at (length items.old) reader.old)) }
    ensures memory { WantsMemory result (counted_at (unkept T.group_at) (length items.old) reader.old) }
{
    let count = field(reader, 6)?;
    if items.len() as u64 + count > MOST_GROUPS as u64 {
        return Err(MmFault::TooMany);
    }
    groups_into(reader, count, items)?;
    if reader.left() > 0 {
        return Err(MmFault::BadElement);
    }
    Ok(())
}

/// Reads all groups of an element with these bits and appends them to `items`.
pub fn body_into<T: GroupText, A: Allocator>(
    mut body: BitReader<'_>,
    items: &mut GroupItems<T, A>,
) -> Result<(), MmFault>
    ensures given { Gives (giving result items.new) (appended_to items.old (body_at T.group_at (length items.old) body.entry)) }
    ensures memory { WantsMemory result (body_at (unkept T.group_at) (length items.old) body.entry) }
{
    match counted_into(&mut body, items) {
        Err(MmFault::Short) => Err(MmFault::BadElement),
        read => read,
    }
}

/// How many bits the groups have.
fn groups_len<T: GroupText>(items: &[T]) -> u64
    requires { length items.now ≤ most_groups }
    ensures value { result ≡ length (flat_map T.text items.now) }
    ensures small { result ≤ 1792 }
{
    let mut len = 0;
    for item in items {
        len += item.text_len();
    }
    len
}

fn put_each<T: GroupText, A: Allocator>(
    writer: &mut BitWriter<A>,
    items: &[T],
) -> Result<(), MmFault>
    ensures ok { OnOk result (writer.new ≡ writer.old ++ flat_map T.text items.now) }
    ensures range { OnOk result (AllByRecursion T.is_in_range items.now) }
    ensures err { IfErr result (λ e. e ≡ NoMemory) }
{
    for item in items {
        item.put(writer)?;
    }
    Ok(())
}

/// Appends one element with all groups.
fn put_element<T: GroupText, A: Allocator>(
    writer: &mut BitWriter<A>,
    identifier: u64,
    items: &[T],
) -> Result<(), MmFault>
    requires small { identifier < 2 ^ 4 }
    requires few { length items.now ≤ most_groups }
    ensures ok { OnOk result (writer.new ≡ writer.old ++ element (made_element identifier (groups_body T.text items.now))) }
    ensures range { OnOk result (AllByRecursion T.is_in_range items.now) }
    ensures err { IfErr result (λ e. e ≡ NoMemory) }
{
    put_bit(writer, true)?;
    put(writer, identifier, 4)?;
    put(writer, 6 + groups_len(items), 11)?;
    put(writer, items.len() as u64, 6)?;
    put_each(writer, items)
}

/// Appends what follows the fixed fields of a PDU: no element where there are no groups, else one with all of them.
pub fn put_groups<T: GroupText, A: Allocator>(
    writer: &mut BitWriter<A>,
    identifier: u64,
    items: &[T],
) -> Result<(), MmFault>
    requires small { identifier < 2 ^ 4 }
    requires few { length items.now ≤ most_groups }
    ensures ok { OnOk result (writer.new ≡ writer.old ++ extension (groups_extension T.text identifier items.now)) }
    ensures range { OnOk result (AllByRecursion T.is_in_range items.now) }
    ensures err { IfErr result (λ e. e ≡ NoMemory) }
{
    if items.is_empty() {
        return put_bit(writer, false);
    }
    put_bit(writer, true)?;
    put_element(writer, identifier, items)?;
    put_bit(writer, false)
}
