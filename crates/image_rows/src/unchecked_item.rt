// A waiting item, as its row's bytes have it.
ghost use Rattle.std.specs.Prelude.{◌≡◌, ◌≤◌, IfSome, option_map};
ghost use Rattle.mailbox.specs.Values.{latest_deadline};
ghost use Rattle.image_rows.specs.RowReading.{copied_at, item_at};
ghost use Rattle.image_rows.specs.ItemViews.{item_view};

use command_bytes::bits::{PackedBits, bits};
use command_bytes::fields::{gtsi_of, key, number};
use identity::Gtsi;
use mailbox::Key;

/// The latest moment at which an item expires, in seconds: the greatest moment plus the greatest keep.
const LATEST_DEADLINE: u64 = 8_589_934_590;

/// A waiting item. Its PDU is not checked yet.
#[derive(Drop)]
pub struct UncheckedItem<'a> {
    pub key: Key,
    pub number: u64,
    pub deadline: u64,
    pub pdu: PackedBits<'a>,
    pub group: Option<Gtsi>,
}

// The group of a copy, and the bytes after it; no group where the item is no copy.
fn group_of_copy(is_copy: bool, bytes: &[u8]) -> Option<(Option<Gtsi>, &[u8])>
    ensures { option_map (λ x. (x.0, x.1.now)) result ≡ copied_at is_copy bytes.now }
{
    if !is_copy {
        return Some((None, bytes));
    }
    let (group, rest) = number(bytes, 6)?;
    Some((Some(gtsi_of(group)), rest))
}

/// The item that the bytes begin with, and the bytes after it.
#[tactic(auto, unfolding(crate::specs::RowReading::item_at))]
pub fn item(is_copy: bool, bytes: &[u8]) -> Option<(UncheckedItem<'_>, &[u8])>
    ensures value { option_map (λ x. (item_view x.0, x.1.now)) result ≡ item_at is_copy bytes.now }
    ensures latest { IfSome result (λ x. x.0.deadline ≤ latest_deadline) }
{
    let (made_by, rest) = number(bytes, 8)?;
    let (deadline, rest) = number(rest, 8)?;
    let Some((key, rest)) = key(rest) else {
        return None;
    };
    let Some((group, rest)) = group_of_copy(is_copy, rest) else {
        return None;
    };
    let (pdu, rest) = bits(rest)?;
    if deadline > LATEST_DEADLINE {
        return None;
    }
    let item = UncheckedItem {
        key,
        number: made_by,
        deadline,
        pdu,
        group,
    };
    Some((item, rest))
}
