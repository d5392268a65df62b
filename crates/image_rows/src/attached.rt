// The groups of a radio's row, as its attachments. They go into an array, so that no memory is needed.
ghost use Rattle.std.specs.Prelude.{◌≡◌, ◌<◌, ◌≤◌, ◌&&◌, [], IfSome, drop, length, map as each, nat_le, take};
ghost use Rattle.std.specs.Option.{is_some};
ghost use Rattle.std.specs.Ordering.{nat_cmp};
ghost use Rattle.std.specs.FinMap as map;
ghost use Rattle.prefix_tree.specs.Following.{is_after};
ghost use Rattle.group_attach.specs.Applied.{most_of_radio};
ghost use Rattle.image_rows.specs.RowText.{group_in};
ghost use Rattle.image_rows.specs.Loading.{attachment_in};

use crate::PackedGroups;
use group_attach::Attachment;
use identity::Itsi;

// Writes the groups into the list, as attachments of this radio, while it has room. Returns how many it wrote.
fn fill(list: &mut [Attachment], itsi: Itsi, groups: &mut PackedGroups<'_>) -> usize
    ensures same { length list.new ≡ length list.old }
    ensures room { result ≤ length list.old }
    ensures taken { take result list.new ≡ each (attachment_in itsi) (take result groups.old) }
    ensures rest { groups.new ≡ drop result groups.old }
    ensures full { result < length list.old → groups.new ≡ [] }
{
    for place in 0..list.len() {
        let Some(attachment) = groups.next(itsi) else {
            return place;
        };
        list[place] = attachment;
    }
    list.len()
}

/// Writes the attachments of a radio's row into the first of 32 places, and returns how many they are. It is `None`
/// where there are more, or where they are not in order of their groups, each group once.
pub fn own_groups(list: &mut [Attachment], itsi: Itsi, groups: PackedGroups<'_>) -> Option<usize>
    requires { length list.old ≡ most_of_radio }
    ensures fits { is_some result ≡ (nat_le (length groups.entry) most_of_radio && map.is_sorted nat_cmp groups.entry) }
    ensures places { length list.new ≡ most_of_radio }
    ensures own { IfSome result (λ n. (n ≤ most_of_radio) × (take n list.new ≡ each (attachment_in itsi) groups.entry)) }
{
    let mut left = groups;
    let count = fill(list, itsi, &mut left);
    if left.next(itsi).is_some() {
        return None;
    }
    if !is_in_order(&list[..count]) {
        return None;
    }
    Some(count)
}

// Whether the attachments are in order of their groups, each group once.
fn is_in_order(attachments: &[Attachment]) -> bool
    ensures { result ≡ map.is_sorted nat_cmp (each group_in attachments.now) }
{
    let mut last: Option<u64> = None;
    for attachment in attachments {
        let gtsi = attachment.gtsi.number();
        if !is_after(last, gtsi) {
            return false;
        }
        last = Some(gtsi);
    }
    true
}

fn is_after(last: Option<u64>, gtsi: u64) -> bool
    ensures { result ≡ is_after nat_cmp (λ n. n) last gtsi }
{
    match last {
        None => true,
        Some(last) => last < gtsi,
    }
}
