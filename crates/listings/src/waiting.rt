//! The items that wait at a station: each is found in the order of all, and kept if its radio is present there. It takes no
//! memory.
ghost use Rattle.std.specs.Prelude.{◌≡◌};
ghost use Rattle.std.specs.Option.{option_copied};
ghost use Rattle.registration.specs.Registered.{radio_of};
ghost use Rattle.listings.specs.Entries.{is_present_at};
ghost use Rattle.listings.specs.Inside.Walking.{waiting_from};

use identity::Itsi;
use mailbox::{Item, Key, Mail};
use registration::{Registry, Station};
use std::alloc::Allocator;

/// Whether a radio is registered, and present at this station. It is one look-up in the tree of radios.
fn is_present_at<B: Allocator + Clone>(registry: &Registry<B>, itsi: Itsi, station: Station) -> bool
    ensures { result ≡ is_present_at station (radio_of registry.now itsi) }
{
    match registry.where_is(itsi) {
        Some(radio) => radio.present && radio.station.number() == station.number(),
        None => false,
    }
}

/// The first item after this number and key that waits at the station, or the first of all that do.
pub(crate) fn first_waiting<'r, B: Allocator + Clone>(
    registry: &Registry<B>,
    mail: &'r Mail<B>,
    station: Station,
    after: Option<(u64, Key)>,
) -> Option<&'r Item<B>>
    ensures { option_copied result ≡ waiting_from registry.now mail.now station after }
{
    mailbox::laws::in_order(mail);
    let mut at = after;
    for _ in 0..mail.len() {
        let Some(item) = mail.next(at) else {
            return None;
        };
        let key = item.key();
        if is_present_at(registry, key.destination, station) {
            return Some(item);
        }
        at = Some((item.number(), key));
    }
    None
}
