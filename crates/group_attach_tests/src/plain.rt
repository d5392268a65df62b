//! The groups as one list.

use group_attach::Attachment;
use identity::{Gtsi, Itsi};
use mm_pdus::{GroupMode, GroupUp, Lifetime, LocationUpdateType};
use registration::Registry;
use std::alloc::{AllocError, Global};

/// The attachments as one list, in order of radio and group.
#[derive(Drop)]
pub struct PlainGroups {
    entries: Vec<Attachment, Global>,
}

impl PlainGroups {
    pub fn new(alloc: Global) -> PlainGroups {
        PlainGroups {
            entries: Vec::new(alloc),
        }
    }

    pub fn as_slice(&self) -> &[Attachment] {
        &self.entries
    }

    pub fn change(
        &mut self,
        registry: &Registry<Global>,
        itsi: Itsi,
        mode: GroupMode,
        items: &[GroupUp],
    ) -> Result<(), AllocError> {
        if mode == GroupMode::DetachAllFirst {
            self.entries.retain(|entry| entry.itsi != itsi);
        }
        for item in items {
            self.change_one(registry, itsi, item)?;
        }
        Ok(())
    }

    fn change_one(
        &mut self,
        registry: &Registry<Global>,
        itsi: Itsi,
        item: &GroupUp,
    ) -> Result<(), AllocError> {
        match item {
            GroupUp::Attach { class, address } => {
                let gtsi = address.gtsi(itsi);
                let Some(rule) = registry.rule_of(gtsi.number()) else {
                    return Ok(());
                };
                self.leave(itsi, gtsi);
                self.put(Attachment {
                    itsi,
                    gtsi,
                    class: *class,
                    lifetime: rule.lifetime(),
                })
            }
            GroupUp::Leave { address, .. } => {
                self.leave(itsi, address.gtsi(itsi));
                Ok(())
            }
        }
    }

    fn leave(&mut self, itsi: Itsi, gtsi: Gtsi) {
        self.entries
            .retain(|entry| entry.itsi != itsi || entry.gtsi != gtsi);
    }

    /// Inserts the attachment at its place in the order.
    fn put(&mut self, entry: Attachment) -> Result<(), AllocError> {
        let place = (entry.itsi.number(), entry.gtsi.number());
        let before = self
            .entries
            .iter()
            .filter(|other| (other.itsi.number(), other.gtsi.number()) < place)
            .count();
        match self.entries.insert(before.min(self.entries.len()), entry) {
            Ok(()) => Ok(()),
            Err(_) => Err(AllocError),
        }
    }

    /// Ends the radio's attachments as an accepted location update does. An ITSI attach ends all but those of lifetime 0;
    /// roaming and updates on demand end those of lifetime 3.
    pub fn update(&mut self, itsi: Itsi, update: LocationUpdateType) {
        self.entries.retain(|entry| entry.itsi != itsi || !ends(update, entry.lifetime));
    }
}

fn ends(update: LocationUpdateType, lifetime: Lifetime) -> bool {
    match update {
        LocationUpdateType::ItsiAttach => lifetime != Lifetime::NotNeeded,
        LocationUpdateType::Roaming
        | LocationUpdateType::ServiceRestorationRoaming
        | LocationUpdateType::Demand => lifetime == Lifetime::NextLocationUpdate,
        _ => false,
    }
}
