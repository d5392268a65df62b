//! What a radio asks, and the network answers, for one group.

ghost use Rattle.std.specs.Prelude.{◌≡◌};
ghost use Rattle.mm_pdus.specs.Values.{mode_bit, mode_of};
ghost use Rattle.mm_pdus.specs.Groups.{is_detach};

use crate::{ClassOfUsage, DetachReason, GroupAddress, LeaveReason, Lifetime};

/// Whether a radio stays attached to its groups of before (clause 16.10, attach/detach mode).
#[derive(Clone, Copy, Debug, PartialEq, Eq)]
pub enum GroupMode {
    /// 0: it stays attached, and the PDU changes its groups.
    Amendment,
    /// 1: it is detached from all of them first.
    DetachAllFirst,
}

impl GroupMode {
    /// The mode of this bit.
    pub fn from_bit(bit: bool) -> GroupMode
        ensures { result ≡ mode_of bit }
    {
        if bit {
            GroupMode::DetachAllFirst
        } else {
            GroupMode::Amendment
        }
    }

    /// Its bit.
    pub fn bit(self) -> bool
        ensures { result ≡ mode_bit self }
    {
        self == GroupMode::DetachAllFirst
    }
}

/// What a radio asks for one group (clause 16.10, group identity uplink).
#[derive(Clone, Copy, Debug, PartialEq, Eq)]
pub enum GroupUp {
    /// The radio joins the group.
    Attach {
        class: ClassOfUsage,
        address: GroupAddress,
    },
    /// The radio leaves the group.
    Leave {
        reason: LeaveReason,
        address: GroupAddress,
    },
}

/// What the network answers for one group (clause 16.10, group identity downlink).
#[derive(Clone, Copy, Debug, PartialEq, Eq)]
pub enum GroupDown {
    /// The radio is attached to the group.
    Attach {
        lifetime: Lifetime,
        class: ClassOfUsage,
        address: GroupAddress,
    },
    /// The radio is not attached to the group.
    Detach {
        reason: DetachReason,
        address: GroupAddress,
    },
}

impl GroupDown {
    /// Whether the group is rejected.
    pub fn is_detach(&self) -> bool
        ensures { result ≡ is_detach self.now }
    {
        matches!(self, GroupDown::Detach { .. })
    }
}
