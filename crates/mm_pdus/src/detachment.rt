//! Why a group is detached, by a radio or by the network.

ghost use Rattle.std.specs.Prelude.{◌≡◌, ◌<◌, Some};
ghost use Rattle.mm_pdus.specs.Values.{leave_number, leave_of, detach_number, detach_of};

/// Why a radio leaves a group (clause 16.10, group identity detachment uplink).
#[derive(Clone, Copy, Debug, PartialEq, Eq)]
pub enum LeaveReason {
    /// 0: the radio does not know the group.
    UnknownGroup,
    /// 1: the radio has no valid end-to-end encryption key.
    NoValidEncryptionKey,
    /// 2: the user asked for it.
    UserInitiated,
    /// 3: the radio can hold no more groups.
    CapacityExceeded,
}

impl LeaveReason {
    /// The reason of this number, which has two bits.
    pub fn from_number(number: u8) -> LeaveReason
        requires { number < 4 }
        ensures { leave_of number ≡ Some result }
    {
        match number {
            0 => LeaveReason::UnknownGroup,
            1 => LeaveReason::NoValidEncryptionKey,
            2 => LeaveReason::UserInitiated,
            _ => LeaveReason::CapacityExceeded,
        }
    }

    /// Its number, 0 to 3.
    pub fn number(self) -> u8
        ensures value { result ≡ leave_number self }
        ensures small { result < 4 }
    {
        match self {
            LeaveReason::UnknownGroup => 0,
            LeaveReason::NoValidEncryptionKey => 1,
            LeaveReason::UserInitiated => 2,
            LeaveReason::CapacityExceeded => 3,
        }
    }
}

/// Why the network detaches a radio from a group (clause 16.10, group identity detachment
/// downlink).
#[derive(Clone, Copy, Debug, PartialEq, Eq)]
pub enum DetachReason {
    /// 0: the network does not know the group.
    UnknownGroup,
    /// 1: for a time, of the first kind.
    TemporaryFirst,
    /// 2: for a time, of the second kind.
    TemporarySecond,
    /// 3: for good.
    Permanent,
}

impl DetachReason {
    /// The reason of this number, which has two bits.
    pub fn from_number(number: u8) -> DetachReason
        requires { number < 4 }
        ensures { detach_of number ≡ Some result }
    {
        match number {
            0 => DetachReason::UnknownGroup,
            1 => DetachReason::TemporaryFirst,
            2 => DetachReason::TemporarySecond,
            _ => DetachReason::Permanent,
        }
    }

    /// Its number, 0 to 3.
    pub fn number(self) -> u8
        ensures value { result ≡ detach_number self }
        ensures small { result < 4 }
    {
        match self {
            DetachReason::UnknownGroup => 0,
            DetachReason::TemporaryFirst => 1,
            DetachReason::TemporarySecond => 2,
            DetachReason::Permanent => 3,
        }
    }
}
