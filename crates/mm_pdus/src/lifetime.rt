//! How long a group stays attached.

ghost use Rattle.std.specs.Prelude.{◌≡◌, ◌<◌};
ghost use Rattle.mm_pdus.specs.Values.{lifetime_number, lifetime_of};

/// How long a group stays attached (clause 16.10, group identity attachment lifetime).
#[derive(Clone, Copy, Debug, PartialEq, Eq)]
pub enum Lifetime {
    /// 0: no attachment is needed.
    NotNeeded,
    /// 1: the group is to be attached anew at the next ITSI attach.
    NextItsiAttach,
    /// 2: the group may not be attached anew at the next ITSI attach.
    NotAllowedAtNextItsiAttach,
    /// 3: the group is to be attached anew at the next location update.
    NextLocationUpdate,
}

impl Lifetime {
    /// The lifetime of this number; `None` above 3.
    pub fn from_number(number: u8) -> Option<Lifetime>
        ensures { result ≡ lifetime_of number }
    {
        match number {
            0 => Some(Lifetime::NotNeeded),
            1 => Some(Lifetime::NextItsiAttach),
            2 => Some(Lifetime::NotAllowedAtNextItsiAttach),
            3 => Some(Lifetime::NextLocationUpdate),
            _ => None,
        }
    }

    /// Its number, 0 to 3.
    pub fn number(self) -> u8
        ensures value { result ≡ lifetime_number self }
        ensures small { result < 4 }
    {
        match self {
            Lifetime::NotNeeded => 0,
            Lifetime::NextItsiAttach => 1,
            Lifetime::NotAllowedAtNextItsiAttach => 2,
            Lifetime::NextLocationUpdate => 3,
        }
    }
}
