//! The types of location updates, as asked for and as accepted.

ghost use Rattle.std.specs.Prelude.{◌≡◌, ◌<◌, Some};
ghost use Rattle.mm_pdus.specs.Values.{update_number, update_of, accept_of, update_accepted};

/// Why a radio asks for a location update (clause 16.10, location update type).
#[derive(Clone, Copy, Debug, PartialEq, Eq)]
pub enum LocationUpdateType {
    /// 0: the radio moved to another location area.
    Roaming,
    /// 1: the radio came from another network.
    Migrating,
    /// 2: the radio reports from time to time.
    Periodic,
    /// 3: the radio was switched on.
    ItsiAttach,
    /// 4: the radio restores a call or service after roaming.
    ServiceRestorationRoaming,
    /// 5: the radio restores a call or service after migrating.
    ServiceRestorationMigrating,
    /// 6: the network demanded the update.
    Demand,
    /// 7: the radio is disabled.
    DisabledMs,
}

impl LocationUpdateType {
    /// The type of this number, which has three bits.
    pub fn from_number(number: u8) -> LocationUpdateType
        requires { number < 8 }
        ensures { update_of number ≡ Some result }
    {
        match number {
            0 => LocationUpdateType::Roaming,
            1 => LocationUpdateType::Migrating,
            2 => LocationUpdateType::Periodic,
            3 => LocationUpdateType::ItsiAttach,
            4 => LocationUpdateType::ServiceRestorationRoaming,
            5 => LocationUpdateType::ServiceRestorationMigrating,
            6 => LocationUpdateType::Demand,
            _ => LocationUpdateType::DisabledMs,
        }
    }

    /// Its number, 0 to 7.
    pub fn number(self) -> u8
        ensures value { result ≡ update_number self }
        ensures small { result < 8 }
    {
        match self {
            LocationUpdateType::Roaming => 0,
            LocationUpdateType::Migrating => 1,
            LocationUpdateType::Periodic => 2,
            LocationUpdateType::ItsiAttach => 3,
            LocationUpdateType::ServiceRestorationRoaming => 4,
            LocationUpdateType::ServiceRestorationMigrating => 5,
            LocationUpdateType::Demand => 6,
            LocationUpdateType::DisabledMs => 7,
        }
    }

    /// The type by which an update of this type is accepted. `None` for one that this network never accepts: migration,
    /// and the update of a disabled radio.
    pub fn accept_type(self) -> Option<AcceptType>
        ensures { result ≡ accept_of self }
    {
        match self {
            LocationUpdateType::Roaming => Some(AcceptType::Roaming),
            LocationUpdateType::Periodic => Some(AcceptType::Periodic),
            LocationUpdateType::ItsiAttach => Some(AcceptType::ItsiAttach),
            LocationUpdateType::ServiceRestorationRoaming => {
                Some(AcceptType::ServiceRestorationRoaming)
            }
            LocationUpdateType::Demand => Some(AcceptType::Demand),
            LocationUpdateType::Migrating
            | LocationUpdateType::ServiceRestorationMigrating
            | LocationUpdateType::DisabledMs => None,
        }
    }
}

/// The type of a location update that was accepted (clause 16.10, location update accept type).
#[derive(Clone, Copy, Debug, PartialEq, Eq)]
pub enum AcceptType {
    /// 0.
    Roaming,
    /// 2.
    Periodic,
    /// 3.
    ItsiAttach,
    /// 4.
    ServiceRestorationRoaming,
    /// 6.
    Demand,
}

impl AcceptType {
    /// The type of the update that it accepts.
    pub fn update(self) -> LocationUpdateType
        ensures { result ≡ update_accepted self }
    {
        match self {
            AcceptType::Roaming => LocationUpdateType::Roaming,
            AcceptType::Periodic => LocationUpdateType::Periodic,
            AcceptType::ItsiAttach => LocationUpdateType::ItsiAttach,
            AcceptType::ServiceRestorationRoaming => LocationUpdateType::ServiceRestorationRoaming,
            AcceptType::Demand => LocationUpdateType::Demand,
        }
    }
}
