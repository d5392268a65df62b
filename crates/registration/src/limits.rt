//! How much a register holds.

ghost use Rattle.std.specs.Prelude.{◌≡◌, ◌↔◌, IsSome, IfSome};
ghost use Rattle.registration.specs.Limits.{AreLimits};

/// The most rules that a register may be given room for.
pub const RULE_CAPACITY: u32 = 4096;

/// The most radios.
pub const RADIO_CAPACITY: u32 = 65_536;

/// The most waiting messages.
pub const MAIL_CAPACITY: u32 = 65_536;

/// The most stations.
pub const STATION_CAPACITY: u32 = 64;

/// How much a register holds at most. Each limit of a value is in its range.
#[derive(Clone, Copy, Debug, PartialEq, Eq)]
pub struct Limits {
    /// Rules, 1 to [`RULE_CAPACITY`].
    pub rules: u32,
    /// Radios, 1 to [`RADIO_CAPACITY`].
    pub radios: u32,
    /// Waiting messages, 1 to [`MAIL_CAPACITY`].
    pub mail: u32,
    /// Stations, 1 to [`STATION_CAPACITY`].
    pub stations: u32,
    pub ghost in_range: { AreLimits rules radios mail stations },
}

impl Limits {
    /// These limits; `None` where one of them is out of its range.
    pub fn new(rules: u32, radios: u32, mail: u32, stations: u32) -> Option<Limits>
        ensures fits { IsSome result ↔ AreLimits rules radios mail stations }
        ensures value { IfSome result (λ limits. (limits.rules ≡ rules) × (limits.radios ≡ radios) × (limits.mail ≡ mail) × (limits.stations ≡ stations)) }
    {
        if !(1..=RULE_CAPACITY).contains(&rules) || !(1..=RADIO_CAPACITY).contains(&radios) {
            return None;
        }
        if !(1..=MAIL_CAPACITY).contains(&mail) || !(1..=STATION_CAPACITY).contains(&stations) {
            return None;
        }
        Some(Limits {
            rules,
            radios,
            mail,
            stations,
        })
    }
}
