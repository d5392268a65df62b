//! Which stations may give orders.
ghost use Rattle.std.specs.Prelude.{◌≡◌};
ghost use Rattle.registration.specs.Numbers.{Station as StationNumber};
ghost use Rattle.stations.specs.Orders.{may, may_by};

use registration::Station;

/// Which stations may give orders: `rule`, `unrule`, `delete` and `expire`.
#[derive(Clone, Copy, Debug)]
pub enum Orders<'a> {
    /// All stations.
    OfAll,
    /// The stations of these numbers.
    Of(&'a [u16]),
}

impl<'a> Orders<'a> {
    /// The stations of these numbers; all, if there is none.
    pub fn by(named: &'a [u16]) -> Orders<'a>
        ensures { (station : StationNumber) → may result station ≡ may_by named.now station }
    {
        if named.is_empty() {
            Orders::OfAll
        } else {
            Orders::Of(named)
        }
    }

    /// Whether this station may give orders.
    pub fn may(&self, station: Station) -> bool
        ensures { result ≡ may self.now station }
    {
        match self {
            Orders::OfAll => true,
            Orders::Of(named) => named.contains(&station.number()),
        }
    }
}
