//! Identities of radios.

// `itsi.rt` and `gtsi.rt` differ in names, docs and examples alone. A macro of the kit writes no contract, and of one
// generic type the contracts of every crate would name the arguments. So there are two types.

ghost use Rattle.std.specs.Prelude.{◌≡◌, ◌<◌, ◌^◌, ◌↔◌, IsSome, IfSome, Some};
ghost use Rattle.identity.specs.Path.{id_path};
ghost use Rattle.identity.specs.Identity.{identity_number, AreFields, mcc_of, mnc_of, ssi_of};
ghost use Rattle.identity.specs.IdentityText.{identity_text, reading_identity};

use crate::display::write_identity;
use crate::{Fault, Prefix, fields, parse_itsi};
use std::fmt;
use std::marker::Model;
use std::str::FromStr;

/// The identity of a radio: its 48-bit TETRA subscriber identity (ETSI EN 300 392-1, clause 7). That of a group is a
/// [`Gtsi`](crate::Gtsi).
#[derive(Clone, Copy, Debug, PartialEq, Eq)]
pub struct Itsi {
    number: u64,
}

impl Model for Itsi {
    ghost use Rattle.std.specs.Prelude.{ℕ, ◌<◌, ◌^◌};

    ghost Value = { ℕ };

    ghost view = { λ i. i.number };

    ghost invariant = { λ i. i.number < 2 ^ 48 };

    ghost inverse = { λ n. record { number = n } };
}

impl Itsi {
    /// The radio of country `mcc` (10 bits), network `mnc` (14 bits) and `ssi` (24 bits); `None` where
    /// one of them is too great.
    pub fn new(mcc: u32, mnc: u32, ssi: u32) -> Option<Itsi>
        ensures fits { IsSome result ↔ AreFields mcc mnc ssi }
        ensures value { IfSome result (λ itsi. itsi ≡ identity_number mcc mnc ssi) }
    {
        let number = fields::checked_number(mcc, mnc, ssi)?;
        Some(Itsi { number })
    }

    /// The radio of a number of 48 bits; `None` where `number` has more.
    pub fn from_number(number: u64) -> Option<Itsi>
        ensures fits { IsSome result ↔ (number < 2 ^ 48) }
        ensures value { IfSome result (λ itsi. itsi ≡ number) }
    {
        if number < fields::IDENTITIES {
            Some(Itsi { number })
        } else {
            None
        }
    }

    /// Its 48 bits as a number, the country code greatest.
    pub fn number(&self) -> u64
        ensures value { result ≡ self.now }
        ensures below { result < 2 ^ 48 }
    {
        self.number
    }

    /// Its country code, 0 to 1,023.
    pub fn mcc(&self) -> u32
        ensures value { result ≡ mcc_of self.now }
        ensures below { result < 2 ^ 10 }
    {
        fields::mcc(self.number)
    }

    /// Its network code, 0 to 16,383.
    pub fn mnc(&self) -> u32
        ensures value { result ≡ mnc_of self.now }
        ensures below { result < 2 ^ 14 }
    {
        fields::mnc(self.number)
    }

    /// Its number within the network, 0 to 16,777,215.
    pub fn ssi(&self) -> u32
        ensures value { result ≡ ssi_of self.now }
        ensures below { result < 2 ^ 24 }
    {
        fields::ssi(self.number)
    }

    /// All its 48 bits.
    pub fn path(&self) -> Prefix
        ensures { result ≡ id_path self.now }
    {
        Prefix::whole(self.number)
    }
}

/// Writes what [`print_itsi`](crate::print_itsi) appends; options such as `{:>20}` hold for the whole text.
///
/// ```
/// let itsi = Itsi::new(234, 14, 2001).unwrap();
/// let text = itsi.to_string(rt.alloc())?;
/// assert_eq!(rt; text.as_str(), "234-14-2001");
/// ```
impl fmt::Display for Itsi {
    ghost output = { λ itsi. Some (identity_text itsi) };

    fn fmt<W: fmt::Write>(&self, f: &mut fmt::Formatter<W>) -> fmt::Result {
        write_identity(f, self.number())
    }
}

/// Reads what [`parse_itsi`] reads.
///
/// ```
/// assert_eq!(rt;
///     "234-14-2001".parse::<Itsi>().ok(),
///     Itsi::new(234, 14, 2001)
/// );
/// assert_eq!(rt; "1024-14-2001".parse::<Itsi>(), Err(Fault::OutOfRange));
/// ```
impl FromStr for Itsi {
    type Err = Fault;

    ghost from_str_gives = { λ text read. read ≡ reading_identity text };

    fn from_str(text: &str) -> Result<Itsi, Fault> {
        parse_itsi(text.as_bytes())
    }
}
