//! Identities of groups. Why this file is so like `itsi.rt` is said there.

ghost use Rattle.std.specs.Prelude.{◌≡◌, ◌<◌, ◌^◌, ◌↔◌, IsSome, IfSome, Some};
ghost use Rattle.identity.specs.Path.{id_path};
ghost use Rattle.identity.specs.Identity.{identity_number, AreFields, mcc_of, mnc_of, ssi_of};
ghost use Rattle.identity.specs.IdentityText.{identity_text, reading_identity};

use crate::display::write_identity;
use crate::{Fault, Prefix, fields, parse_gtsi};
use std::fmt;
use std::marker::Model;
use std::str::FromStr;

/// The identity of a group of radios: its 48-bit TETRA subscriber identity (ETSI EN 300 392-1, clause 7). That of a
/// radio is an [`Itsi`](crate::Itsi).
#[derive(Clone, Copy, Debug, PartialEq, Eq)]
pub struct Gtsi {
    number: u64,
}

impl Model for Gtsi {
    ghost use Rattle.std.specs.Prelude.{ℕ, ◌<◌, ◌^◌};

    ghost Value = { ℕ };

    ghost view = { λ i. i.number };

    ghost invariant = { λ i. i.number < 2 ^ 48 };

    ghost inverse = { λ n. record { number = n } };
}

impl Gtsi {
    /// The group of country `mcc` (10 bits), network `mnc` (14 bits) and `ssi` (24 bits); `None` where
    /// one of them is too great.
    pub fn new(mcc: u32, mnc: u32, ssi: u32) -> Option<Gtsi>
        ensures fits { IsSome result ↔ AreFields mcc mnc ssi }
        ensures value { IfSome result (λ gtsi. gtsi ≡ identity_number mcc mnc ssi) }
    {
        let number = fields::checked_number(mcc, mnc, ssi)?;
        Some(Gtsi { number })
    }

    /// The group of a number of 48 bits; `None` where `number` has more.
    pub fn from_number(number: u64) -> Option<Gtsi>
        ensures fits { IsSome result ↔ (number < 2 ^ 48) }
        ensures value { IfSome result (λ gtsi. gtsi ≡ number) }
    {
        if number < fields::IDENTITIES {
            Some(Gtsi { number })
        } else {
            None
        }
    }

    /// Its 48 bits as a number, the country code greatest.
    pub fn number(&self) -> u64
        ensures value { result ≡ self.now }
        ensures below { result < 2 ^ 48 }
    {
        self.number
    }

    /// Its country code, 0 to 1,023.
    pub fn mcc(&self) -> u32
        ensures value { result ≡ mcc_of self.now }
        ensures below { result < 2 ^ 10 }
    {
        fields::mcc(self.number)
    }

    /// Its network code, 0 to 16,383.
    pub fn mnc(&self) -> u32
        ensures value { result ≡ mnc_of self.now }
        ensures below { result < 2 ^ 14 }
    {
        fields::mnc(self.number)
    }

    /// Its number within the network, 0 to 16,777,215.
    pub fn ssi(&self) -> u32
        ensures value { result ≡ ssi_of self.now }
        ensures below { result < 2 ^ 24 }
    {
        fields::ssi(self.number)
    }

    /// All its 48 bits.
    pub fn path(&self) -> Prefix
        ensures { result ≡ id_path self.now }
    {
        Prefix::whole(self.number)
    }
}

/// Writes what [`print_gtsi`](crate::print_gtsi) appends; options such as `{:>20}` hold for the whole text.
///
/// ```
/// let gtsi = Gtsi::new(234, 14, 1000).unwrap();
/// let text = format!(in rt.alloc(); "{gtsi:>12}.")?;
/// assert_eq!(rt; text.as_str(), " 234-14-1000.");
/// ```
impl fmt::Display for Gtsi {
    ghost output = { λ gtsi. Some (identity_text gtsi) };

    fn fmt<W: fmt::Write>(&self, f: &mut fmt::Formatter<W>) -> fmt::Result {
        write_identity(f, self.number())
    }
}

/// Reads what [`parse_gtsi`] reads.
///
/// ```
/// assert_eq!(rt;
///     "234-14-1000".parse::<Gtsi>().ok(),
///     Gtsi::new(234, 14, 1000)
/// );
/// assert_eq!(rt; "234-14".parse::<Gtsi>(), Err(Fault::BadText));
/// ```
impl FromStr for Gtsi {
    type Err = Fault;

    ghost from_str_gives = { λ text read. read ≡ reading_identity text };

    fn from_str(text: &str) -> Result<Gtsi, Fault> {
        parse_gtsi(text.as_bytes())
    }
}
