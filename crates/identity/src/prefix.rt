//! Prefixes of identities.

ghost use Rattle.std.specs.Prelude.{◌≡◌, ◌<◌, ◌≤◌, ◌^◌, ◌-◌, ◌++◌, ◌↔◌, length, take, drop, replicate, false, IsSome, IfSome, IsTrue, Some};
ghost use Rattle.std.specs.Ordering.{eq_by_cmp};
ghost use Rattle.identity.specs.Number.{num};
ghost use Rattle.identity.specs.Path.{id_path, path_cmp, left_aligned, begins};
ghost use Rattle.identity.specs.IdentityText.{prefix_text, reading_prefix};

use crate::display::pad;
use crate::fields::IDENTITIES;
use crate::{Fault, fields, parse_prefix};
use std::fmt;
use std::marker::Model;
use std::str::FromStr;

/// The first bits of an identity, 0 to 48 of them.
#[derive(Clone, Copy, Debug)]
pub struct Prefix {
    bits: u64,
    len: u32,
}

impl Model for Prefix {
    ghost use Rattle.std.specs.Prelude.{List, Bool, length, ◌≤◌, ◌<◌, ◌^◌};

    ghost Value = { List Bool };

    ghost use Rattle.identity.specs.Number.{num, number};
    ghost use Rattle.identity.specs.Inside.PrefixInside.{inverse_of_num};

    ghost view = { λ p. num p.len p.bits };

    ghost invariant = { λ p. (p.len ≤ 48) × (p.bits < 2 ^ p.len) };

    ghost inverse = { λ q. record { bits = number q; len = length q } };

    ghost inverse_ok = { inverse_of_num };
}

impl Prefix {
    /// The first `len` of the 48 bits of `bits`, the greatest first. `None` where `bits` has more than 48 bits,
    /// `len` is above 48, or a bit past `len` is 1.
    pub fn new(bits: u64, len: u32) -> Option<Prefix>
        ensures fits { IsSome result ↔ ((len ≤ 48) × (bits < 2 ^ 48) × (drop len (id_path bits) ≡ replicate (48 - len) false)) }
        ensures value { IfSome result (λ p. p ≡ take len (id_path bits)) }
    {
        if len <= 48 && bits < IDENTITIES && bits % (1 << (48 - len)) == 0 {
            Some(Prefix::of(bits, len))
        } else {
            None
        }
    }

    /// The first `len` bits, at most 48, of an identity's number; greater bits of `number` do not matter.
    pub fn of(number: u64, len: u32) -> Prefix
        requires { len ≤ 48 }
        ensures { result ≡ take len (id_path number) }
    {
        Prefix {
            bits: (number % IDENTITIES) >> (48 - len),
            len,
        }
    }

    /// All 48 bits of an identity's number; greater bits of `number` do not matter.
    pub fn whole(number: u64) -> Prefix
        ensures { result ≡ id_path number }
    {
        Prefix::of(number, 48)
    }

    /// Its bits and after them zeros, 48 in all, as a number.
    pub fn bits(&self) -> u64
        ensures value { result ≡ left_aligned self.now }
        ensures bits { id_path result ≡ self.now ++ replicate (48 - length self.now) false }
        ensures below { result < 2 ^ 48 }
    {
        self.bits << (48 - self.len)
    }

    /// How many bits it has.
    pub fn len(&self) -> u32
        ensures value { result ≡ length self.now }
        ensures at_most_48 { result ≤ 48 }
    {
        self.len
    }

    /// Whether it has no bits, and so is a prefix of each identity.
    pub fn is_empty(&self) -> bool
        ensures { IsTrue result ↔ (length self.now ≡ 0) }
    {
        self.len == 0
    }

    /// Its bits alone as a number.
    pub fn number(&self) -> u64
        ensures fits { result < 2 ^ length self.now }
        ensures value { num (length self.now) result ≡ self.now }
    {
        self.bits
    }

    /// Whether it is a prefix of an identity's 48 bits; greater bits of `identity` do not matter.
    pub fn begins(&self, identity: u64) -> bool
        ensures { result ≡ begins self.now (id_path identity) }
    {
        (identity % IDENTITIES) >> (48 - self.len) == self.bits
    }

    /// Whether the two are the same prefix.
    pub fn same(&self, other: &Prefix) -> bool
        ensures equal { IsTrue result ↔ (self.now ≡ other.now) }
        ensures test { result ≡ eq_by_cmp path_cmp self.now other.now }
    {
        self.len == other.len && self.bits == other.bits
    }
}

impl PartialEq for Prefix {
    ghost use Rattle.std.specs.Cmp.{partial_equiv_from_equiv, eq_by_cmp_equiv};
    ghost use Rattle.identity.specs.Inside.PathLaws.{paths_total};

    ghost eq = { eq_by_cmp path_cmp };

    ghost laws = { partial_equiv_from_equiv (eq_by_cmp_equiv paths_total) };

    fn eq(&self, other: &Prefix) -> bool {
        self.same(other)
    }
}

impl Eq for Prefix {
    ghost use Rattle.std.specs.Cmp.{eq_by_cmp_equiv};
    ghost use Rattle.identity.specs.Inside.PathLaws.{paths_total};

    ghost laws = { eq_by_cmp_equiv paths_total };
}

/// Writes what [`print_prefix`](crate::print_prefix) appends; options such as `{:>20}` hold for the whole text.
///
/// ```
/// let network = Prefix::of(0x3A80_0E00_07D1, 24);
/// let text = format!(in rt.alloc(); "under {network}")?;
/// assert_eq!(rt; text.as_str(), "under 234-14-0/24");
/// ```
impl fmt::Display for Prefix {
    ghost output = { λ prefix. Some (prefix_text prefix) };

    fn fmt<W: fmt::Write>(&self, f: &mut fmt::Formatter<W>) -> fmt::Result {
        let bits = self.bits();
        let (mcc, mnc, ssi) = (fields::mcc(bits), fields::mnc(bits), fields::ssi(bits));
        let len = self.len();
        pad(f, format_args!("{mcc}-{mnc}-{ssi}/{len}"))
    }
}

/// Reads what [`parse_prefix`] reads.
///
/// ```
/// assert_eq!(rt;
///     "234-14-0/24".parse::<Prefix>().ok(),
///     Prefix::new(0x3A80_0E00_0000, 24)
/// );
/// assert_eq!(rt; "234-14-1/24".parse::<Prefix>(), Err(Fault::OutOfRange));
/// ```
impl FromStr for Prefix {
    type Err = Fault;

    ghost from_str_gives = { λ text read. read ≡ reading_prefix text };

    fn from_str(text: &str) -> Result<Prefix, Fault> {
        parse_prefix(text.as_bytes())
    }
}
