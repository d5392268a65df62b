//! The three numbers of an identity in its 48 bits.

ghost use Rattle.std.specs.Prelude.{◌≡◌, ◌<◌, ◌^◌, ◌↔◌, IsSome, IfSome};
ghost use Rattle.identity.specs.Identity.{identity_number, AreFields, mcc_of, mnc_of, ssi_of};

/// How many identities there are: one for each number of 48 bits.
pub const IDENTITIES: u64 = 1 << 48;
/// The greatest country code, of 10 bits.
pub const MOST_MCC: u32 = 1023;
/// The greatest network code, of 14 bits.
pub const MOST_MNC: u32 = 16_383;
/// The greatest subscriber number, of 24 bits.
pub const MOST_SSI: u32 = 16_777_215;

/// The number of an identity.
pub fn number_of(mcc: u32, mnc: u32, ssi: u32) -> u64
    requires { AreFields mcc mnc ssi }
    ensures value { result ≡ identity_number mcc mnc ssi }
    ensures below { result < 2 ^ 48 }
{
    (u64::from(mcc) << 38) + (u64::from(mnc) << 24) + u64::from(ssi)
}

/// The number of an identity, where each of the three numbers is in its range.
pub fn checked_number(mcc: u32, mnc: u32, ssi: u32) -> Option<u64>
    ensures fits { IsSome result ↔ AreFields mcc mnc ssi }
    ensures value { IfSome result (λ n. n ≡ identity_number mcc mnc ssi) }
    ensures below { IfSome result (λ n. n < 2 ^ 48) }
{
    if mcc <= MOST_MCC && mnc <= MOST_MNC && ssi <= MOST_SSI {
        Some(number_of(mcc, mnc, ssi))
    } else {
        None
    }
}

pub fn mcc(number: u64) -> u32
    requires { number < 2 ^ 48 }
    ensures value { result ≡ mcc_of number }
    ensures below { result < 2 ^ 10 }
{
    ((number >> 38) % (1 << 10)) as u32
}

pub fn mnc(number: u64) -> u32
    ensures value { result ≡ mnc_of number }
    ensures below { result < 2 ^ 14 }
{
    ((number >> 24) % (1 << 14)) as u32
}

pub fn ssi(number: u64) -> u32
    ensures value { result ≡ ssi_of number }
    ensures below { result < 2 ^ 24 }
{
    (number % (1 << 24)) as u32
}
