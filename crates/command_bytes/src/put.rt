// The fields of a command, appended to what has room for them.
ghost use Rattle.std.specs.Prelude.{◌≡◌, ◌≤◌, ◌+◌, ◌++◌, length};
ghost use Rattle.identity.specs.BitsText.{most_bits};
ghost use Rattle.command_bytes.specs.Fields.{big, bytes_for};
ghost use Rattle.command_bytes.specs.Text.{bits_text, key_text, kind_number, prefix_text, rule_text};

use crate::ByteSink;
use identity::{Bits, Prefix};
use mailbox::{Key, Kind};
use registration::Rule;
use std::alloc::Allocator;

/// A number in `width` bytes, at most 8, the highest first.
pub fn put_number<R: ByteSink>(out: &mut R, width: usize, number: u64)
    requires width { width ≤ 8 }
    requires room { width ≤ R.room out.old }
    ensures held { R.held out.new ≡ R.held out.old ++ big width number }
    ensures room { R.room out.old ≤ R.room out.new + width }
{
    out.put(&number.to_be_bytes()[8 - width..]);
}

/// A prefix, in 7 bytes.
#[tactic(auto, using(std::proofs::Common::append_assoc, crate::proofs::Putting::prefix_bits))]
pub fn put_prefix<R: ByteSink>(out: &mut R, prefix: &Prefix)
    requires room { 7 ≤ R.room out.old }
    ensures held { R.held out.new ≡ R.held out.old ++ prefix_text prefix.now }
    ensures room { R.room out.old ≤ R.room out.new + 7 }
{
    put_number(out, 1, u64::from(prefix.len()));
    put_number(out, 6, prefix.bits());
}

/// A rule, in 9 bytes.
#[tactic(auto, using(std::proofs::Common::append_assoc))]
pub fn put_rule<R: ByteSink>(out: &mut R, rule: &Rule)
    requires room { 9 ≤ R.room out.old }
    ensures held { R.held out.new ≡ R.held out.old ++ rule_text rule.now }
    ensures room { R.room out.old ≤ R.room out.new + 9 }
{
    put_number(out, 2, u64::from(rule.low().number()));
    put_number(out, 2, u64::from(rule.high().number()));
    put_number(out, 1, u64::from(rule.lifetime().number()));
    put_number(out, 4, u64::from(rule.keep()));
}

fn number_of(kind: Kind) -> u64
    ensures { result ≡ kind_number kind }
{
    match kind {
        Kind::Message => 0,
        Kind::Report => 1,
    }
}

/// A key, in 14 bytes.
#[tactic(auto, using(std::proofs::Common::append_assoc))]
pub fn put_key<R: ByteSink>(out: &mut R, key: &Key)
    requires room { 14 ≤ R.room out.old }
    ensures held { R.held out.new ≡ R.held out.old ++ key_text key.now }
    ensures room { R.room out.old ≤ R.room out.new + 14 }
{
    put_number(out, 6, key.destination.number());
    put_number(out, 6, key.source.number());
    put_number(out, 1, u64::from(key.reference.number()));
    put_number(out, 1, number_of(key.kind));
}

/// A string of at most 2,048 bits: its length in 2 bytes, then the bits.
#[tactic(auto, using(std::proofs::Common::append_assoc))]
pub fn put_bits<R: ByteSink, B: Allocator>(out: &mut R, bits: &Bits<B>)
    requires few { length bits.now ≤ most_bits }
    requires room { 2 + bytes_for (length bits.now) ≤ R.room out.old }
    ensures held { R.held out.new ≡ R.held out.old ++ bits_text bits.now }
    ensures room { R.room out.old ≤ R.room out.new + (2 + bytes_for (length bits.now)) }
{
    put_number(out, 2, bits.len() as u64);
    out.put(bits.as_bytes());
}
