ghost use Rattle.std.specs.Prelude.{◌≡◌, ◌↔◌, IsSome, IfSome, IsTrue, IfOk, OnErr};
ghost use Rattle.mailbox.specs.Values.{KeyInRange};
ghost use Rattle.centre_core.specs.Ranges.{IsShort, pdu_of, BodyInRange, RuleInRange, InRange};
ghost use Rattle.centre_core.specs.Same.{body_under, under};

use crate::Sequence;
use crate::last_accepted::bits_copy;
use identity::{Bits, Gtsi, Itsi, MOST_BITS, Prefix};
use mailbox::{Key, Moment};
use registration::{LocationArea, Rule, Station};
use std::alloc::{AllocError, Allocator};
use std::marker::Model;

/// A command of a station to the register.
#[derive(Drop)]
pub struct Command<A: Allocator> {
    /// The station that it comes from.
    pub station: Station,
    /// Its place among the commands of that station. A command with a sequence that was accepted
    /// before is a resend.
    pub sequence: Sequence,
    /// When it was given. Moments need not rise.
    pub moment: Moment,
    /// What is asked.
    pub body: Body<A>,
}

impl<A: Allocator> Model for Command<A> {
    ghost use Rattle.centre_core.specs.Asked.{Asked};

    ghost Value = { Asked A };

    ghost use Rattle.centre_core.specs.Ranges.{InRange};

    ghost view = { λ c. record { station = c.station; sequence = c.sequence; moment = c.moment; body = c.body } };

    ghost invariant = { λ c. InRange (record { station = c.station; sequence = c.sequence; moment = c.moment; body = c.body }) };
}

impl<A: Allocator> Command<A> {
    /// The command of a station; `None` where a PDU has more than 2,048 bits.
    pub fn new(
        station: Station,
        sequence: Sequence,
        moment: Moment,
        body: Body<A>,
    ) -> Option<Command<A>>
        ensures fits { IsSome result ↔ IsShort (pdu_of body) }
        ensures value { IfSome result (λ command. command ≡ record { station = station; sequence = sequence; moment = moment; body = body }) }
    {
        let _from_one = sequence.number();
        if !body.is_short() {
            return None;
        }
        let _seconds = moment.number();
        Some(Command {
            station,
            sequence,
            moment,
            body,
        })
    }

    /// A copy of the command, with its bits allocated in `alloc`.
    pub fn try_copy<B: Allocator>(&self, alloc: B) -> Result<Command<B>, AllocError>
        ensures ok { IfOk result (λ copy. copy ≡ under B self.now) }
        ensures err { OnErr result (IsSome (pdu_of self.now.body)) }
    {
        let body = self.body.try_copy(alloc)?;
        Ok(Command {
            station: self.station,
            sequence: self.sequence,
            moment: self.moment,
            body,
        })
    }

    /// Whether the two are one command: all four parts are equal.
    pub fn same(&self, other: &Command<A>) -> bool
        ensures { IsTrue result ↔ (self.now ≡ other.now) }
    {
        self.station == other.station
            && self.sequence == other.sequence
            && self.moment == other.moment
            && self.body.same(&other.body)
    }

    // States that its fields are in range.
    pub(crate) fn facts_of_ranges(&self)
        ensures { InRange self.now }
    {
        let _station = self.station;
    }
}

/// What a command asks.
#[derive(Drop)]
pub enum Body<A: Allocator> {
    /// Sets the rule under a prefix, or replaces the rule that is there.
    RuleSet {
        prefix: Prefix,
        rule: Rule,
    },
    /// Removes the rule under exactly this prefix, if there is one.
    RuleClear {
        prefix: Prefix,
    },
    /// A mobility management PDU of a radio, received in a location area.
    Mm {
        itsi: Itsi,
        area: LocationArea,
        pdu: Bits<A>,
    },
    /// A short data PDU from a radio for another one (clause 29): a message, a report or an
    /// acknowledgement.
    Sds {
        source: Itsi,
        destination: Itsi,
        pdu: Bits<A>,
    },
    /// A message (SDS-TRANSFER) from a radio to the members of a group. Each other member that is
    /// present gets a copy.
    GroupSds {
        source: Itsi,
        group: Gtsi,
        pdu: Bits<A>,
    },
    /// The item of this key was sent to its destination.
    Sent(Key),
    /// Removes all waiting items whose deadline is the command's moment or earlier.
    Expire,
    /// Removes the item of this key.
    Delete(Key),
}

impl<A: Allocator> Body<A> {
    /// Whether the two ask the same, with the same bits.
    pub fn same(&self, other: &Body<A>) -> bool
        ensures { IsTrue result ↔ (self.now ≡ other.now) }
    {
        match (self, other) {
            (Body::RuleSet { prefix, rule }, Body::RuleSet { prefix: p, rule: r }) => {
                prefix.same(p) && rule == r
            }
            (Body::RuleClear { prefix }, Body::RuleClear { prefix: p }) => prefix.same(p),
            (Body::Sent(key), Body::Sent(k)) => key == k,
            (Body::Delete(key), Body::Delete(k)) => key == k,
            (Body::Expire, Body::Expire) => true,
            _ => self.same_from_radio(other),
        }
    }

    // Whether both are from a radio, and the same.
    fn same_from_radio(&self, other: &Body<A>) -> bool
        ensures { IsTrue result ↔ (IsSome (pdu_of self.now) × (self.now ≡ other.now)) }
    {
        match (self, other) {
            (
                Body::Mm { itsi, area, pdu },
                Body::Mm {
                    itsi: i,
                    area: a,
                    pdu: p,
                },
            ) => itsi == i && area == a && pdu.same(p),
            (
                Body::Sds {
                    source,
                    destination,
                    pdu,
                },
                Body::Sds {
                    source: s,
                    destination: d,
                    pdu: p,
                },
            ) => source == s && destination == d && pdu.same(p),
            (
                Body::GroupSds { source, group, pdu },
                Body::GroupSds {
                    source: s,
                    group: g,
                    pdu: p,
                },
            ) => source == s && group == g && pdu.same(p),
            _ => false,
        }
    }

    // Whether its PDU, if it has one, has at most 2,048 bits. If so, the whole body is in range.
    fn is_short(&self) -> bool
        ensures short { IsTrue result ↔ IsShort (pdu_of self.now) }
        ensures ranges { IsTrue result → BodyInRange self.now }
    {
        match self {
            Body::RuleSet { prefix, rule } => {
                let _bits = prefix.len();
                facts_of_rule(rule);
                true
            }
            Body::RuleClear { prefix } => {
                let _bits = prefix.len();
                true
            }
            Body::Mm { itsi, area, pdu } => {
                let _parts = (itsi.number(), area.number());
                pdu.len() <= MOST_BITS
            }
            Body::Sds {
                source,
                destination,
                pdu,
            } => {
                let _parts = (source.number(), destination.number());
                pdu.len() <= MOST_BITS
            }
            Body::GroupSds { source, group, pdu } => {
                let _parts = (source.number(), group.number());
                pdu.len() <= MOST_BITS
            }
            Body::Sent(key) | Body::Delete(key) => {
                facts_of_key(key);
                true
            }
            Body::Expire => true,
        }
    }

    /// A copy of the body, with its bits allocated in `alloc`.
    pub fn try_copy<B: Allocator>(&self, alloc: B) -> Result<Body<B>, AllocError>
        ensures ok { IfOk result (λ copy. copy ≡ body_under B self.now) }
        ensures err { OnErr result (IsSome (pdu_of self.now)) }
    {
        match self {
            Body::RuleSet { prefix, rule } => Ok(Body::RuleSet {
                prefix: *prefix,
                rule: *rule,
            }),
            Body::RuleClear { prefix } => Ok(Body::RuleClear { prefix: *prefix }),
            Body::Mm { itsi, area, pdu } => Ok(Body::Mm {
                itsi: *itsi,
                area: *area,
                pdu: bits_copy(alloc, pdu)?,
            }),
            Body::Sds {
                source,
                destination,
                pdu,
            } => Ok(Body::Sds {
                source: *source,
                destination: *destination,
                pdu: bits_copy(alloc, pdu)?,
            }),
            Body::GroupSds { source, group, pdu } => Ok(Body::GroupSds {
                source: *source,
                group: *group,
                pdu: bits_copy(alloc, pdu)?,
            }),
            Body::Sent(key) => Ok(Body::Sent(*key)),
            Body::Expire => Ok(Body::Expire),
            Body::Delete(key) => Ok(Body::Delete(*key)),
        }
    }
}

// These two state the ranges that the types of the parts keep.
fn facts_of_rule(rule: &Rule)
    ensures { RuleInRange rule.now }
{
    let _parts = (rule.low(), rule.high().number(), rule.keep());
}

fn facts_of_key(key: &Key)
    ensures { KeyInRange key.now }
{
    let _identities = (key.destination.number(), key.source.number());
    let _reference = key.reference.number();
}
