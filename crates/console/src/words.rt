//! The words of the answers.
ghost use Rattle.std.specs.Prelude.{◌≡◌, ◌≤◌, length};
ghost use Rattle.console.specs.Words.{line_word, mm_word, registration_word, group_word, sds_word, mail_word};

use crate::line::LineFault;
use group_attach::GroupFault;
use mailbox::MailFault;
use mm_pdus::MmFault;
use registration::RegFault;
use sds_tl::SdsFault;

pub(crate) fn line_word(fault: LineFault) -> &'static str
    ensures text { result.now ≡ line_word fault }
    ensures short { length result.now ≤ 32 }
{
    match fault {
        LineFault::Syntax => "syntax",
        LineFault::Value => "value",
        LineFault::TooLong => "too-long",
    }
}

pub(crate) fn mm_word(fault: MmFault) -> &'static str
    ensures text { result.now ≡ mm_word fault }
    ensures short { length result.now ≤ 32 }
{
    match fault {
        MmFault::Short => "mm-short",
        MmFault::Trailing => "mm-trailing",
        MmFault::UnknownType => "mm-unknown-type",
        MmFault::BadElement => "mm-bad-element",
        MmFault::UnsupportedAddress => "mm-unsupported-address",
        MmFault::TooMany => "mm-too-many",
        MmFault::NoMemory => "memory",
    }
}

pub(crate) fn registration_word(fault: RegFault) -> &'static str
    ensures text { result.now ≡ registration_word fault }
    ensures short { length result.now ≤ 32 }
{
    match fault {
        RegFault::UnknownIdentity => "unknown-identity",
        RegFault::LaNotAllowed => "la-not-allowed",
        RegFault::Congestion => "congestion",
        RegFault::Migration => "migration",
        RegFault::UnsupportedType => "unsupported-type",
        RegFault::NotAttached => "not-attached",
        RegFault::RulesFull => "rules-full",
        RegFault::NoMemory => "memory",
    }
}

pub(crate) fn group_word(fault: GroupFault) -> &'static str
    ensures text { result.now ≡ group_word fault }
    ensures short { length result.now ≤ 32 }
{
    match fault {
        GroupFault::NotAttached => "not-attached",
        GroupFault::TooManyGroups => "too-many-groups",
        GroupFault::NoMemory => "memory",
    }
}

pub(crate) fn sds_word(fault: SdsFault) -> &'static str
    ensures text { result.now ≡ sds_word fault }
    ensures short { length result.now ≤ 32 }
{
    match fault {
        SdsFault::Short => "sds-short",
        SdsFault::Trailing => "sds-trailing",
        SdsFault::NotSdsTl => "not-sds-tl",
        SdsFault::UnknownType => "sds-unknown-type",
        SdsFault::StorageControl => "storage-control",
        SdsFault::TooLong => "too-long",
        SdsFault::NoMemory => "memory",
        SdsFault::NotATransfer => "not-a-transfer",
    }
}

pub(crate) fn mail_word(fault: MailFault) -> &'static str
    ensures text { result.now ≡ mail_word fault }
    ensures short { length result.now ≤ 32 }
{
    match fault {
        MailFault::UnknownDestination => "unknown-destination",
        MailFault::NotAttached => "not-attached",
        MailFault::ReferenceBusy => "reference-busy",
        MailFault::MailboxFull => "mailbox-full",
        MailFault::CentreFull => "centre-full",
        MailFault::NoSuchMessage => "no-such-message",
        MailFault::NoMemory => "memory",
        MailFault::NoMembers => "no-members",
    }
}
