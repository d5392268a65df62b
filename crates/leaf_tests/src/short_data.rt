use identity::{BitWriter, Bits, Fault, parse_bits, print_bits};
use sds_tl::{
    DeliveryReportRequest, DeliveryStatus, Head, MOST_BITS, MessageReference, ProtocolIdentifier,
    Sds, SdsFault, canonical, head, read, read_transfer, transfer_reference, write,
};
use std::alloc::Global;
use std::test::Fail;

/// Whether the bits have this text.
fn shows(alloc: Global, bits: &Bits, expected: &str) -> Result<bool, Fail> {
    let mut text = Vec::new(alloc);
    print_bits(&mut text, bits)?;
    Ok(text.as_slice() == expected.as_bytes())
}

/// A message with this many zeros as its user data.
fn long_message(alloc: Global, zeros: u32) -> Result<Bits, Fault> {
    let mut writer = BitWriter::new(alloc);
    writer.put(0x82_0405, 24)?;
    for _ in 0..zeros {
        writer.put(0, 1)?;
    }
    Ok(writer.finish())
}

fn is_message(alloc: Global, sds: &Sds<Global>) -> Result<bool, Fail> {
    let Sds::Transfer {
        identifier,
        selection,
        user_data,
        ..
    } = sds
    else {
        return Ok(false);
    };
    Ok(identifier.number() == 130 && !*selection && shows(alloc, user_data, "24:014849")?)
}

fn is_report(sds: &Sds<Global>) -> bool {
    let Sds::Report {
        identifier,
        acknowledge,
        status,
        reference,
        user_data,
    } = sds
    else {
        return false;
    };
    (identifier.number(), *acknowledge, reference.number()) == (130, false, 5)
        && status.is_consumed()
        && user_data.is_empty()
}

fn is_acknowledgement(sds: &Sds<Global>) -> bool {
    let Sds::Ack {
        identifier,
        status,
        reference,
    } = sds
    else {
        return false;
    };
    (identifier.number(), status.code(), reference.number()) == (130, 0, 5) && status.is_received()
}

fn read_text(alloc: Global, text: &str) -> Result<Sds<Global>, Fail> {
    Ok(read(alloc, &parse_bits(alloc, text.as_bytes())?)?)
}

fn is_message_read(alloc: Global) -> Result<bool, Fail> {
    is_message(alloc, &read_text(alloc, "48:820405014849")?)
}

fn is_report_read(alloc: Global) -> Result<bool, Fail> {
    Ok(is_report(&read_text(alloc, "32:82100205")?))
}

fn is_acknowledgement_read(alloc: Global) -> Result<bool, Fail> {
    Ok(is_acknowledgement(&read_text(alloc, "32:82200005")?))
}

#[test]
fn each_kind_is_read(rt: HostRuntime) -> Result<(), Fail> {
    let alloc = rt.alloc();
    assert!(rt;
        is_message_read(alloc)? && is_report_read(alloc)? && is_acknowledgement_read(alloc)?
    );
    Ok(())
}

/// Whether both readers read this head.
fn has_head(alloc: Global, text: &str, expected: &Head) -> Result<bool, Fail> {
    let bits = parse_bits(alloc, text.as_bytes())?;
    Ok(head(&bits)? == *expected && read(alloc, &bits)?.head() == *expected)
}

fn message(request: DeliveryReportRequest) -> Head {
    Head::Transfer {
        request,
        reference: MessageReference::new(5),
    }
}

/// Whether the heads of two messages, which ask for different reports, and of a report are read.
fn have_heads(alloc: Global) -> Result<bool, Fail> {
    let received = message(DeliveryReportRequest::Received);
    let both = message(DeliveryReportRequest::Both);
    let report = Head::Report {
        acknowledge: false,
        status: DeliveryStatus::new(0),
        reference: MessageReference::new(5),
    };
    Ok(
        has_head(alloc, "48:820405014849", &received)?
            && has_head(alloc, "48:820C05014849", &both)?
            && has_head(alloc, "32:82100005", &report)?,
    )
}

#[test]
fn heads_are_read(rt: HostRuntime) -> Result<(), Fail> {
    assert!(rt; have_heads(rt.alloc())?);
    Ok(())
}

/// Whether the bits, read and written again, have this text.
fn is_written_again(alloc: Global, bits: &Bits, expected: &str) -> Result<bool, Fail> {
    let sds = read(alloc, bits)?;
    shows(alloc, &write(alloc, &sds)?, expected)
}

/// Whether the bits of this text, read and written again, have that text, which is the same with reserved bits 0.
fn is_written(alloc: Global, text: &str, expected: &str) -> Result<bool, Fail> {
    let bits = parse_bits(alloc, text.as_bytes())?;
    Ok(
        is_written_again(alloc, &bits, expected)?
            && shows(alloc, &canonical(alloc, &bits)?, expected)?,
    )
}

const WRITTEN: [(&str, &str); 7] = [
    ("48:820405014849", "48:820405014849"),
    ("24:FF0E07", "24:FF0E07"),
    ("49:82180205FFFF8", "49:82180205FFFF8"),
    ("32:82200205", "32:82200205"),
    ("48:820605014849", "48:820605014849"),
    // Reserved bits.
    ("40:821E00050F", "40:821800050F"),
    ("32:822F0205", "32:82200205"),
];

/// The first text that is not written again as it must be.
fn first_wrong(alloc: Global) -> Result<Option<&'static str>, Fail> {
    for (text, expected) in WRITTEN {
        if !is_written(alloc, text, expected)? {
            return Ok(Some(text));
        }
    }
    Ok(None)
}

#[test]
fn what_is_read_is_written(rt: HostRuntime) -> Result<(), Fail> {
    assert_eq!(rt; first_wrong(rt.alloc())?, None);
    Ok(())
}

/// Whether all three readers answer the fault.
fn has_fault(alloc: Global, text: &str, fault: SdsFault) -> Result<bool, Fail> {
    let bits = parse_bits(alloc, text.as_bytes())?;
    Ok(
        head(&bits) == Err(fault)
            && read(alloc, &bits).err() == Some(fault)
            && canonical(alloc, &bits).err() == Some(fault),
    )
}

const FAULTS: [(&str, SdsFault); 5] = [
    ("24:820505", SdsFault::StorageControl),
    ("24:7F0405", SdsFault::NotSdsTl),
    ("24:823005", SdsFault::UnknownType),
    ("16:8204", SdsFault::Short),
    ("33:822000050", SdsFault::Trailing),
];

fn first_without_fault(alloc: Global) -> Result<Option<&'static str>, Fail> {
    for (text, fault) in FAULTS {
        if !has_fault(alloc, text, fault)? {
            return Ok(Some(text));
        }
    }
    Ok(None)
}

#[test]
fn faults_are_reported(rt: HostRuntime) -> Result<(), Fail> {
    assert_eq!(rt; first_without_fault(rt.alloc())?, None);
    assert!(rt; ProtocolIdentifier::new(127).is_none());
    Ok(())
}

/// Whether a message with so many zeros is too long to be read; nothing where it is read or written wrong.
fn is_too_long(alloc: Global, zeros: u32) -> Result<Option<bool>, Fail> {
    let bits = long_message(alloc, zeros)?;
    match read(alloc, &bits) {
        Ok(sds) => Ok((write(alloc, &sds)?.len() == MOST_BITS).then_some(false)),
        Err(fault) => Ok((fault == SdsFault::TooLong).then_some(true)),
    }
}

/// Why a message with this user data can't be written.
fn fault_of_writing(alloc: Global, user_data: Bits) -> Result<Option<SdsFault>, Fail> {
    let message = Sds::Transfer {
        identifier: ProtocolIdentifier::new(130).ok_or("an identifier")?,
        request: DeliveryReportRequest::None,
        selection: false,
        reference: MessageReference::new(5),
        user_data,
    };
    Ok(write(alloc, &message).err())
}

fn is_longest_taken(alloc: Global) -> Result<bool, Fail> {
    Ok(
        is_too_long(alloc, 2023)? == Some(false)
            && is_too_long(alloc, 2024)? == Some(true)
            && fault_of_writing(alloc, long_message(alloc, 2024)?)? == Some(SdsFault::TooLong),
    )
}

#[test]
fn the_longest_message_is_taken(rt: HostRuntime) -> Result<(), Fail> {
    assert!(rt; is_longest_taken(rt.alloc())?);
    Ok(())
}

/// Whether both readers of a message answer the fault.
fn has_transfer_fault(alloc: Global, text: &str, fault: SdsFault) -> Result<bool, Fail> {
    let bits = parse_bits(alloc, text.as_bytes())?;
    Ok(transfer_reference(&bits) == Err(fault) && read_transfer(alloc, &bits).err() == Some(fault))
}

/// Whether both readers read a message of this reference.
fn is_transfer(alloc: Global, text: &str, reference: u8) -> Result<bool, Fail> {
    let bits = parse_bits(alloc, text.as_bytes())?;
    let sds = read_transfer(alloc, &bits)?;
    Ok(transfer_reference(&bits)?.number() == reference && sds.head() == head(&bits)?)
}

const NO_TRANSFERS: [(&str, SdsFault); 3] = [
    ("32:82100005", SdsFault::NotATransfer),
    ("32:82200005", SdsFault::NotATransfer),
    ("33:822000050", SdsFault::Trailing),
];

fn are_no_transfers(alloc: Global) -> Result<bool, Fail> {
    for (text, fault) in NO_TRANSFERS {
        if !has_transfer_fault(alloc, text, fault)? {
            return Ok(false);
        }
    }
    Ok(true)
}

#[test]
fn only_a_message_is_a_transfer(rt: HostRuntime) -> Result<(), Fail> {
    let alloc = rt.alloc();
    assert!(rt; is_transfer(alloc, "48:820405014849", 5)? && are_no_transfers(alloc)?);
    Ok(())
}

#[test]
fn a_reference_is_any_number_of_eight_bits(rt: HostRuntime) -> Result<(), Fail> {
    for number in [0, 5, 255] {
        assert_eq!(rt; MessageReference::new(number).number(), number);
    }
    Ok(())
}
