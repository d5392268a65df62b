//! The examples in the documentation of `identity`, line by line.

use identity::{Fault, Gtsi, Itsi, Prefix, parse_bits};
use std::test::Fail;

#[test]
fn radio_is_shown(rt: HostRuntime) -> Result<(), Fail> {
    let itsi = Itsi::new(234, 14, 2001).unwrap();
    let text = itsi.to_string(rt.alloc())?;
    assert_eq!(rt; text.as_str(), "234-14-2001");
    Ok(())
}

#[test]
fn group_is_shown(rt: HostRuntime) -> Result<(), Fail> {
    let gtsi = Gtsi::new(234, 14, 1000).unwrap();
    let text = format!(in rt.alloc(); "{gtsi:>12}.")?;
    assert_eq!(rt; text.as_str(), " 234-14-1000.");
    Ok(())
}

#[test]
fn prefix_is_shown(rt: HostRuntime) -> Result<(), Fail> {
    let network = Prefix::of(0x3A80_0E00_07D1, 24);
    let text = format!(in rt.alloc(); "under {network}")?;
    assert_eq!(rt; text.as_str(), "under 234-14-0/24");
    Ok(())
}

#[test]
fn bits_are_shown(rt: HostRuntime) -> Result<(), Fail> {
    let bits = parse_bits(rt.alloc(), b"10:264")?;
    let text = bits.to_string(rt.alloc())?;
    assert_eq!(rt; text.as_str(), "10:264");
    Ok(())
}

#[test]
fn radio_is_read(rt: HostRuntime) {
    assert_eq!(rt;
        "234-14-2001".parse::<Itsi>().ok(),
        Itsi::new(234, 14, 2001)
    );
    assert_eq!(rt; "1024-14-2001".parse::<Itsi>(), Err(Fault::OutOfRange));
}

#[test]
fn group_is_read(rt: HostRuntime) {
    assert_eq!(rt;
        "234-14-1000".parse::<Gtsi>().ok(),
        Gtsi::new(234, 14, 1000)
    );
    assert_eq!(rt; "234-14".parse::<Gtsi>(), Err(Fault::BadText));
}

#[test]
fn prefix_is_read(rt: HostRuntime) {
    assert_eq!(rt;
        "234-14-0/24".parse::<Prefix>().ok(),
        Prefix::new(0x3A80_0E00_0000, 24)
    );
    assert_eq!(rt; "234-14-1/24".parse::<Prefix>(), Err(Fault::OutOfRange));
}
