//! Where the parts of a disk lie.
use checkpoint::{Layout, Side};
use registration::Limits;
use std::test::Fail;

/// Whether the side's root, slot and half begin at these sectors.
fn are(layout: &Layout, side: Side, want: [u64; 3]) -> bool {
    [layout.root(side), layout.slot(side), layout.half(side)] == want
}

#[test]
fn the_worked_disk(rt: HostRuntime) -> Result<(), Fail> {
    let limits = Limits::new(16, 16, 256, 4).ok_or("limits")?;
    let layout = Layout::new(limits, 39).ok_or("a layout")?;
    let sides = are(&layout, Side::A, [1, 3, 589]) && are(&layout, Side::B, [2, 296, 628]);
    assert!(rt; sides && layout.slot_len() == 293 && layout.sectors() == 667);
    Ok(())
}

#[test]
fn halves_from_38_to_65536_sectors(rt: HostRuntime) -> Result<(), Fail> {
    let limits = Limits::new(4096, 65_536, 65_536, 64).ok_or("limits")?;
    let out = Layout::new(limits, 37).is_none() && Layout::new(limits, 65_537).is_none();
    let most = Layout::new(limits, 65_536).ok_or("a layout")?;
    assert!(rt; out && Layout::new(limits, 38).is_some() && most.sectors() == 401_541);
    Ok(())
}

#[test]
fn each_side_has_another(rt: HostRuntime) {
    assert!(rt; Side::A.other() == Side::B && Side::B.other() == Side::A);
}
