//! The disk and the register of the tests.
use centre_core::{Body, Command, Register, Sequence};
use checkpoint::{CheckpointError, Layout, Side, begin, switch, write_image};
use identity::{BitWriter, Itsi, Prefix};
use mailbox::Moment;
use mm_pdus::Lifetime;
use registration::{Limits, LocationArea, Rule, Station};
use sector_disk::{Disk, DiskError, MemoryDisk};
use std::alloc::Global;

/// The label of the worked limits and of halves of 39 sectors.
const LABEL: [u8; 30] = [
    0x54, 0x45, 0x54, 0x52, 0x41, 0x4c, 0x4f, 0x43, 0, 1, 0, 0, 0, 16, 0, 0, 0, 16, 0, 0, 1, 0, 0,
    0, 0, 4, 0, 0, 0, 39,
];

/// The first bytes of the header of an empty register with epoch 1, in layout 2.
const FORMATTED: [u8; 33] = [
    22, 0, 0, 0, 0, 0, 0, 0, 1, 0, 0, 0, 0, 0, 0, 0, 0, 0, 0, 0, 0, 0, 0, 0, 0, 0, 0, 0, 0, 0, 0,
    0, 0,
];

/// The rows of a register after a rule and a location update. The header is without its tag and its epoch.
const HEADER: [u8; 24] = [
    0, 0, 0, 0, 0, 0, 0, 2, 0, 0, 0, 1, 0, 0, 0, 1, 0, 0, 0, 0, 0, 0, 0, 1,
];

const RULE: [u8; 17] = [
    17, 24, 0x3a, 0x80, 0x0e, 0, 0, 0, 0, 1, 0, 0x63, 1, 0, 0, 0x0e, 0x10,
];

const RADIO: [u8; 13] = [18, 0x3a, 0x80, 0x0e, 0, 0x07, 0xd1, 0, 1, 0, 7, 1, 0];

const SERVED: [u8; 18] = [20, 0, 1, 0, 0, 0, 2, 0, 0, 0, 0, 0, 0, 0, 2, 0, 8, 0x56];

/// The layout of the worked disk.
pub fn layout() -> Option<Layout> {
    Layout::new(Limits::new(16, 16, 256, 4)?, 39)
}

/// A command of station 1.
pub fn made(sequence: u32, moment: Moment, body: Body<Global>) -> Option<Command<Global>> {
    Command::new(Station::new(1), Sequence::new(sequence)?, moment, body)
}

/// A rule for the radios of a network.
fn rule() -> Option<Command<Global>> {
    let prefix = Prefix::new(0x3a80_0e00_0000, 24)?;
    let low = LocationArea::new(1)?;
    let high = LocationArea::new(99)?;
    let rule = Rule::new(low, high, Lifetime::NextItsiAttach, 3_600)?;
    made(1, Moment::new(0), Body::RuleSet { prefix, rule })
}

/// The location update of a radio.
fn update(alloc: Global) -> Option<Command<Global>> {
    let itsi = Itsi::from_number(0x3a80_0e00_07d1)?;
    let area = LocationArea::new(7)?;
    let mut writer = BitWriter::new(alloc);
    writer.put(0x98, 10).ok()?;
    let pdu = writer.finish();
    made(2, Moment::new(10), Body::Mm { itsi, area, pdu })
}

/// Applies the command, if there is one.
fn apply(alloc: Global, register: &mut Register<Global>, command: Option<Command<Global>>) {
    if let Some(command) = command {
        drop(register.apply(alloc, &command));
        drop(command);
    }
}

/// A register with a rule and a radio.
pub fn register(alloc: Global, limits: Limits) -> Option<Register<Global>> {
    let mut register = Register::new(alloc, limits).ok()?;
    apply(alloc, &mut register, rule());
    apply(alloc, &mut register, update(alloc));
    Some(register)
}

/// A rule for the radios of a network, the one of this number after the network of `rule`.
fn rule_after(number: u32) -> Option<Command<Global>> {
    let prefix = Prefix::new(0x3a80_0e00_0000 + (u64::from(number) << 24), 24)?;
    let low = LocationArea::new(1)?;
    let high = LocationArea::new(99)?;
    let rule = Rule::new(low, high, Lifetime::NextItsiAttach, 3_600)?;
    made(number + 1, Moment::new(0), Body::RuleSet { prefix, rule })
}

/// A register with 16 rules: its image has 18 rows.
pub fn sixteen_rules(alloc: Global, limits: Limits) -> Option<Register<Global>> {
    let mut register = Register::new(alloc, limits).ok()?;
    for number in 0..16 {
        apply(alloc, &mut register, rule_after(number));
    }
    Some(register)
}

/// A command whose reply has no PDU.
pub fn expiry(sequence: u32) -> Option<Command<Global>> {
    made(sequence, Moment::new(11), Body::Expire)
}

/// A sector that begins with these bytes, with zeros after them.
pub fn sector(prefix: &[u8]) -> [u8; 512] {
    let mut bytes = [0; 512];
    for (byte, given) in bytes.iter_mut().zip(prefix) {
        *byte = *given;
    }
    bytes
}

/// Formats a disk of zeros: it is then on side A, with an empty register and epoch 1.
fn format<D: Disk>(disk: &mut D) -> Result<(), DiskError> {
    disk.write(3, &sector(&FORMATTED))?;
    disk.write(1, &sector(&[1]))?;
    disk.write(0, &sector(&LABEL))?;
    disk.sync()
}

/// The worked disk, after it was formatted.
pub fn formatted(alloc: Global) -> Option<MemoryDisk<Global>> {
    formatted_for(alloc, 99)
}

/// The same disk, which has room to note so many calls.
pub fn formatted_for(alloc: Global, calls: u32) -> Option<MemoryDisk<Global>> {
    let mut disk = MemoryDisk::new(alloc, 667, calls as usize).ok()?;
    let formatted = format(&mut disk).is_ok();
    formatted.then_some(disk)
}

/// Closes side B of a disk that is large enough.
pub fn begun<D: Disk>(disk: &mut D, layout: &Layout) -> bool {
    disk.sectors() >= layout.sectors() && begin::<Global, D>(disk, layout, Side::A).is_ok()
}

/// Writes the image of a register to the other side of a disk that is large enough.
pub fn write<D: Disk>(
    disk: &mut D,
    layout: &Layout,
    current: Side,
    epoch: u64,
    register: &Register<Global>,
) -> Option<CheckpointError> {
    let layout = Layout::new(register.limits(), layout.journal())?;
    if disk.sectors() < layout.sectors() {
        return None;
    }
    write_image(disk, &layout, current, epoch, register).err()
}

/// Makes the other side the current one.
pub fn turn<D: Disk>(disk: &mut D, layout: &Layout, current: Side) -> Option<CheckpointError> {
    if disk.sectors() < layout.sectors() {
        return None;
    }
    switch::<Global, D>(disk, layout, current).err()
}

/// Whether a sector begins with these bytes.
pub fn begins<D: Disk>(disk: &mut D, at: u64, head: &[u8]) -> Result<bool, DiskError> {
    let mut bytes = [7; 512];
    disk.read(at, &mut bytes)?;
    Ok(bytes.starts_with(head))
}

fn is_header<D: Disk>(disk: &mut D, at: u64, epoch: u8) -> Result<bool, DiskError> {
    let mut bytes = [7; 512];
    disk.read(at, &mut bytes)?;
    Ok(bytes[..9] == [22, 0, 0, 0, 0, 0, 0, 0, epoch] && bytes[9..].starts_with(&HEADER))
}

/// Whether a slot begins with the image of the register, with this epoch, in layout 2.
pub fn is_image<D: Disk>(disk: &mut D, at: u32, epoch: u8) -> Result<bool, DiskError> {
    let at = u64::from(at);
    let rows = begins(disk, at + 1, &RULE)? && begins(disk, at + 2, &RADIO)?;
    Ok(is_header(disk, at, epoch)? && rows && begins(disk, at + 3, &SERVED)?)
}

/// The epoch of the header in a sector, of either layout; 0 where there is none.
fn epoch_at<D: Disk>(disk: &mut D, at: u64) -> Result<u8, DiskError> {
    let mut bytes = [7; 512];
    disk.read(at, &mut bytes)?;
    let is_header = bytes[0] == 16 || bytes[0] == 22;
    Ok(if is_header { bytes[8] } else { 0 })
}

/// The epoch of the side whose root is open, or the greater one where both roots are.
pub fn current_epoch<D: Disk>(disk: &mut D) -> Result<u8, DiskError> {
    let first = if begins(disk, 1, &[1])? {
        epoch_at(disk, 3)?
    } else {
        0
    };
    let second = if begins(disk, 2, &[1])? {
        epoch_at(disk, 296)?
    } else {
        0
    };
    Ok(first.max(second))
}
