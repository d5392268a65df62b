// Reading the label of a disk.
ghost use Rattle.std.specs.Prelude.{◌≡◌, ◌⊎◌, ◌≤◌, ◌∷◌, [], IfErr, IfOk, length};
ghost use Rattle.sector_disk.specs.Run.{HasCalled};
ghost use Rattle.sector_disk.specs.declared.record.Call.TheVariants.{Read};
ghost use Rattle.checkpoint.specs.Layout.{disk_size, label_at};
ghost use Rattle.recovery.specs.declared.fault.StoreFault.TheVariants.{BadGeometry, Unformatted};
ghost use Rattle.recovery.specs.Label.{fitting, layout_at, layout_after, layout_in, layout_of_numbers, numbers_at};
ghost use Rattle.recovery.specs.Opening.{IsValueIn};
ghost use Rattle.recovery.specs.Inside.Reads.{IsOfLabel, ReadsOrFails};

use crate::StoreFault;
use crate::formatting::LAYOUT;
use checkpoint::Layout;
use command_bytes::number;
use registration::Limits;
use sector_disk::Disk;

/// The letters that a label begins with.
const NAME: [u8; 8] = *b"TETRALOC";

/// The numbers of a label: the layout's number, the four limits, and how many sectors a half has.
#[derive(Clone, Copy, Debug, Drop)]
pub(crate) struct LabelNumbers {
    number: u64,
    rules: u32,
    radios: u32,
    mail: u32,
    stations: u32,
    journal: u32,
}

// The numbers after the name.
#[tactic(auto, unfolding(crate::specs::Label::numbers_at))]
fn numbers(bytes: &[u8]) -> Option<LabelNumbers>
    ensures { result ≡ numbers_at bytes.now }
{
    let (layout, rest) = number(bytes, 2)?;
    let (rules, rest) = number(rest, 4)?;
    let (radios, rest) = number(rest, 4)?;
    let (mail, rest) = number(rest, 4)?;
    let (stations, rest) = number(rest, 4)?;
    let (journal, _) = number(rest, 4)?;
    Some(LabelNumbers {
        number: layout,
        rules: rules as u32,
        radios: radios as u32,
        mail: mail as u32,
        stations: stations as u32,
        journal: journal as u32,
    })
}

// The layout of these numbers, if each is in its range.
fn layout_of_numbers(label: &LabelNumbers) -> Option<Layout>
    ensures { result ≡ layout_of_numbers label.now }
{
    if label.number != LAYOUT {
        return None;
    }
    let limits = Limits::new(label.rules, label.radios, label.mail, label.stations)?;
    Layout::new(limits, label.journal)
}

// The layout that the bytes after the name state.
fn layout_after(bytes: &[u8]) -> Option<Layout>
    ensures { result ≡ layout_after bytes.now }
{
    layout_of_numbers(&numbers(bytes)?)
}

// The layout, if the disk has enough sectors for it.
fn fitting(sectors: u64, layout: Option<Layout>) -> Result<Layout, StoreFault>
    ensures value { result ≡ fitting sectors layout }
    ensures room { IfOk result (λ layout. disk_size layout ≤ sectors) }
    ensures fault { IfErr result (λ fault. fault ≡ BadGeometry) }
{
    let Some(layout) = layout else {
        return Err(StoreFault::BadGeometry);
    };
    if sectors < layout.sectors() {
        return Err(StoreFault::BadGeometry);
    }
    Ok(layout)
}

// The layout that the label states, on a disk of so many sectors.
fn layout_at(sectors: u64, bytes: &[u8]) -> Result<Layout, StoreFault>
    requires { 8 ≤ length bytes.now }
    ensures value { result ≡ layout_at sectors bytes.now }
    ensures room { IfOk result (λ layout. disk_size layout ≤ sectors) }
    ensures fault { IfErr result (λ fault. (fault ≡ Unformatted) ⊎ (fault ≡ BadGeometry)) }
{
    if bytes[..8] != NAME[..] {
        return Err(StoreFault::Unformatted);
    }
    fitting(sectors, layout_after(&bytes[8..]))
}

// The layout that the disk states.
#[tactic(auto, unfolding(crate::specs::Label::layout_in), using(sector_disk::proofs::Reading::one_read))]
pub(crate) fn read_layout<D: Disk>(disk: &mut D) -> Result<Layout, StoreFault>
    ensures exact { (D.view disk.old).honest → IsValueIn (λ layout. layout) result (layout_in (D.view disk.old).reads) }
    ensures room { IfOk result (λ layout. disk_size layout ≤ (D.view disk.old).sectors) }
    ensures calls { IfOk result (λ layout. HasCalled (D.view disk.old) (D.view disk.new) (Read label_at ∷ [])) }
    ensures reads { ReadsOrFails IsOfLabel (D.view disk.old) (D.view disk.new) result }
{
    let sectors = disk.sectors();
    if sectors == 0 {
        return Err(StoreFault::Unformatted);
    }
    let mut bytes = [0; 512];
    disk.read(0, &mut bytes)?;
    layout_at(sectors, &bytes)
}
