//! Laws of what a disk opens to, from its definitions alone.
//! These functions do nothing: calling one gives its clauses.

ghost use Rattle.std.specs.Prelude.{◌≡◌, ◌≢◌, ◌↔◌, ℕ, Err, List, Ok, take};
ghost use Rattle.sector_disk.specs.Disk.{AreSectors, sector};
ghost use Rattle.identity.specs.Packed.{AreBytes};
ghost use Rattle.checkpoint.specs.Label.{name};
ghost use Rattle.checkpoint.specs.Layout.{label_at};
ghost use Rattle.recovery.specs.declared.fault.StoreFault.TheVariants.{Unformatted};
ghost use Rattle.recovery.specs.Label.{layout_in};
ghost use Rattle.recovery.specs.Lasting.{NoneLostMadeOnDisk, NoneLostOnDisk};
ghost use Rattle.recovery.specs.Laws.{ElseBadGeometry, EqualAtFault, FirstAtFault, GreaterCounts, LabelStates, NoneCounts};
ghost use Rattle.recovery.specs.Laws.{OnlyLabelStates, SecondAtFault, SideOpens, SidesDecide};
ghost use Rattle.recovery.specs.Opens.{Opening, opens};
ghost use Rattle.recovery.specs.OpensTo.{IsRanged, OpensAs};

use std::alloc::Allocator;

/// A disk states a layout exactly if it has the layout's label and enough sectors. It is unformatted exactly if it does
/// not begin with TETRALOC. If it begins so but states no layout, it has a bad geometry.
pub fn label_states()
    ensures stated { LabelStates }
    ensures only { OnlyLabelStates }
    ensures unformatted { (image : List (List ℕ)) → (layout_in image ≡ Err Unformatted) ↔ (take 8 (sector image label_at) ≢ name) }
    ensures geometry { ElseBadGeometry }
{}

/// The side that counts is the one with the greater epoch of those whose root is open. If no root is open, sector 1 is at
/// fault. If the first sector of an open side's slot is no header, that sector is at fault, A's before B's. If both state
/// the same epoch, sector 2 is at fault.
pub fn side_stated()
    ensures current { GreaterCounts }
    ensures none { NoneCounts }
    ensures first { FirstAtFault }
    ensures second { SecondAtFault }
    ensures equal { EqualAtFault }
{}

/// An image that is on a side opens from that side, with its epoch, to the state after the commands of its records, if
/// its base accepts them one after the other.
pub fn side_opens<A: Allocator>()
    ensures { SideOpens A }
{}

/// The other way round: an image that opens is on its side, with the base in its slot and the records in its half. Their
/// commands are accepted one after the other, and the image opens to the state after them.
pub fn opens_on_side<A: Allocator>()
    ensures { (opening : Opening) (image : List (List ℕ)) → AreBytes (sector image label_at) → opens A image ≡ Ok opening → OpensAs A opening image }
{}

/// What opening makes of an image follows from the states of its two sides alone.
pub fn states_decide<A: Allocator>()
    ensures { SidesDecide A }
{}

/// What an image of sectors opens to is a state under the limits that it states, with all its numbers in their ranges.
pub fn opens_in_range<A: Allocator>()
    ensures { (opening : Opening) (image : List (List ℕ)) → AreSectors image → opens A image ≡ Ok opening → IsRanged opening.layout.limits opening.state }
{}

/// A stop may leave any image. A message that waits, or that an accepted command makes, is missing in it exactly if a
/// later accepted command ends it. Such a command is a report from its destination that ends it, `Sent` if it asks for no
/// report, `Expire` at its deadline or later, or `Delete`.
pub fn no_lost_message<A: Allocator>()
    ensures waiting { NoneLostOnDisk A }
    ensures made { NoneLostMadeOnDisk A }
{}
