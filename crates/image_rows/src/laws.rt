//! Laws on the rows of an image, by their definitions alone.
//! These functions do nothing: calling one gives its clauses.

ghost use Rattle.std.specs.Prelude.{Ok, Err, map as each, ◌+◌, ◌++◌, Option, ◌^◌, [], ◌∷◌, ◌≡◌, ℕ, List, Some, None, length, ◌≤◌, ◌<◌};
ghost use Rattle.std.specs.List.{All};
ghost use Rattle.registration.specs.declared.limits.Limits.{Limits};
ghost use Rattle.centre_core.specs.State.{State, LastAccepted, IsState, empty};
ghost use Rattle.centre_core.specs.StateRanges.{StateInRange};
ghost use Rattle.identity.specs.Packed.{AreBytes};
ghost use Rattle.image_rows.specs.Image.{IsSpelt, sectors_of, slot_of};
ghost use Rattle.image_rows.specs.Rows.{HeaderRow, Row, RowInRange, header_of, row_count, rows_of, last_epoch};
ghost use Rattle.image_rows.specs.RowText.{padded};
ghost use Rattle.image_rows.specs.Loading.{state_of_rows};
ghost use Rattle.image_rows.specs.Parts.{PlaceInRange, row_by_tables};
ghost use Rattle.image_rows.specs.declared.place.RowPlace.{RowPlace};
ghost use Rattle.image_rows.specs.Slot.{BeginsWith, FirstBad, slot_read};
ghost use Rattle.image_rows.specs.Walking.{place_of, row_after};
ghost use Rattle.image_rows.specs.Worked.{bare, its_rows, new_header, one_of_each};
ghost use Rattle.identity.specs.Path.{Path};
ghost use Rattle.registration.specs.declared.rule.Rule.{Rule};
ghost use Rattle.registration.specs.declared.radio.Radio.{Radio};
ghost use Rattle.group_attach.specs.Attached.{Usage};
ghost use Rattle.mailbox.specs.Values.{Item};
ghost use Rattle.prefix_tree.specs.Following.{one_by_one};

/// The rows of a state make that state.
pub fn rows_make_state()
    ensures { (epoch : ℕ) (s : State) → IsState s → StateInRange s → state_of_rows s.registered.limits (rows_of epoch s) ≡ Some (epoch, s) }
{}

/// Rows make a state only if they are the rows of that state.
pub fn rows_only()
    ensures { (limits : Limits) (rows : List Row) (epoch : ℕ) (s : State) → All RowInRange rows → state_of_rows limits rows ≡ Some (epoch, s)
        → (rows ≡ rows_of epoch s) × IsState s × StateInRange s × (s.registered.limits ≡ limits) }
{}

/// Each row of a state is in its range.
pub fn rows_in_range()
    ensures { (epoch : ℕ) (s : State) → 0 < epoch → epoch ≤ last_epoch → IsState s → StateInRange s → All RowInRange (rows_of epoch s) }
{}

/// A walk from the first row, and from each row's place to the next, gives all rows of a state in order, each once.
pub fn rows_walk()
    ensures { (epoch : ℕ) (s : State) (n : ℕ) → IsState s → StateInRange s → length (rows_of epoch s) ≤ n
        → one_by_one (row_after epoch s) place_of n None ≡ rows_of epoch s }
{}

/// The image of an empty register is its header, which has these bytes at epoch 1. The image of a register with one
/// entry of each kind has one row of each.
pub fn worked_images()
    ensures empty { (epoch : ℕ) (limits : Limits) → rows_of epoch (empty limits) ≡ HeaderRow (bare epoch) ∷ [] }
    ensures bytes { (limits : Limits) → sectors_of 1 (empty limits) ≡ padded new_header ∷ [] }
    ensures one { (epoch : ℕ) (limits : Limits) (prefix : Path) (rule : Rule) (itsi : ℕ) (radio : Radio) (gtsi : ℕ) (usage : Usage)
        (item : Item) (last : LastAccepted) → itsi < 2 ^ 48
        → rows_of epoch (one_of_each limits prefix rule itsi radio gtsi usage item last) ≡ its_rows limits prefix rule itsi radio gtsi usage item last epoch }
{}

/// The row after a place is the next entry of its part of the image, by that part's table, or else the first entry of
/// a later part.
pub fn rows_by_tables()
    ensures { (epoch : ℕ) (s : State) (after : Option RowPlace) → StateInRange s → PlaceInRange after → row_after epoch s after ≡ row_by_tables epoch s after }
{}

/// An image has as many rows as its header states: at most the header, and one for each place that the limits give.
pub fn image_length()
    ensures stated { (epoch : ℕ) (s : State) → length (rows_of epoch s) ≡ row_count (header_of epoch s) }
    ensures fits { (epoch : ℕ) (s : State) → IsState s → length (rows_of epoch s)
        ≤ 1 + s.registered.limits.rules + s.registered.limits.radios + s.registered.limits.mail + s.registered.limits.stations }
{}

/// No image is a prefix of a longer one. So its end is known without what follows it.
pub fn none_begins_another()
    ensures { (limits : Limits) (rows more : List Row) (epoch later : ℕ) (s t : State) → All RowInRange rows → All RowInRange more
        → state_of_rows limits rows ≡ Some (epoch, s) → state_of_rows limits (rows ++ more) ≡ Some (later, t) → more ≡ [] }
{}

/// A slot that begins with an image is read as that image, whatever follows. A slot that is read as an image begins
/// with it. Else the place reported is that of the first sector that is no row, or a row that can't come there.
pub fn slots()
    ensures read { (limits : Limits) (rows : List Row) (following : List (Option Row)) (image : ℕ × State) → All RowInRange rows
        → state_of_rows limits rows ≡ Some image → slot_read limits (each Some rows ++ following) ≡ Ok image }
    ensures only { (limits : Limits) (sectors : List (Option Row)) (image : ℕ × State) → slot_read limits sectors ≡ Ok image → BeginsWith limits sectors image }
    ensures bad { (limits : Limits) (sectors : List (Option Row)) (place : ℕ) → slot_read limits sectors ≡ Err place → FirstBad limits sectors place }
{}

/// The sectors of a state are read as that state, whatever follows them. Sectors that are read as a state begin with
/// spellings of its rows, in order.
pub fn images()
    ensures written { (epoch : ℕ) (s : State) (following : List (List ℕ)) → 0 < epoch → epoch ≤ last_epoch → IsState s → StateInRange s
        → slot_of s.registered.limits (sectors_of epoch s ++ following) ≡ Ok (epoch, s) }
    ensures only { (limits : Limits) (sectors : List (List ℕ)) (epoch : ℕ) (s : State) → All AreBytes sectors → slot_of limits sectors ≡ Ok (epoch, s)
        → IsState s × StateInRange s × (s.registered.limits ≡ limits) × IsSpelt sectors epoch s }
{}
