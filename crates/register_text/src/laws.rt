//! Laws on the lines of a text, by their definitions alone.
//! These functions do nothing: calling one gives its clauses.

ghost use Rattle.std.specs.Prelude.{◌≡◌, ◌++◌, ℕ, Err, List, Ok, Some, codes, false, length};
ghost use Rattle.std.specs.Result.{result_ok};
ghost use Rattle.registration.specs.declared.limits.Limits.{Limits};
ghost use Rattle.centre_core.specs.State.{State, IsState};
ghost use Rattle.centre_core.specs.StateRanges.{StateInRange};
ghost use Rattle.listings.specs.Lines.{count_text};
ghost use Rattle.listings.specs.Texts.{listing_text};
ghost use Rattle.listings.specs.declared.listing.Listing.TheVariants.{Dump};
ghost use Rattle.image_rows.specs.Rows.{Row, rows_of};
ghost use Rattle.image_rows.specs.Loading.{state_of_rows};
ghost use Rattle.register_text.specs.declared.load_fault.LoadFault.{LoadFault};
ghost use Rattle.register_text.specs.declared.load_fault.LoadFault.TheVariants.{Cut};
ghost use Rattle.register_text.specs.Cut.{IsCutAt, is_cut};
ghost use Rattle.register_text.specs.Dump.{IsOfPlace, IsTextOf, register_bytes, text_read};
ghost use Rattle.register_text.specs.Lines.{row_line, IsLineRow, Spells};
ghost use Rattle.register_text.specs.Reading.{line_row};
ghost use Rattle.register_text.specs.Text.{register_lines, state_in, state_of, AreLinesOf, IsUnder};

/// A line is read as a row exactly if it is the row's one spelling.
pub fn row_lines()
    ensures again { (row : Row) → IsLineRow row → line_row (row_line row) ≡ Some row }
    ensures only { (line : List ℕ) (row : Row) → line_row line ≡ Some row → Spells line row }
{}

/// The lines of a register make what its rows make. Under its own limits that is the register itself. Under other limits it is a
/// register with the same rows, or none. Only such lines make a register. The numbers of the first line may differ, and a line
/// `dump N` may come before it.
pub fn register_lines()
    ensures made { (limits : Limits) (s : State) → IsState s → StateInRange s
        → state_in limits (register_lines s) ≡ state_of (state_of_rows limits (rows_of 1 s)) }
    ensures again { (s : State) → IsState s → StateInRange s → state_in s.registered.limits (register_lines s) ≡ Some s }
    ensures under { (limits : Limits) (s t : State) → IsState s → StateInRange s → state_in limits (register_lines s) ≡ Some t
        → IsUnder limits (rows_of 1 s) t }
    ensures only { (limits : Limits) (lines : List (List ℕ)) (t : State) → state_in limits lines ≡ Some t → AreLinesOf lines t }
{}

/// The bytes of a register are read as what its rows make. Under its own limits that is the register itself. Under other limits it is
/// a register with the same rows, or none, and then a row is at fault for its place. Only such bytes are read as a register. The
/// numbers of the first line may differ, and a line `dump N` may come before it.
pub fn register_bytes()
    ensures made { (limits : Limits) (s : State) → IsState s → StateInRange s
        → result_ok (text_read limits (register_bytes s)) ≡ state_of (state_of_rows limits (rows_of 1 s)) }
    ensures refused { (limits : Limits) (s : State) (fault : LoadFault) → IsState s → StateInRange s → text_read limits (register_bytes s) ≡ Err fault
        → IsOfPlace fault }
    ensures again { (s : State) → IsState s → StateInRange s → text_read s.registered.limits (register_bytes s) ≡ Ok s }
    ensures under { (limits : Limits) (s t : State) → IsState s → StateInRange s → text_read limits (register_bytes s) ≡ Ok t
        → IsUnder limits (rows_of 1 s) t }
    ensures only { (limits : Limits) (text : List ℕ) (t : State) → text_read limits text ≡ Ok t
        → IsTextOf text t × (t.registered.limits ≡ limits) }
{}

/// A text is refused as cut only where it is cut, whatever the limits. So a text that is read as a register under some limits is
/// never refused as cut under others.
pub fn cut_texts()
    ensures only { (limits : Limits) (text : List ℕ) (n : ℕ) → text_read limits text ≡ Err (Cut n) → IsCutAt text n }
    ensures whole { (limits : Limits) (text : List ℕ) (t : State) → text_read limits text ≡ Ok t → is_cut text ≡ false }
{}

/// The listing `dump` is a line with the number of a register's lines, and after it the bytes of the register. Under the register's
/// own limits this text is read as that register. Under other limits it is read as a register with the same rows, or as none, and
/// then a row is at fault for its place.
pub fn dumps()
    ensures again { (s : State) → IsState s → StateInRange s → text_read s.registered.limits (listing_text s Dump) ≡ Ok s }
    ensures under { (limits : Limits) (s t : State) → IsState s → StateInRange s → text_read limits (listing_text s Dump) ≡ Ok t
        → IsUnder limits (rows_of 1 s) t }
    ensures refused { (limits : Limits) (s : State) (fault : LoadFault) → IsState s → StateInRange s → text_read limits (listing_text s Dump) ≡ Err fault
        → IsOfPlace fault }
    ensures text { (s : State) → listing_text s Dump ≡ codes "dump " ++ (count_text (length (register_lines s)) ++ register_bytes s) }
{}
