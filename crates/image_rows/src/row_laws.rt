//! Laws on the bytes of rows. They hold of all bytes and all rows.
//! These functions do nothing: calling one gives its clauses.

ghost use Rattle.std.specs.Prelude.{◌≡◌, ◌⊎◌, ◌≤◌, ◌∷◌, ◌++◌, ℕ, List, Some, length, map, slice_index};
ghost use Rattle.group_attach.specs.Attached.{Attached, groups_of as attachments_of};
ghost use Rattle.identity.specs.Packed.{AreBytes};
ghost use Rattle.command_bytes.specs.Fields.{big};
ghost use Rattle.image_rows.specs.Rows.{Header, HeaderRow, Row, RowInRange, groups_of};
ghost use Rattle.image_rows.specs.RowText.{fields_of, group_in, header_tag, plain_header_tag, row_bytes, sector_of};
ghost use Rattle.image_rows.specs.RowSizes.{HasFewGroups, longest_row};
ghost use Rattle.image_rows.specs.RowReading.{IsRow, IsTagOf, RowAsRead, Spells, row_at, row_in};

/// A tag and the fields of a row are read as that row, with its PDU unchanged, whatever follows them. What is read has
/// these bytes.
pub fn read_as_written()
    ensures again { (row : Row) (tag : ℕ) (rest : List ℕ) → IsTagOf row tag → RowAsRead row → row_at (big 1 tag ++ fields_of row ++ rest) ≡ Some (row, rest) }
    ensures only { (row : Row) (bytes rest : List ℕ) → AreBytes bytes → row_at bytes ≡ Some (row, rest)
        → (tag : ℕ) × IsTagOf row tag × (bytes ≡ big 1 tag ++ fields_of row ++ rest) × RowAsRead row }
{}

/// A header's first byte states its layout. It is written with the tag of layout 2, and read with that of layout 1 or 2,
/// and with no other. After either tag the same fields are the same row.
pub fn headers_are_tagged()
    ensures written { (h : Header) → slice_index (sector_of (HeaderRow h)) 0 ≡ header_tag }
    ensures read { (h : Header) (bytes : List ℕ) → AreBytes bytes → row_in bytes ≡ Some (HeaderRow h)
        → (slice_index bytes 0 ≡ header_tag) ⊎ (slice_index bytes 0 ≡ plain_header_tag) }
    ensures either { (fields : List ℕ) → row_in (plain_header_tag ∷ fields) ≡ row_in (header_tag ∷ fields) }
{}

/// What is written is read back, whatever follows it. Bytes are read as the row that they spell, and as no other.
pub fn row_read_back()
    ensures written { (row : Row) (rest : List ℕ) → IsRow row → row_in (row_bytes row ++ rest) ≡ Some row }
    ensures spelt { (row : Row) (bytes : List ℕ) → Spells row bytes → row_in bytes ≡ Some row }
    ensures only { (row : Row) (bytes : List ℕ) → AreBytes bytes → row_in bytes ≡ Some row → IsRow row × Spells row bytes }
{}

/// No row is longer than `longest_row`, and its sector has 512 bytes.
pub fn rows_fit()
    ensures { (row : Row) → RowInRange row → HasFewGroups row → length (row_bytes row) ≤ longest_row }
{}

/// The groups of a radio's row are its attachments, as the table of groups lists them.
pub fn groups_are_attachments()
    ensures { (m : Attached) (itsi : ℕ) → map group_in (attachments_of m itsi) ≡ groups_of m itsi }
{}
