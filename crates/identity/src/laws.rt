//! Laws of numbers, identities and prefixes, and of their texts. What is printed is read back, and no other text
//! is read so. A text is refused for its form exactly where it has not the form, whatever its numbers are.

ghost use Rattle.std.specs.Prelude.{◌≡◌, ◌<◌, ◌≤◌, ◌^◌, ◌↔◌, ◌⊎◌, ◌++◌, ◌∷◌, ℕ, List, Bool, true, false, Ok, Err, length, take, decimal};
ghost use Rattle.std.specs.declared.cmp.Ordering.TheVariants.{Less};
ghost use Rattle.identity.specs.Number.{num, number};
ghost use Rattle.identity.specs.Packed.{bits_of, IsPacked, AreBytes};
ghost use Rattle.identity.specs.Identity.{identity_number, AreFields, mcc_of, mnc_of, ssi_of};
ghost use Rattle.identity.specs.NumberText.{is_number, reading_number};
ghost use Rattle.identity.specs.IdentityText.{identity_text, prefix_text, IsIdentityForm, IsPrefixForm, reading_identity, reading_prefix};
ghost use Rattle.identity.specs.BitsText.{SpellsBits, IsBitsForm, bits_text, reading_bits, most_bits};
ghost use Rattle.identity.specs.Path.{Path, path_cmp, id_path, begins};
ghost use Rattle.identity.specs.declared.fault.Fault.{Fault};
ghost use Rattle.identity.specs.declared.fault.Fault.TheVariants.{BadText, OutOfRange};

/// A number and its bits determine each other.
pub fn numbers()
    ensures size { (w v : ℕ) → length (num w v) ≡ w }
    ensures back { (w v : ℕ) → v < 2 ^ w → number (num w v) ≡ v }
    ensures whole { (bits : List Bool) → num (length bits) (number bits) ≡ bits }
{}

/// Bits are packed in bytes in one way.
pub fn packed_bits()
    ensures { (one other : List ℕ) (len : ℕ) → AreBytes one → AreBytes other → IsPacked one len → IsPacked other len
        → take len (bits_of one) ≡ take len (bits_of other) → one ≡ other }
{}

/// The 48 bits of an identity are those of its three numbers, one after the other. Any 48 bits are an identity.
pub fn identities()
    ensures bits { (mcc mnc ssi : ℕ) → AreFields mcc mnc ssi → id_path (identity_number mcc mnc ssi) ≡ num 10 mcc ++ num 14 mnc ++ num 24 ssi }
    ensures fields { (mcc mnc ssi : ℕ) → AreFields mcc mnc ssi → (mcc_of (identity_number mcc mnc ssi) ≡ mcc)
        × (mnc_of (identity_number mcc mnc ssi) ≡ mnc) × (ssi_of (identity_number mcc mnc ssi) ≡ ssi) }
    ensures whole { (n : ℕ) → n < 2 ^ 48 → AreFields (mcc_of n) (mnc_of n) (ssi_of n) × (identity_number (mcc_of n) (mnc_of n) (ssi_of n) ≡ n) }
{}

/// A prefix begins what it is the prefix of. It is ordered before its extensions; else the first bit that differs decides.
pub fn prefixes()
    ensures begins { (p q : Path) → (begins p q ≡ true) ↔ (p ≡ take (length p) q) }
    ensures extension { (p : Path) (b : Bool) (rest : Path) → path_cmp p (p ++ b ∷ rest) ≡ Less }
    ensures differ { (p left right : Path) → path_cmp (p ++ false ∷ left) (p ++ true ∷ right) ≡ Less }
{}

/// A number has one text.
pub fn number_texts()
    ensures again { (most n : ℕ) → n ≤ most → most < 2 ^ 64 → reading_number most (decimal n) ≡ Ok n }
    ensures only { (most n : ℕ) (text : List ℕ) → most < 2 ^ 64 → reading_number most text ≡ Ok n → (n ≤ most) × (text ≡ decimal n) }
    ensures form { (most : ℕ) (text : List ℕ) → (reading_number most text ≡ Err BadText) ↔ (is_number text ≡ false) }
    ensures faults { (most : ℕ) (text : List ℕ) (fault : Fault) → reading_number most text ≡ Err fault → (fault ≡ BadText) ⊎ (fault ≡ OutOfRange) }
{}

/// An identity has one text.
pub fn identity_texts()
    ensures again { (n : ℕ) → n < 2 ^ 48 → reading_identity (identity_text n) ≡ Ok n }
    ensures only { (n : ℕ) (text : List ℕ) → reading_identity text ≡ Ok n → (n < 2 ^ 48) × (text ≡ identity_text n) }
    ensures form { (text : List ℕ) → (reading_identity text ≡ Err BadText) ↔ ¬ IsIdentityForm text }
    ensures faults { (text : List ℕ) (fault : Fault) → reading_identity text ≡ Err fault → (fault ≡ BadText) ⊎ (fault ≡ OutOfRange) }
{}

/// A prefix has one text.
pub fn prefix_texts()
    ensures again { (p : Path) → length p ≤ 48 → reading_prefix (prefix_text p) ≡ Ok p }
    ensures only { (p : Path) (text : List ℕ) → reading_prefix text ≡ Ok p → (length p ≤ 48) × (text ≡ prefix_text p) }
    ensures form { (text : List ℕ) → (reading_prefix text ≡ Err BadText) ↔ ¬ IsPrefixForm text }
    ensures faults { (text : List ℕ) (fault : Fault) → reading_prefix text ≡ Err fault → (fault ≡ BadText) ⊎ (fault ≡ OutOfRange) }
{}

/// Bits have the text that is printed, and those texts whose digits differ from it only in case.
pub fn bits_texts()
    ensures printed { (bits : List Bool) → length bits < 2 ^ 64 → SpellsBits (bits_text bits) bits }
    ensures again { (bits : List Bool) (text : List ℕ) → length bits ≤ most_bits → SpellsBits text bits → reading_bits text ≡ Ok bits }
    ensures only { (bits : List Bool) (text : List ℕ) → reading_bits text ≡ Ok bits → (length bits ≤ most_bits) × SpellsBits text bits }
    ensures form { (text : List ℕ) → (reading_bits text ≡ Err BadText) ↔ ¬ IsBitsForm text }
    ensures faults { (text : List ℕ) (fault : Fault) → reading_bits text ≡ Err fault → (fault ≡ BadText) ⊎ (fault ≡ OutOfRange) }
{}
