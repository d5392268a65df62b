//! Hexadecimal digits by tables.

ghost use Rattle.std.specs.Prelude.{◌≡◌, ◌<◌, ◌≤◌, Some, None, IsTrue, length, if◌then◌else◌};
ghost use Rattle.std.specs.Char.{digit_value, is_ascii_hexdigit};
ghost use Rattle.std.specs.List.{list_all};
ghost use Rattle.identity.specs.Number.{num, number};
ghost use Rattle.identity.specs.BitsText.{hex_of, digit_bits};

/// The two capital digits of each byte.
static PAIRS: [[u8; 2]; 256] = [
    [b'0', b'0'],
    [b'0', b'1'],
    [b'0', b'2'],
    [b'0', b'3'],
    [b'0', b'4'],
    [b'0', b'5'],
    [b'0', b'6'],
    [b'0', b'7'],
    [b'0', b'8'],
    [b'0', b'9'],
    [b'0', b'A'],
    [b'0', b'B'],
    [b'0', b'C'],
    [b'0', b'D'],
    [b'0', b'E'],
    [b'0', b'F'],
    [b'1', b'0'],
    [b'1', b'1'],
    [b'1', b'2'],
    [b'1', b'3'],
    [b'1', b'4'],
    [b'1', b'5'],
    [b'1', b'6'],
    [b'1', b'7'],
    [b'1', b'8'],
    [b'1', b'9'],
    [b'1', b'A'],
    [b'1', b'B'],
    [b'1', b'C'],
    [b'1', b'D'],
    [b'1', b'E'],
    [b'1', b'F'],
    [b'2', b'0'],
    [b'2', b'1'],
    [b'2', b'2'],
    [b'2', b'3'],
    [b'2', b'4'],
    [b'2', b'5'],
    [b'2', b'6'],
    [b'2', b'7'],
    [b'2', b'8'],
    [b'2', b'9'],
    [b'2', b'A'],
    [b'2', b'B'],
    [b'2', b'C'],
    [b'2', b'D'],
    [b'2', b'E'],
    [b'2', b'F'],
    [b'3', b'0'],
    [b'3', b'1'],
    [b'3', b'2'],
    [b'3', b'3'],
    [b'3', b'4'],
    [b'3', b'5'],
    [b'3', b'6'],
    [b'3', b'7'],
    [b'3', b'8'],
    [b'3', b'9'],
    [b'3', b'A'],
    [b'3', b'B'],
    [b'3', b'C'],
    [b'3', b'D'],
    [b'3', b'E'],
    [b'3', b'F'],
    [b'4', b'0'],
    [b'4', b'1'],
    [b'4', b'2'],
    [b'4', b'3'],
    [b'4', b'4'],
    [b'4', b'5'],
    [b'4', b'6'],
    [b'4', b'7'],
    [b'4', b'8'],
    [b'4', b'9'],
    [b'4', b'A'],
    [b'4', b'B'],
    [b'4', b'C'],
    [b'4', b'D'],
    [b'4', b'E'],
    [b'4', b'F'],
    [b'5', b'0'],
    [b'5', b'1'],
    [b'5', b'2'],
    [b'5', b'3'],
    [b'5', b'4'],
    [b'5', b'5'],
    [b'5', b'6'],
    [b'5', b'7'],
    [b'5', b'8'],
    [b'5', b'9'],
    [b'5', b'A'],
    [b'5', b'B'],
    [b'5', b'C'],
    [b'5', b'D'],
    [b'5', b'E'],
    [b'5', b'F'],
    [b'6', b'0'],
    [b'6', b'1'],
    [b'6', b'2'],
    [b'6', b'3'],
    [b'6', b'4'],
    [b'6', b'5'],
    [b'6', b'6'],
    [b'6', b'7'],
    [b'6', b'8'],
    [b'6', b'9'],
    [b'6', b'A'],
    [b'6', b'B'],
    [b'6', b'C'],
    [b'6', b'D'],
    [b'6', b'E'],
    [b'6', b'F'],
    [b'7', b'0'],
    [b'7', b'1'],
    [b'7', b'2'],
    [b'7', b'3'],
    [b'7', b'4'],
    [b'7', b'5'],
    [b'7', b'6'],
    [b'7', b'7'],
    [b'7', b'8'],
    [b'7', b'9'],
    [b'7', b'A'],
    [b'7', b'B'],
    [b'7', b'C'],
    [b'7', b'D'],
    [b'7', b'E'],
    [b'7', b'F'],
    [b'8', b'0'],
    [b'8', b'1'],
    [b'8', b'2'],
    [b'8', b'3'],
    [b'8', b'4'],
    [b'8', b'5'],
    [b'8', b'6'],
    [b'8', b'7'],
    [b'8', b'8'],
    [b'8', b'9'],
    [b'8', b'A'],
    [b'8', b'B'],
    [b'8', b'C'],
    [b'8', b'D'],
    [b'8', b'E'],
    [b'8', b'F'],
    [b'9', b'0'],
    [b'9', b'1'],
    [b'9', b'2'],
    [b'9', b'3'],
    [b'9', b'4'],
    [b'9', b'5'],
    [b'9', b'6'],
    [b'9', b'7'],
    [b'9', b'8'],
    [b'9', b'9'],
    [b'9', b'A'],
    [b'9', b'B'],
    [b'9', b'C'],
    [b'9', b'D'],
    [b'9', b'E'],
    [b'9', b'F'],
    [b'A', b'0'],
    [b'A', b'1'],
    [b'A', b'2'],
    [b'A', b'3'],
    [b'A', b'4'],
    [b'A', b'5'],
    [b'A', b'6'],
    [b'A', b'7'],
    [b'A', b'8'],
    [b'A', b'9'],
    [b'A', b'A'],
    [b'A', b'B'],
    [b'A', b'C'],
    [b'A', b'D'],
    [b'A', b'E'],
    [b'A', b'F'],
    [b'B', b'0'],
    [b'B', b'1'],
    [b'B', b'2'],
    [b'B', b'3'],
    [b'B', b'4'],
    [b'B', b'5'],
    [b'B', b'6'],
    [b'B', b'7'],
    [b'B', b'8'],
    [b'B', b'9'],
    [b'B', b'A'],
    [b'B', b'B'],
    [b'B', b'C'],
    [b'B', b'D'],
    [b'B', b'E'],
    [b'B', b'F'],
    [b'C', b'0'],
    [b'C', b'1'],
    [b'C', b'2'],
    [b'C', b'3'],
    [b'C', b'4'],
    [b'C', b'5'],
    [b'C', b'6'],
    [b'C', b'7'],
    [b'C', b'8'],
    [b'C', b'9'],
    [b'C', b'A'],
    [b'C', b'B'],
    [b'C', b'C'],
    [b'C', b'D'],
    [b'C', b'E'],
    [b'C', b'F'],
    [b'D', b'0'],
    [b'D', b'1'],
    [b'D', b'2'],
    [b'D', b'3'],
    [b'D', b'4'],
    [b'D', b'5'],
    [b'D', b'6'],
    [b'D', b'7'],
    [b'D', b'8'],
    [b'D', b'9'],
    [b'D', b'A'],
    [b'D', b'B'],
    [b'D', b'C'],
    [b'D', b'D'],
    [b'D', b'E'],
    [b'D', b'F'],
    [b'E', b'0'],
    [b'E', b'1'],
    [b'E', b'2'],
    [b'E', b'3'],
    [b'E', b'4'],
    [b'E', b'5'],
    [b'E', b'6'],
    [b'E', b'7'],
    [b'E', b'8'],
    [b'E', b'9'],
    [b'E', b'A'],
    [b'E', b'B'],
    [b'E', b'C'],
    [b'E', b'D'],
    [b'E', b'E'],
    [b'E', b'F'],
    [b'F', b'0'],
    [b'F', b'1'],
    [b'F', b'2'],
    [b'F', b'3'],
    [b'F', b'4'],
    [b'F', b'5'],
    [b'F', b'6'],
    [b'F', b'7'],
    [b'F', b'8'],
    [b'F', b'9'],
    [b'F', b'A'],
    [b'F', b'B'],
    [b'F', b'C'],
    [b'F', b'D'],
    [b'F', b'E'],
    [b'F', b'F'],
];

/// The value of each digit in either case, and 16 for each byte that is none.
static VALUES: [u8; 256] = [
    16, 16, 16, 16, 16, 16, 16, 16, 16, 16, 16, 16, 16, 16, 16, 16, 16, 16, 16, 16, 16, 16, 16, 16,
    16, 16, 16, 16, 16, 16, 16, 16, 16, 16, 16, 16, 16, 16, 16, 16, 16, 16, 16, 16, 16, 16, 16, 16,
    0, 1, 2, 3, 4, 5, 6, 7, 8, 9, 16, 16, 16, 16, 16, 16, 16, 10, 11, 12, 13, 14, 15, 16, 16, 16,
    16, 16, 16, 16, 16, 16, 16, 16, 16, 16, 16, 16, 16, 16, 16, 16, 16, 16, 16, 16, 16, 16, 16, 10,
    11, 12, 13, 14, 15, 16, 16, 16, 16, 16, 16, 16, 16, 16, 16, 16, 16, 16, 16, 16, 16, 16, 16, 16,
    16, 16, 16, 16, 16, 16, 16, 16, 16, 16, 16, 16, 16, 16, 16, 16, 16, 16, 16, 16, 16, 16, 16, 16,
    16, 16, 16, 16, 16, 16, 16, 16, 16, 16, 16, 16, 16, 16, 16, 16, 16, 16, 16, 16, 16, 16, 16, 16,
    16, 16, 16, 16, 16, 16, 16, 16, 16, 16, 16, 16, 16, 16, 16, 16, 16, 16, 16, 16, 16, 16, 16, 16,
    16, 16, 16, 16, 16, 16, 16, 16, 16, 16, 16, 16, 16, 16, 16, 16, 16, 16, 16, 16, 16, 16, 16, 16,
    16, 16, 16, 16, 16, 16, 16, 16, 16, 16, 16, 16, 16, 16, 16, 16, 16, 16, 16, 16, 16, 16, 16, 16,
    16, 16, 16, 16, 16, 16, 16, 16, 16, 16, 16, 16, 16, 16,
];

/// The two capital digits of a byte.
#[inline(always)]
pub(crate) fn pair_of(byte: u8) -> [u8; 2]
    ensures { result ≡ hex_of (num 8 byte) }
{
    PAIRS[usize::from(byte)]
}

/// The value of a hexadecimal digit in either case, and 16 of any other byte.
#[inline(always)]
pub(crate) fn value_in(byte: u8) -> u64
    ensures { result ≡ (if is_ascii_hexdigit byte then digit_value byte else 16) }
{
    u64::from(VALUES[usize::from(byte)])
}

/// Whether a byte is a hexadecimal digit.
#[inline(always)]
pub(crate) fn is_digit(byte: u8) -> bool
    ensures { result ≡ is_ascii_hexdigit byte }
{
    value_in(byte) < 16
}

/// The value of a hexadecimal digit.
#[inline(always)]
pub(crate) fn digit_of(byte: u8) -> u64
    requires { IsTrue (is_ascii_hexdigit byte) }
    ensures value { result ≡ digit_value byte }
    ensures small { result < 16 }
{
    value_in(byte)
}

/// The number of a few bytes, where all of them are hexadecimal digits: two of them at a time.
#[inline(always)]
pub(crate) fn number_of(text: &[u8]) -> Option<u64>
    requires few { length text.now ≤ 16 }
    ensures { result ≡ (if list_all is_ascii_hexdigit text.now then Some (number (digit_bits text.now)) else None) }
{
    let pairs = text.len() / 2;
    let mut value = 0;
    for i in 0..pairs {
        let (high, low) = (text[2 * i], text[2 * i + 1]);
        if !is_digit(high) || !is_digit(low) {
            return None;
        }
        value = 256 * value + (16 * digit_of(high) + digit_of(low));
    }
    if text.len() % 2 == 0 {
        return Some(value);
    }
    let last = text[2 * pairs];
    if is_digit(last) {
        Some(16 * value + digit_of(last))
    } else {
        None
    }
}
