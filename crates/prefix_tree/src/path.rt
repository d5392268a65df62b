//! Two prefixes compared.

ghost use Rattle.std.specs.Prelude.{◌≡◌, ◌<◌, ◌≤◌, ◌++◌, ◌∷◌, [], length, IsTrue};
ghost use Rattle.identity.specs.Path.{begins, path_cmp};
ghost use Rattle.prefix_tree.specs.Inside.Paths.{common};

use identity::Prefix;
use std::cmp::Ordering;

/// The order in which a map has its prefixes: a prefix before its extensions, and else by the first bit that differs.
pub fn prefix_order(left: &Prefix, right: &Prefix) -> Ordering
    ensures { result ≡ path_cmp left.now right.now }
{
    let by_bits = left.bits().cmp(&right.bits());
    by_bits.then(left.len().cmp(&right.len()))
}

/// Whether the first prefix begins the second.
pub(crate) fn begins(short: &Prefix, long: &Prefix) -> bool
    ensures { result ≡ begins short.now long.now }
{
    short.len() <= long.len() && long.number() >> (long.len() - short.len()) == short.number()
}

/// The bit of the second prefix that comes after the first, which begins it.
pub(crate) fn side(short: &Prefix, long: &Prefix) -> bool
    requires within { IsTrue (begins short.now long.now) }
    requires shorter { length short.now < length long.now }
    ensures { IsTrue (begins (short.now ++ result ∷ []) long.now) }
{
    (long.number() >> (long.len() - short.len() - 1)) % 2 == 1
}

/// The longest prefix that begins both.
pub(crate) fn common(one: &Prefix, other: &Prefix) -> Prefix
    ensures { result ≡ common one.now other.now }
{
    let len = if one.len() < other.len() {
        one.len()
    } else {
        other.len()
    };
    let mut at = len;
    let mut a = one.number() >> (one.len() - len);
    let mut b = other.number() >> (other.len() - len);
    while a != b && at > 0 {
        a >>= 1;
        b >>= 1;
        at -= 1;
    }
    Prefix::of(a << (48 - at), at)
}
