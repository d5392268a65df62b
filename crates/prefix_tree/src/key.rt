//! Prefixes as keys of an ordered map.

ghost use Rattle.std.specs.Prelude.{◌≡◌, Some, refl};
ghost use Rattle.std.specs.Ordering.{eq_by_cmp};
ghost use Rattle.std.specs.Cmp.{partial_equiv_from_equiv, partial_order_from_total};
ghost use Rattle.std.proofs.lemmas.Cmp.{eq_by_cmp_equiv};
ghost use Rattle.identity.specs.Path.{path_cmp};
ghost use Rattle.identity.specs.Inside.PathLaws.{paths_total};

use crate::path::prefix_order;
use identity::Prefix;
use std::cmp::Ordering;
use std::marker::Model;

/// A prefix as a key of an ordered map: a prefix before its extensions, and else by the first bit that differs.
#[derive(Clone, Copy)]
pub(crate) struct Key {
    prefix: Prefix,
}

impl Model for Key {
    ghost use Rattle.std.specs.Prelude.{List, Bool, refl};

    ghost Value = { List Bool };

    ghost view = { λ k. k.prefix };

    ghost inverse = { λ p. record { prefix = p } };

    ghost inverse_ok = { λ _ _. refl };
}

impl Key {
    pub(crate) fn new(prefix: &Prefix) -> Key
        ensures { result ≡ prefix.now }
    {
        Key { prefix: *prefix }
    }
}

impl PartialEq for Key {
    ghost eq = { eq_by_cmp path_cmp };

    ghost laws = { partial_equiv_from_equiv (eq_by_cmp_equiv paths_total) };

    fn eq(&self, other: &Self) -> bool {
        prefix_order(&self.prefix, &other.prefix).is_eq()
    }
}

impl Eq for Key {
    ghost laws = { eq_by_cmp_equiv paths_total };
}

impl PartialOrd for Key {
    ghost partial_cmp = { λ x y. Some (path_cmp x y) };

    ghost laws = { partial_order_from_total paths_total };

    fn partial_cmp(&self, other: &Self) -> Option<Ordering> {
        Some(self.cmp(other))
    }
}

impl Ord for Key {
    ghost cmp = { path_cmp };

    ghost total = { paths_total };

    ghost matches_partial_cmp = { λ x y. refl };

    ghost matches_eq = { λ x y. refl };

    fn cmp(&self, other: &Self) -> Ordering {
        prefix_order(&self.prefix, &other.prefix)
    }
}
