//! Laws of the definitions, over all maps and paths.

ghost use Rattle.std.specs.Prelude.{◌≡◌, ◌≤◌, None, List, length};
ghost use Rattle.std.specs.Cmp.{IsTotalOrder};
ghost use Rattle.std.specs.declared.cmp.Ordering.{Ordering};
ghost use Rattle.std.specs.FinMap as map;
ghost use Rattle.identity.specs.Path.{Path};
ghost use Rattle.prefix_tree.specs.Following.{next_of, one_by_one, AreRising};
ghost use Rattle.prefix_tree.specs.Next.{followed};
ghost use Rattle.prefix_tree.specs.Table.{PathMap, NamesLongest, longest};

/// `longest` names an entry of the map that begins the path, and no longer prefix in the map does. It
/// names none only where no prefix in the map begins the path.
pub fn longest_is_the_longest<V>()
    ensures { (m : PathMap V) (q : Path) → NamesLongest m q (longest m q) }
{}

/// Going from none to the first entry, and from each entry to the next, finds all entries of the map in order, each
/// once.
pub fn next_comes_to_all<V>()
    ensures { (m : PathMap V) (n : _) → map.len m ≤ n → followed m n None ≡ map.entries m }
{}

/// The same of every list whose items rise by a key: going from none to the first item, and from each by its key to
/// the next, finds all items of the list in order, each once.
pub fn next_comes_through_a_list<K, X>()
    ensures { (cmp : K → K → Ordering) (key : X → K) (xs : List X) (n : _) → IsTotalOrder cmp → AreRising cmp key xs → length xs ≤ n →
        one_by_one (next_of cmp key xs) key n None ≡ xs }
{}
