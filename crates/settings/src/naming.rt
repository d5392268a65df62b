//! The names of the stations' files, each with its station's number.
ghost use Rattle.std.specs.Prelude.{◌≡◌, ◌≢◌, ℕ, ◌<◌, ◌≤◌, ◌+◌, ◌++◌, ◌∷◌, [], length, take, slice_index_or};
ghost use Rattle.std.specs.Prelude.{unwrap_or, option_map, true, false, Some, None, IfOk, IfErr, OnOk};
ghost use Rattle.indexmap.specs.IndexMap.{index_map_len};
ghost use Rattle.settings.specs.declared.naming.NameFault.TheVariants.{NoMemory};
ghost use Rattle.settings.specs.Naming.{first_twice, is_among, names_of, placed, entries_of, texts};

use indexmap::IndexMap;
use std::alloc::{AllocError, AllocFailed, Allocator};
use std::hash::{BuildHasherDefault, FoldHasher};
use thiserror::Error;

/// Names in order, each with its place, the first at 1.
pub type Places<A> = IndexMap<String<A>, usize, BuildHasherDefault<FoldHasher>, A>;

/// Why names are refused.
#[derive(Clone, Copy, Debug, PartialEq, Eq, Drop, Error)]
pub enum NameFault {
    /// The name at this place, counted from 1, is at an earlier place too. It is the first such place.
    #[error("the name at place {0} stood earlier")]
    Twice(usize),
    /// Memory ran out.
    #[error("out of memory")]
    NoMemory,
}

impl From<AllocError> for NameFault {
    ghost from_gives = { λ _ fault. fault ≡ NoMemory };

    fn from(_error: AllocError) -> NameFault {
        NameFault::NoMemory
    }
}

impl<T: Drop> From<AllocFailed<T>> for NameFault {
    ghost from_gives = { λ _ fault. fault ≡ NoMemory };

    fn from(_error: AllocFailed<T>) -> NameFault {
        NameFault::NoMemory
    }
}

/// The names in order, each with its place, the first at 1. Names are compared byte by byte. The files are not looked
/// at: one file may have two names.
///
/// # Errors
/// `Twice` with the first place whose name is at an earlier place too. `NoMemory` only where there is no such place.
pub fn name_files<A: Allocator + Copy>(alloc: A, names: &[&str]) -> Result<Places<A>, NameFault>
    ensures named { IfOk result (λ places. entries_of places ≡ placed (texts names.now)) }
    ensures distinct { OnOk result (first_twice (texts names.now) ≡ None) }
    ensures refused { IfErr result (λ fault. fault ≡ unwrap_or (option_map NameFault.Twice (first_twice (texts names.now))) NoMemory) }
    ensures within { IfErr result (λ fault. (place : ℕ) → fault ≡ NameFault.Twice place → (1 ≤ place) × (place ≤ length names.now)) }
{
    match place_all(alloc, names) {
        Err(NameFault::NoMemory) => match first_twice(names) {
            Some(place) => Err(NameFault::Twice(place)),
            None => Err(NameFault::NoMemory),
        },
        answer => answer,
    }
}

/// The same, but memory may run out before a repeated name is found.
fn place_all<A: Allocator + Copy>(alloc: A, names: &[&str]) -> Result<Places<A>, NameFault>
    ensures named { IfOk result (λ places. entries_of places ≡ placed (texts names.now)) }
    ensures distinct { OnOk result (first_twice (texts names.now) ≡ None) }
    ensures refused { IfErr result (λ fault. fault ≢ NoMemory → option_map NameFault.Twice (first_twice (texts names.now)) ≡ Some fault) }
{
    let mut places = IndexMap::new(alloc);
    for name in names {
        add(&mut places, name)?;
    }
    Ok(places)
}

/// Appends a name with the next place.
fn add<A: Allocator + Copy>(places: &mut Places<A>, name: &str) -> Result<(), NameFault>
    ensures added { OnOk result (entries_of places.new ≡ entries_of places.old ++ (index_map_len places.old + 1, name.now) ∷ []) }
    ensures new { OnOk result (is_among (names_of (entries_of places.old)) name.now ≡ false) }
    ensures refused { IfErr result (λ fault. fault ≢ NoMemory
        → (fault ≡ NameFault.Twice (index_map_len places.old + 1)) × (is_among (names_of (entries_of places.old)) name.now ≡ true)) }
{
    let place = places.len() + 1;
    if places.contains_key(name) {
        return Err(NameFault::Twice(place));
    }
    let key = String::from_str(*places.allocator(), name)?;
    places.insert(key, place)?;
    Ok(())
}

/// The first place whose name is at an earlier place too. It takes no memory.
fn first_twice(names: &[&str]) -> Option<usize>
    ensures { result ≡ first_twice (texts names.now) }
{
    for index in 0..names.len() {
        if came_earlier(names, index) {
            return Some(index + 1);
        }
    }
    None
}

/// Whether the name at this index is at an earlier index too.
fn came_earlier(names: &[&str], index: usize) -> bool
    requires { index < length names.now }
    ensures { result ≡ is_among (take index (texts names.now)) (slice_index_or (texts names.now) index []) }
{
    names[..index].contains(&names[index])
}
