//! What holds of the definitions alone: each law is the contract of a function that does nothing.

ghost use Rattle.std.specs.Prelude.{◌≡◌, ◌↔◌, None, IsSome};
ghost use Rattle.mm_pdus.specs.declared.update.LocationUpdateType.{LocationUpdateType};
ghost use Rattle.mm_pdus.specs.Values.{accept_of};
ghost use Rattle.registration.specs.Registered.{type_refusal};

/// The types that are not refused are those with which an update is accepted.
pub fn accepted_types()
    ensures { (update : LocationUpdateType) → (type_refusal update ≡ None) ↔ IsSome (accept_of update) }
{}
