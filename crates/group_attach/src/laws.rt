//! What holds of the definitions alone: each law is the contract of a function that does nothing.

ghost use Rattle.std.specs.Prelude.{◌≡◌, ◌≤◌, ℕ, None, length};
ghost use Rattle.std.specs.Ordering.{nat_cmp};
ghost use Rattle.prefix_tree.specs.Following.{next_of, one_by_one};
ghost use Rattle.group_attach.specs.Attached.{Attached, groups_of};
ghost use Rattle.group_attach.specs.Allowed.{EmptyIsAllowed, AllowedAfterUpdates, AllowedAfterPdus};

/// No radio has too many groups, and the register knows the radio of each attachment. This holds of no
/// attachments, and each effect keeps it.
pub fn effects_are_allowed()
    ensures empty { EmptyIsAllowed }
    ensures updates { AllowedAfterUpdates }
    ensures pdus { AllowedAfterPdus }
{}

/// `next_of` visits all attachments of a radio in order, each once: first from `None`, then from the group of
/// each to the next.
pub fn next_comes_to_all_of_a_radio()
    ensures { (m : Attached) (itsi : ℕ) (n : _) → length (groups_of m itsi) ≤ n
        → one_by_one (next_of nat_cmp (λ a. a.gtsi) (groups_of m itsi)) (λ a. a.gtsi) n None ≡ groups_of m itsi }
{}
