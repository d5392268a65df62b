//! What holds of the definitions alone: each law is the contract of a function that does nothing.

ghost use Rattle.std.specs.Prelude.{◌≡◌, ◌≤◌, ℕ, None, length};
ghost use Rattle.std.specs.List.{AllPairs, filter};
ghost use Rattle.prefix_tree.specs.Following.{one_by_one};
ghost use Rattle.mailbox.specs.Values.{Mailed};
ghost use Rattle.mailbox.specs.Item.{is_expired};
ghost use Rattle.mailbox.specs.Order.{IsBefore, named, next_item, next_due};
ghost use Rattle.mailbox.specs.Sound.{IsMail};
ghost use Rattle.mailbox.specs.Laws.{EmptyIsMail, MoreIsMail, RemovalIsMail, PostIsMail, ReportIsMail, GroupPostIsMail, NewComesLast, ItemsAreTexts};

use crate::Mail;
use std::alloc::Allocator;

/// What holds of every mail: it holds of the empty one, and each effect keeps it.
pub fn mails()
    ensures empty { EmptyIsMail }
    ensures more { MoreIsMail }
    ensures removal { RemovalIsMail }
    ensures post { PostIsMail }
    ensures report { ReportIsMail }
    ensures group { GroupPostIsMail }
    ensures last { NewComesLast }
{}

/// What waits is in order of number, then of key.
pub fn in_order<A: Allocator>(mail: &Mail<A>)
    ensures { AllPairs IsBefore mail.now.items }
{
    mail.facts_of_order()
}

/// The PDU of each item of such a mail is the written text of an SDS-TRANSFER or SDS-REPORT.
pub fn items_are_texts<A: Allocator>()
    ensures { ItemsAreTexts A }
{}

/// `next` visits all that waits in order, each item once: first from `None`, then from the number and key of each
/// to the next.
pub fn next_comes_to_all()
    ensures { (count : ℕ) (m : Mailed) (n : _) → IsMail count m → length m.items ≤ n → one_by_one (next_item m) named n None ≡ m.items }
{}

/// `next_due` visits all items whose deadline is at most the moment in order, each item once: first from `None`, then
/// from the number and key of each to the next.
pub fn next_due_comes_to_all()
    ensures { (count moment : ℕ) (m : Mailed) (n : _) → IsMail count m → length m.items ≤ n
        → one_by_one (next_due m moment) named n None ≡ filter (is_expired moment) m.items }
{}
