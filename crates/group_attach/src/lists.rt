//! Lists of attachments under paths.

ghost use Rattle.std.specs.Prelude.{◌≡◌, ◌<◌, OnOk, OnErr, IfOk, IfSome, IfNone, IsOk, IsSome};
ghost use Rattle.std.specs.Option.{option_copied, is_some};
ghost use Rattle.std.specs.FinMap as finite;
ghost use Rattle.group_attach.specs.Attached.{attachment_at, pair_of, attached};
ghost use Rattle.group_attach.specs.Inside.Filed.{under, placed, ended};

use crate::Attachment;
use crate::attachments::AttachmentList;
use crate::ending::Ending;
use base::TryCopy;
use identity::{Itsi, Prefix};
use prefix_tree::LazyMap;
use std::alloc::{AllocError, Allocator};
use std::marker::Model;

/// Lists of attachments under paths.
#[derive(Drop)]
pub(crate) struct Lists<A: Allocator> {
    lists: LazyMap<AttachmentList<A>, A>,
}

impl<A: Allocator> Model for Lists<A> {
    ghost use Rattle.prefix_tree.specs.Table.{coded_table};
    ghost use Rattle.group_attach.specs.Attached.{coded_attached};
    ghost use Rattle.group_attach.specs.Inside.Filed.{Filed};

    ghost Value = { Filed };

    ghost coded = { coded_table coded_attached };

    ghost view = { λ l. l.lists };
}

impl<A: Allocator> Lists<A> {
    /// No list.
    pub(crate) fn new() -> Self
        ensures { result ≡ finite.empty }
    {
        Lists {
            lists: LazyMap::new(),
        }
    }

    /// The list under the path.
    pub(crate) fn find(&self, path: &Prefix) -> Option<&AttachmentList<A>>
        ensures { option_copied result ≡ finite.get self.now path.now }
    {
        self.lists.find(path)
    }

    /// Removes the list under the path, and returns it.
    pub(crate) fn take(&mut self, path: &Prefix) -> Option<AttachmentList<A>>
        ensures before { result ≡ finite.get self.old path.now }
        ensures removed { self.new ≡ finite.remove self.old path.now }
    {
        self.lists.take(path)
    }

    /// Removes the list under the path.
    pub(crate) fn clear(&mut self, path: &Prefix)
        ensures { self.new ≡ finite.remove self.old path.now }
    {
        let _ = self.take(path);
    }

    /// Removes what this ends from the list under the path, and the list if it is then empty. It takes no
    /// memory.
    pub(crate) fn end(&mut self, path: &Prefix, itsi: Itsi, ending: Ending)
        ensures { self.new ≡ placed self.old path.now (ended (under self.old path.now) itsi ending) }
    {
        end_under(&mut self.lists, path, itsi, ending);
    }
}

impl<A: Allocator + Clone> Lists<A> {
    /// Adds the attachment to the list under the path, or replaces the one of the same pair there and returns
    /// that one. Replacing takes no memory.
    pub(crate) fn attach(
        &mut self,
        alloc: &A,
        path: Prefix,
        attachment: Attachment,
    ) -> Result<Option<Attachment>, AllocError>
        ensures before { IfOk result (λ before. before ≡ attachment_at (under self.old path) (pair_of attachment)) }
        ensures ok { OnOk result (self.new ≡ finite.insert self.old path (attached (under self.old path) attachment)) }
        ensures err { OnErr result (self.new ≡ self.old) }
        ensures overwrites { IsSome (finite.get (under self.old path) (pair_of attachment)) → IsOk result }
    {
        if let Some(tried) = attach_there(&mut self.lists, &path, attachment) {
            return tried;
        }
        let list = AttachmentList::one(alloc.clone()?, attachment)?;
        self.lists.insert(alloc, path, list)?;
        Ok(None)
    }

    /// Sets the list under the path, and returns the one before. An empty list is not stored. It takes
    /// memory only where there was none.
    pub(crate) fn set(
        &mut self,
        alloc: &A,
        path: Prefix,
        list: AttachmentList<A>,
    ) -> Result<Option<AttachmentList<A>>, AllocError>
        ensures before { IfOk result (λ before. before ≡ finite.get self.old path) }
        ensures ok { OnOk result (self.new ≡ placed self.old path list) }
        ensures err { OnErr result (self.new ≡ self.old) }
        ensures overwrites { IsSome (finite.get self.old path) → IsOk result }
        ensures clears { finite.len list ≡ 0 → IsOk result }
    {
        if list.is_empty() {
            Ok(self.take(&path))
        } else {
            self.lists.insert(alloc, path, list)
        }
    }
}

impl<A: Allocator + Clone> TryCopy for Lists<A> {
    fn try_copy(&self) -> Result<Self, AllocError> {
        Ok(Lists {
            lists: self.lists.try_copy()?,
        })
    }
}

// Attaches in the list under the path; `None` where there is no list.
fn attach_there<A: Allocator>(
    lists: &mut LazyMap<AttachmentList<A>, A>,
    path: &Prefix,
    attachment: Attachment,
) -> Option<Result<Option<Attachment>, AllocError>>
    ensures before { IfSome result (λ r. IfOk r (λ before. before ≡ attachment_at (under lists.old path.now) (pair_of attachment))) }
    ensures there { is_some result ≡ is_some (finite.get lists.old path.now) }
    ensures ok { IfSome result (λ r. OnOk r (lists.new ≡ finite.insert lists.old path.now (attached (under lists.old path.now) attachment))) }
    ensures err { IfSome result (λ r. OnErr r (lists.new ≡ lists.old)) }
    ensures absent { IfNone result (lists.new ≡ lists.old) }
    ensures overwrites { IsSome (finite.get (under lists.old path.now) (pair_of attachment)) → IfSome result (λ r. IsOk r) }
{
    lists.change(path, |list| list.with(attachment))
}

// Removes what this ends from the list under the path, and the list if it is then empty.
fn end_under<A: Allocator>(
    lists: &mut LazyMap<AttachmentList<A>, A>,
    path: &Prefix,
    itsi: Itsi,
    ending: Ending,
)
    ensures { lists.new ≡ placed lists.old path.now (ended (under lists.old path.now) itsi ending) }
{
    let _ = lists.change(path, |list| ((), list.without_ended(itsi, ending)));
}
