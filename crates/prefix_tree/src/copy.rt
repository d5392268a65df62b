//! Copies of the tree: its entries as a list, and the whole tree in new boxes.

ghost use Rattle.std.specs.Prelude.{◌≡◌, ◌++◌, [], IsTrue, IfOk, OnOk};
ghost use Rattle.std.specs.FinMap as map;
ghost use Rattle.prefix_tree.specs.Inside.Around.{own_entry, table_of, IsUnder};

use crate::node::{Link, Node};
use base::TryCopy;
use identity::Prefix;
use std::alloc::{AllocError, Allocator};

impl<V: TryCopy + Drop, A: Allocator> Node<V, A> {
    /// Adds the entries at and below this node in order, with copies of their values.
    #[cycle(copy)]
    pub(crate) fn copy_entries<B: Allocator>(
        &self,
        out: &mut Vec<(Prefix, V), B>,
    ) -> Result<(), AllocError>
        requires { IsTrue self.now.sound }
        ensures { OnOk result (out.new.items ≡ out.old.items ++ map.entries self.now.table) }
    {
        self.copy_own(out)?;
        Node::copy_below(&self.zero, out)?;
        Node::copy_below(&self.one, out)
    }

    // Adds the node's own entry, where it has one.
    fn copy_own<B: Allocator>(&self, out: &mut Vec<(Prefix, V), B>) -> Result<(), AllocError>
        requires { IsTrue self.now.sound }
        ensures { OnOk result (out.new.items ≡ out.old.items ++ own_entry self.now.at (map.get self.now.table self.now.at)) }
    {
        if let Some(value) = &self.value {
            out.push((self.at, value.try_copy()?))?;
        }
        Ok(())
    }

    // Adds the entries that a link leads to, in order.
    #[cycle(copy)]
    fn copy_below<B: Allocator>(
        link: &Option<Link<V, A>>,
        out: &mut Vec<(Prefix, V), B>,
    ) -> Result<(), AllocError>
        requires { IsUnder [] link.now }
        ensures { OnOk result (out.new.items ≡ out.old.items ++ map.entries (table_of link.now)) }
    {
        match link {
            Some(node) => node.copy_entries(out),
            None => Ok(()),
        }
    }
}

impl<V: TryCopy + Drop, A: Allocator + Clone> Node<V, A> {
    /// The same node again, in boxes of its own.
    pub(crate) fn try_copy(&self, alloc: &A) -> Result<Self, AllocError>
        ensures { IfOk result (λ copy. copy ≡ self.now) }
    {
        let value = match &self.value {
            Some(value) => Some(value.try_copy()?),
            None => None,
        };
        let zero = match &self.zero {
            Some(node) => Some(Box::new(alloc.clone()?, node.try_copy(alloc)?)?),
            None => None,
        };
        let one = match &self.one {
            Some(node) => Some(Box::new(alloc.clone()?, node.try_copy(alloc)?)?),
            None => None,
        };
        Ok(Node {
            at: self.at,
            value,
            zero,
            one,
        })
    }
}
