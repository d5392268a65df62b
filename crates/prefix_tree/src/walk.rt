//! All entries of the tree in order.

ghost use Rattle.std.specs.Prelude.{◌≡◌, ◌++◌, [], IsTrue, OnOk};
ghost use Rattle.std.specs.FinMap as map;
ghost use Rattle.prefix_tree.specs.Walk.{seen};
ghost use Rattle.prefix_tree.specs.Inside.Around.{own_entry, table_of, IsUnder};

use crate::node::{Link, Node};
use identity::Prefix;
use std::alloc::{AllocError, Allocator};

impl<V, A: Allocator> Node<V, A> {
    /// Adds the entries at and below this node in order.
    #[cycle(push)]
    pub(crate) fn push_entries<'t, B: Allocator>(
        &'t self,
        out: &mut Vec<(Prefix, &'t V), B>,
    ) -> Result<(), AllocError>
        requires { IsTrue self.now.sound }
        ensures { OnOk result (seen out.new.items ≡ seen out.old.items ++ map.entries self.now.table) }
    {
        self.push_own(out)?;
        Node::push_below(&self.zero, out)?;
        Node::push_below(&self.one, out)
    }

    // Adds the node's own entry, where it has one.
    fn push_own<'t, B: Allocator>(
        &'t self,
        out: &mut Vec<(Prefix, &'t V), B>,
    ) -> Result<(), AllocError>
        requires { IsTrue self.now.sound }
        ensures { OnOk result (seen out.new.items ≡ seen out.old.items ++ own_entry self.now.at (map.get self.now.table self.now.at)) }
    {
        if let Some(value) = &self.value {
            if out.push((self.at, value)).is_err() {
                return Err(AllocError);
            }
        }
        Ok(())
    }

    // Adds the entries that a link leads to, in order.
    #[cycle(push)]
    fn push_below<'t, B: Allocator>(
        link: &'t Option<Link<V, A>>,
        out: &mut Vec<(Prefix, &'t V), B>,
    ) -> Result<(), AllocError>
        requires { IsUnder [] link.now }
        ensures { OnOk result (seen out.new.items ≡ seen out.old.items ++ map.entries (table_of link.now)) }
    {
        match link {
            Some(node) => node.push_entries(out),
            None => Ok(()),
        }
    }
}
