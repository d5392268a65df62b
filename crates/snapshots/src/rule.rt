//! The rule of the views: the published copy is the register after its list. That list begins with what each view has seen.
use crate::log::Centre;
use crate::snapshot::{Change, Snapshot};
use centre_core::Command;
use crossbeam_utils::rule::{Outcome, Protocol};
use left_right::reader::{Reader, Reading};
use left_right::writer::Writer;
use std::alloc::Global;
use std::collections::LinkedList;
use std::marker::PhantomData;

/// What the publisher or a viewer has seen. No value of it is made.
pub struct CopyView {
    pub seen: LinkedList<Command<Global>>,
}

pub struct ViewsRule<J: Centre> {
    of: PhantomData<J>,
}

impl<J: Centre> Protocol<Snapshot, CopyView> for ViewsRule<J> {
    ghost use Rattle.std.specs.Prelude.{[]};
    ghost use Rattle.snapshots.specs.Views.{IsSeenBy, view_with};

    ghost holds = { IsSeenBy J.base J.book };

    ghost first = { view_with [] };
}

/// One entry of a viewer, or one publication.
pub struct Sees<J: Centre> {
    of: PhantomData<J>,
}

impl<J: Centre> Outcome<Snapshot, CopyView> for Sees<J> {
    ghost use Rattle.snapshots.specs.Views.{Sees};

    ghost then = { λ v x y w. Sees J.base J.book v y w };
}

pub type SnapshotReader<J> = Reader<Snapshot, CopyView, ViewsRule<J>>;

pub type Inside<J> = Reading<Snapshot, CopyView, ViewsRule<J>>;

pub type SnapshotWriter<J> = Writer<Snapshot, Change, CopyView, ViewsRule<J>>;
