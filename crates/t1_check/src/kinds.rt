//! Kinds of items.
ghost use Rattle.std.specs.Prelude.{◌≡◌};
ghost use Rattle.t1_event.specs.Kinds.{is_read, is_write, is_access, is_changing};
ghost use Rattle.t1_check.specs.Bounds.{is_fetch, is_barrier};

use t1_event::{Item, ItemKind};

pub(crate) fn is_read(kind: ItemKind) -> bool
    ensures { result ≡ is_read kind }
{
    match kind {
        ItemKind::Fetch | ItemKind::Load | ItemKind::Atomic { .. } => true,
        ItemKind::Store | ItemKind::Membar | ItemKind::Flush => false,
    }
}

pub(crate) fn is_write(kind: ItemKind) -> bool
    ensures { result ≡ is_write kind }
{
    match kind {
        ItemKind::Store | ItemKind::Atomic { .. } => true,
        ItemKind::Fetch | ItemKind::Load | ItemKind::Membar | ItemKind::Flush => false,
    }
}

pub(crate) fn is_access(kind: ItemKind) -> bool
    ensures { result ≡ is_access kind }
{
    match kind {
        ItemKind::Membar | ItemKind::Flush => false,
        ItemKind::Fetch | ItemKind::Load | ItemKind::Store | ItemKind::Atomic { .. } => true,
    }
}

pub(crate) fn is_changing(kind: ItemKind) -> bool
    ensures { result ≡ is_changing kind }
{
    match kind {
        ItemKind::Store => true,
        ItemKind::Atomic { wrote } => wrote,
        ItemKind::Fetch | ItemKind::Load | ItemKind::Membar | ItemKind::Flush => false,
    }
}

pub(crate) fn is_fetch(kind: ItemKind) -> bool
    ensures { result ≡ is_fetch kind }
{
    match kind {
        ItemKind::Fetch => true,
        _ => false,
    }
}

/// A flush, or a membar whose mask has StoreLoad, MemIssue or Sync.
pub(crate) fn is_barrier(item: &Item) -> bool
    ensures { result ≡ is_barrier item.now.kind item.now.size }
{
    match item.kind {
        ItemKind::Flush => true,
        ItemKind::Membar => item.size & 0x62 != 0,
        ItemKind::Fetch | ItemKind::Load | ItemKind::Store | ItemKind::Atomic { .. } => false,
    }
}
