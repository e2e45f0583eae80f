//! The items of a trace.
ghost use Rattle.std.specs.Prelude.{ℕ, ◌≡◌, ◌<◌, false};
ghost use Rattle.t1_event.specs.Items.{access_item, membar_item, flush_item};
ghost use Rattle.t1_core.specs.Stores.{store_op};
ghost use Rattle.t1_core.specs.Threads.{read_item, op_for, placed};
ghost use Rattle.t1_core.specs.Next.{AsksForWay};
ghost use Rattle.t1_core.specs.Takes.{is_fetch};

use t1_event::{How, Item, ItemKind};
use t1_exec::{AtomicOp, Need};
use t1_packet::Op;
use t1_sbuf::Entry;

/// An item at its place.
pub fn item(kind: ItemKind, addr: u64, size: u8, got: u64, put: u64, how: How) -> Item
    ensures { result ≡ placed (access_item kind addr size got put) how }
{
    Item {
        kind,
        addr,
        size,
        got,
        put,
        how,
    }
}

/// The item of a load or an atomic that got this value.
pub fn read_item(need: Need, value: u64, how: How) -> Item
    ensures { result ≡ placed (read_item need value) how }
{
    match need {
        Need::Load { addr, size } => item(ItemKind::Load, addr, size, value, 0, how),
        Need::Atomic {
            addr,
            size,
            op: AtomicOp::Swap(new),
        } => item(
            ItemKind::Atomic { wrote: true },
            addr,
            size,
            value,
            new,
            how,
        ),
        Need::Atomic {
            addr,
            size,
            op: AtomicOp::Cas { expect, new },
        } => {
            let wrote = value == expect;
            let put = if wrote { new } else { 0 };
            item(ItemKind::Atomic { wrote }, addr, size, value, put, how)
        }
        _ => item(ItemKind::Flush, 0, 0, 0, 0, how),
    }
}

/// What a load or an atomic asks of its destination.
pub fn op_for(need: Need, way: u8) -> Op
    ensures value { result ≡ op_for need way }
    ensures way { (ways : ℕ) → way < 4 → AsksForWay ways result }
    ensures data { is_fetch result ≡ false }
{
    match need {
        Need::Load { addr, size } => Op::Load { addr, size, way },
        Need::Atomic {
            addr,
            size,
            op: AtomicOp::Swap(new),
        } => Op::Swap { addr, size, new },
        Need::Atomic {
            addr,
            size,
            op: AtomicOp::Cas { expect, new },
        } => Op::Cas {
            addr,
            size,
            expect,
            new,
        },
        _ => Op::Cas {
            addr: 0,
            size: 0,
            expect: 0,
            new: 0,
        },
    }
}

/// What a store asks of its destination.
pub fn store_op(entry: &Entry) -> Op
    ensures { result ≡ store_op entry.now }
{
    Op::Store {
        addr: entry.addr,
        size: entry.size,
        value: entry.value,
    }
}

pub fn membar_item(mask: u8) -> Item
    ensures { result ≡ membar_item mask }
{
    item(ItemKind::Membar, 0, mask, 0, 0, How::Unplaced)
}

pub fn flush_item() -> Item
    ensures { result ≡ flush_item }
{
    item(ItemKind::Flush, 0, 0, 0, 0, How::Unplaced)
}
