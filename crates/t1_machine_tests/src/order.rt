use crate::checked::{are_orderable, items_in};
use std::alloc::{AllocError, Global};
use std::process::Abort;
use t1_elf::Listed;
use t1_event::{Commit, How, Item, ItemKind, Place, Trace};
use t1_order::order_of;
use t1_packet::{Kills, Op};

/// An access or a barrier that the order does not look into, with its place.
fn item(kind: ItemKind, how: How) -> Item {
    Item {
        kind,
        addr: 0,
        size: 4,
        got: 0,
        put: 0,
        how,
    }
}

fn hit(time: u32) -> Item {
    item(ItemKind::Fetch, How::Hit { time })
}

fn forwarded(time: u32) -> Item {
    item(ItemKind::Load, How::Forward { time })
}

fn commit(kind: ItemKind, index: u32, seen: u32) -> Item {
    item(kind, How::Commit { index, seen })
}

fn trace(alloc: Global, items: &[Item]) -> Result<Trace, AllocError> {
    Ok(Trace {
        items: Listed::from_vec(Vec::from_slice(alloc, items)?),
        units: 0,
        pc: 0,
        ending: None,
    })
}

/// The record of a commit: its strand, its item, and its core's time when it was sent.
fn record(strand: u8, item: u32, seen: u32) -> Commit {
    Commit {
        dest: 0,
        strand,
        item,
        op: Op::Fetch { addr: 0, way: 0 },
        seen,
        old: 0,
        way: None,
        evicted: None,
        kills: Kills::new(),
    }
}

/// The strands and items of the memory order of these strands, whose commits are these.
fn ordered(
    rt: &impl Abort,
    alloc: Global,
    strands: &[&[Item]],
    commits: &[(u8, u32, u32)],
) -> Result<Vec<(u8, u32)>, AllocError> {
    let mut traces = Vec::new(alloc);
    for items in strands {
        traces.push(trace(alloc, items)?)?;
    }
    let mut log = Vec::new(alloc);
    for (strand, item, seen) in commits {
        log.push(record(*strand, *item, *seen))?;
    }
    assert!(rt; are_orderable(&traces, &log), "a row that is no run");
    let Some(count) = items_in(&traces) else {
        return Ok(Vec::new(alloc));
    };
    let mut out = Vec::with_capacity(alloc, count)?;
    order_of(&traces, &log, &mut out);
    let mut places = Vec::new(alloc);
    for place in out.as_slice() {
        places.push((place.strand, place.item))?;
    }
    Ok(places)
}

#[test]
fn orders_ascend_by_keys(rt: HostRuntime) -> Result<(), AllocError> {
    let alloc = rt.alloc();
    let fetched = [
        commit(ItemKind::Fetch, 0, 0),
        hit(1),
        commit(ItemKind::Store, 1, 1),
        hit(1),
        commit(ItemKind::Load, 2, 2),
        hit(3),
    ];
    let got = ordered(&rt, alloc, &[&fetched], &[(0, 0, 0), (0, 2, 1), (0, 4, 2)])?;
    let want = [(0, 0), (0, 1), (0, 3), (0, 2), (0, 4), (0, 5)];
    assert_eq!(rt;
        got.as_slice(),
        want.as_slice(),
        "a store that the next fetch does not wait for"
    );

    let buffered = [
        commit(ItemKind::Fetch, 0, 0),
        hit(1),
        commit(ItemKind::Store, 1, 1),
        hit(1),
        forwarded(1),
        hit(1),
    ];
    let got = ordered(&rt, alloc, &[&buffered], &[(0, 0, 0), (0, 2, 1)])?;
    let want = [(0, 0), (0, 1), (0, 3), (0, 4), (0, 5), (0, 2)];
    assert_eq!(rt;
        got.as_slice(),
        want.as_slice(),
        "a store that a load forwards from"
    );

    let first = [
        commit(ItemKind::Fetch, 0, 0),
        item(ItemKind::Membar, How::Unplaced),
        hit(2),
        hit(2),
        commit(ItemKind::Store, 3, 2),
    ];
    let second = [
        commit(ItemKind::Fetch, 1, 0),
        hit(2),
        commit(ItemKind::Atomic { wrote: true }, 2, 2),
        item(ItemKind::Flush, How::Hit { time: 0 }),
        forwarded(4),
        hit(9),
    ];
    let commits = [(0, 0, 0), (1, 0, 0), (1, 2, 2), (0, 4, 2)];
    let got = ordered(&rt, alloc, &[&first, &second], &commits)?;
    let want = [
        (0, 0),
        (1, 0),
        (0, 2),
        (0, 3),
        (1, 1),
        (1, 2),
        (0, 4),
        (1, 4),
        (1, 5),
    ];
    assert_eq!(rt;
        got.as_slice(),
        want.as_slice(),
        "two strands, with barriers and equal times"
    );
    Ok(())
}

#[test]
fn strands_take_turns_at_one_time(rt: HostRuntime) -> Result<(), AllocError> {
    let alloc = rt.alloc();
    let pair = [hit(5), hit(7)];
    let strands: [&[Item]; 64] = [&pair; 64];
    let got = ordered(&rt, alloc, &strands, &[])?;
    let mut want = Vec::new(alloc);
    for item in 0..2 {
        for strand in 0..64 {
            want.push((strand, item))?;
        }
    }
    assert_eq!(rt; got.as_slice(), want.as_slice());
    Ok(())
}
