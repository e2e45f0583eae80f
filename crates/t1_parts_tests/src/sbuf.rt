ghost use Rattle.std.specs.Prelude.{◌≡◌, ◌*◌, ◌<◌, ◌^◌, false};
ghost use Rattle.t1_num.specs.Memory.{IsSize};
ghost use Rattle.t1_sbuf.specs.Access.{IsAligned};
ghost use Rattle.t1_sbuf.specs.Entries.{IsStore};

use std::process::Abort;
use t1_sbuf::{Entry, Look, StoreBuffer};

/// A store to destination 2.
fn store(item: u32, addr: u64, size: u8, value: u64) -> Entry
    requires size { IsSize size }
    requires aligned { IsAligned addr size }
    requires fits { value < 2 ^ (8 * size) }
    ensures store { IsStore result }
    ensures unsent { result.sent ≡ false }
{
    Entry {
        item,
        addr,
        size,
        value,
        sent: false,
        dest: 2,
    }
}

/// The next store that may be sent is this one, and is sent.
fn send(rt: &impl Abort, buffer: &mut StoreBuffer, store: Entry) {
    match buffer.next_to_send() {
        Some(next) => {
            assert_eq!(rt; next, store);
            buffer.sent();
        }
        None => assert!(rt; false, "no store may be sent"),
    }
}

/// The oldest store is this one, is sent, and is acknowledged.
fn acknowledge(rt: &impl Abort, buffer: &mut StoreBuffer, store: Entry) {
    match buffer.oldest() {
        Some(Entry { sent: true, .. }) => {
            let acknowledged = buffer.ack();
            assert_eq!(rt;
                acknowledged,
                Entry {
                    sent: true,
                    ..store
                }
            );
        }
        _ => assert!(rt; false, "the oldest store is not sent"),
    }
}

#[test]
fn a_buffer_is_a_queue(rt: HostRuntime) {
    let mut buffer = StoreBuffer::new();
    assert!(rt; buffer.is_empty());
    assert_eq!(rt; buffer.next_to_send(), None);
    let first = store(3, 0x200, 8, 5);
    let second = store(5, 0x208, 1, 0xff);
    buffer.push(first);
    buffer.push(second);
    assert_eq!(rt; buffer.len(), 2);
    assert_eq!(rt; buffer.oldest(), Some(first));
    send(&rt, &mut buffer, first);
    send(&rt, &mut buffer, second);
    assert_eq!(rt; buffer.next_to_send(), None, "both are out");
    acknowledge(&rt, &mut buffer, first);
    assert_eq!(rt; buffer.next_to_send(), None);
    acknowledge(&rt, &mut buffer, second);
    assert!(rt; buffer.is_empty());
}

#[test]
fn a_store_to_another_destination_waits(rt: HostRuntime) {
    let mut buffer = StoreBuffer::new();
    let first = store(0, 0x200, 8, 1);
    let second = store(1, 0x208, 8, 2);
    let other = Entry {
        dest: 3,
        ..store(2, 0x240, 8, 3)
    };
    buffer.push(first);
    buffer.push(second);
    buffer.push(other);
    send(&rt, &mut buffer, first);
    send(&rt, &mut buffer, second);
    assert_eq!(rt;
        buffer.next_to_send(),
        None,
        "two are out to another destination"
    );
    acknowledge(&rt, &mut buffer, first);
    assert_eq!(rt; buffer.next_to_send(), None, "one still is");
    acknowledge(&rt, &mut buffer, second);
    send(&rt, &mut buffer, other);
    acknowledge(&rt, &mut buffer, other);
    assert!(rt; buffer.is_empty());
}

/// What a buffer says of an access of some bytes at an address.
type Row = (u64, u8, Look);

/// One store of the bytes 01 to 08 at 8 to 15.
const ONE: [Row; 16] = [
    (8, 8, Look::Covers(0x0102_0304_0506_0708)),
    (8, 4, Look::Covers(0x0102_0304)),
    (12, 4, Look::Covers(0x0506_0708)),
    (8, 2, Look::Covers(0x0102)),
    (10, 2, Look::Covers(0x0304)),
    (14, 2, Look::Covers(0x0708)),
    (8, 1, Look::Covers(1)),
    (11, 1, Look::Covers(4)),
    (15, 1, Look::Covers(8)),
    (0, 8, Look::Clear),
    (16, 8, Look::Clear),
    (4, 4, Look::Clear),
    (16, 4, Look::Clear),
    (6, 2, Look::Clear),
    (7, 1, Look::Clear),
    (16, 1, Look::Clear),
];

/// A store of four bytes at 12, one of two bytes at 18, and one of a byte at 21.
const PARTS: [Row; 19] = [
    (8, 8, Look::Overlaps(0)),
    (12, 4, Look::Covers(0xaabb_ccdd)),
    (12, 2, Look::Covers(0xaabb)),
    (14, 2, Look::Covers(0xccdd)),
    (13, 1, Look::Covers(0xbb)),
    (8, 4, Look::Clear),
    (16, 8, Look::Overlaps(2)),
    (16, 4, Look::Overlaps(1)),
    (18, 2, Look::Covers(0x1122)),
    (18, 1, Look::Covers(0x11)),
    (19, 1, Look::Covers(0x22)),
    (16, 2, Look::Clear),
    (20, 4, Look::Overlaps(2)),
    (20, 2, Look::Overlaps(2)),
    (21, 1, Look::Covers(0x77)),
    (20, 1, Look::Clear),
    (22, 2, Look::Clear),
    (22, 1, Look::Clear),
    (24, 8, Look::Clear),
];

/// Over the eight bytes of `ONE` a store of four bytes at 8 and one of a byte at 15.
const YOUNGER: [Row; 10] = [
    (8, 8, Look::Overlaps(2)),
    (8, 4, Look::Covers(0xa0a1_a2a3)),
    (12, 4, Look::Overlaps(2)),
    (12, 2, Look::Covers(0x0506)),
    (14, 2, Look::Overlaps(2)),
    (15, 1, Look::Covers(0xf0)),
    (14, 1, Look::Covers(7)),
    (10, 2, Look::Covers(0xa2a3)),
    (8, 1, Look::Covers(0xa0)),
    (11, 1, Look::Covers(0xa3)),
];

/// Over these a store of eight bytes at 8 and one of two bytes at 10.
const YOUNGEST: [Row; 8] = [
    (8, 8, Look::Overlaps(4)),
    (8, 4, Look::Overlaps(4)),
    (12, 4, Look::Covers(0x1516_1718)),
    (10, 2, Look::Covers(0xbeef)),
    (10, 1, Look::Covers(0xbe)),
    (9, 1, Look::Covers(0x12)),
    (15, 1, Look::Covers(0x18)),
    (8, 2, Look::Covers(0x1112)),
];

fn compare(rt: &impl Abort, buffer: &StoreBuffer, rows: &[Row]) {
    for (addr, size, want) in rows {
        if (*size == 1 || *size == 2 || *size == 4 || *size == 8) && *addr % *size as u64 == 0 {
            assert_eq!(rt; buffer.look(*addr, *size), *want, "{size} bytes at {addr}");
        } else {
            assert!(rt; false, "{size} bytes at {addr} are no access");
        }
    }
}

#[test]
fn the_youngest_overlapping_store_decides(rt: HostRuntime) {
    let mut buffer = StoreBuffer::new();
    assert_eq!(rt; buffer.look(8, 8), Look::Clear);
    buffer.push(store(0, 8, 8, 0x0102_0304_0506_0708));
    compare(&rt, &buffer, &ONE);
    buffer.push(store(1, 8, 4, 0xa0a1_a2a3));
    buffer.push(store(2, 15, 1, 0xf0));
    compare(&rt, &buffer, &YOUNGER);
    buffer.push(store(3, 8, 8, 0x1112_1314_1516_1718));
    assert_eq!(rt; buffer.look(8, 8), Look::Covers(0x1112_1314_1516_1718));
    buffer.push(store(4, 10, 2, 0xbeef));
    compare(&rt, &buffer, &YOUNGEST);
    let mut parts = StoreBuffer::new();
    parts.push(store(0, 12, 4, 0xaabb_ccdd));
    parts.push(store(1, 18, 2, 0x1122));
    parts.push(store(2, 21, 1, 0x77));
    compare(&rt, &parts, &PARTS);
    let mut high = StoreBuffer::new();
    high.push(store(0, 0xffff_ffff_ffff_fff8, 8, 9));
    assert_eq!(rt; high.look(0xffff_ffff_ffff_fff8, 8), Look::Covers(9));
    assert_eq!(rt; high.look(0, 8), Look::Clear);
}
