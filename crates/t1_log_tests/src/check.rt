//! Orders that hold and orders that are broken, over a few strands each. An order is a list of numbers,
//! ten times the strand plus the item.

use crate::checked::can_be_checked;
use std::alloc::{AllocError, Global};
use std::process::Abort;
use t1_check::{Axiom, Verdict, check};
use t1_elf::{Image, Listed};
use t1_event::{Config, How, Item, ItemKind, Place, Report, Trace};
use t1_num::ChipKind;

/// A kind, an address, a size or mask, the value got and the value put.
type Access = (ItemKind, u64, u8, u64, u64);

/// An order, the axiom that it breaks first, and the two places.
type Row = (&'static [u8], Axiom, u8, Option<u8>);

const PROGRAM: &[&[Access]] = &[&[
    (ItemKind::Fetch, 0x100, 4, 0x82102005, 0),
    (ItemKind::Fetch, 0x104, 4, 0xc2702200, 0),
    (ItemKind::Store, 0x200, 8, 0, 0x5),
    (ItemKind::Fetch, 0x108, 4, 0xc4582200, 0),
    (ItemKind::Load, 0x200, 8, 0x5, 0),
    (ItemKind::Fetch, 0x10c, 4, 0xb5802000, 0),
]];

const PROGRAM_HOLDS: &[&[u8]] = &[&[0, 1, 2, 3, 4, 5], &[0, 1, 3, 2, 4, 5]];

const PROGRAM_BREAKS: &[Row] = &[
    (&[1, 0, 2, 3, 4, 5], Axiom::LoadOp, 0, Some(1)),
    (&[2, 0, 1, 3, 4, 5], Axiom::LoadOp, 0, Some(2)),
    (&[3, 0, 1, 2, 4, 5], Axiom::LoadOp, 0, Some(3)),
    (&[4, 0, 1, 2, 3, 5], Axiom::LoadOp, 0, Some(4)),
    (&[5, 0, 1, 2, 3, 4], Axiom::LoadOp, 0, Some(5)),
    (&[0, 2, 1, 3, 4, 5], Axiom::LoadOp, 1, Some(2)),
    (&[0, 3, 1, 2, 4, 5], Axiom::LoadOp, 1, Some(3)),
    (&[0, 4, 1, 2, 3, 5], Axiom::LoadOp, 1, Some(4)),
    (&[0, 5, 1, 2, 3, 4], Axiom::LoadOp, 1, Some(5)),
    (&[0, 1, 2, 4, 3, 5], Axiom::LoadOp, 3, Some(4)),
    (&[0, 1, 2, 5, 3, 4], Axiom::LoadOp, 3, Some(5)),
    (&[0, 1, 2, 3, 5, 4], Axiom::LoadOp, 4, Some(5)),
    (&[0, 1, 4, 2, 3, 5], Axiom::LoadOp, 3, Some(4)),
];

const WRONG_LOAD: &[&[Access]] = &[&[
    (ItemKind::Fetch, 0x100, 4, 0x82102005, 0),
    (ItemKind::Fetch, 0x104, 4, 0xc2702200, 0),
    (ItemKind::Store, 0x200, 8, 0, 0x5),
    (ItemKind::Fetch, 0x108, 4, 0xc4582200, 0),
    (ItemKind::Load, 0x200, 8, 0x6, 0),
    (ItemKind::Fetch, 0x10c, 4, 0xb5802000, 0),
]];

const WRONG_LOAD_BREAKS: &[Row] = &[(&[0, 1, 2, 3, 4, 5], Axiom::Value, 4, Some(2))];

const BUFFERING: &[&[Access]] = &[
    &[
        (ItemKind::Store, 0x200, 8, 0, 0x1),
        (ItemKind::Membar, 0, 13, 0, 0),
        (ItemKind::Load, 0x208, 8, 0, 0),
    ],
    &[
        (ItemKind::Store, 0x208, 8, 0, 0x2),
        (ItemKind::Load, 0x208, 8, 0x2, 0),
        (ItemKind::Load, 0x200, 8, 0x1112131415161718, 0),
    ],
];

const BUFFERING_HOLDS: &[&[u8]] = &[&[2, 10, 11, 12, 0]];

const BUFFERING_BREAKS: &[Row] = &[
    (&[0, 2, 10, 12, 11], Axiom::LoadOp, 11, Some(12)),
    (&[0, 10, 2, 11, 12], Axiom::Value, 2, Some(10)),
    (&[0, 2, 10, 11, 12], Axiom::Value, 12, Some(0)),
];

const FENCED: &[&[Access]] = &[
    &[
        (ItemKind::Store, 0x200, 8, 0, 0x1),
        (ItemKind::Membar, 0, 66, 0, 0),
        (ItemKind::Load, 0x208, 8, 0x2, 0),
    ],
    &[
        (ItemKind::Store, 0x208, 8, 0, 0x2),
        (ItemKind::Flush, 0, 0, 0, 0),
        (ItemKind::Fetch, 0x100, 4, 0x82102005, 0),
        (ItemKind::Load, 0x200, 8, 0x1, 0),
    ],
];

const FENCED_HOLDS: &[&[u8]] = &[&[0, 10, 2, 12, 13], &[10, 0, 12, 2, 13]];

const FENCED_BREAKS: &[Row] = &[
    (&[0, 2, 10, 13, 12], Axiom::LoadOp, 12, Some(13)),
    (&[0, 2, 10, 12, 13], Axiom::Value, 2, None),
    (&[10, 2, 12, 13, 0], Axiom::Value, 13, None),
    (&[10, 2, 0, 12, 13], Axiom::Barrier, 1, Some(2)),
    (&[0, 12, 10, 2, 13], Axiom::Barrier, 11, Some(12)),
    (&[0, 10, 2, 12], Axiom::Listing, 13, None),
    (&[0, 10, 2, 12, 13, 0], Axiom::Listing, 0, None),
    (&[0, 10, 10, 2, 12, 13], Axiom::Listing, 10, None),
    (&[0, 1, 10, 2, 12, 13], Axiom::Listing, 1, None),
    (&[0, 11, 10, 2, 12, 13], Axiom::Listing, 11, None),
    (&[0, 10, 2, 12, 13, 3], Axiom::Listing, 3, None),
    (&[0, 10, 2, 12, 13, 20], Axiom::Listing, 20, None),
    (&[], Axiom::Listing, 0, None),
    (&[10, 12, 13], Axiom::Listing, 0, None),
    (&[0, 10, 2, 2, 10], Axiom::Listing, 2, None),
    (&[0, 10, 2], Axiom::Listing, 12, None),
];

const MESSAGE: &[&[Access]] = &[
    &[
        (ItemKind::Store, 0x200, 4, 0, 0xaabbccdd),
        (ItemKind::Store, 0x208, 4, 0, 0x1),
    ],
    &[
        (ItemKind::Load, 0x208, 4, 0x1, 0),
        (ItemKind::Load, 0x200, 4, 0xaabbccdd, 0),
        (ItemKind::Store, 0x20c, 4, 0, 0x2),
    ],
];

const MESSAGE_HOLDS: &[&[u8]] = &[&[0, 1, 10, 11, 12]];

const MESSAGE_BREAKS: &[Row] = &[
    (&[0, 1, 11, 10, 12], Axiom::LoadOp, 10, Some(11)),
    (&[0, 1, 12, 10, 11], Axiom::LoadOp, 10, Some(12)),
    (&[0, 1, 10, 12, 11], Axiom::LoadOp, 11, Some(12)),
    (&[1, 0, 10, 11, 12], Axiom::StoreStore, 0, Some(1)),
    (&[0, 10, 1, 11, 12], Axiom::Value, 10, None),
];

const BYTES: &[&[Access]] = &[
    &[(ItemKind::Store, 0x200, 8, 0, 0x102030405060708)],
    &[(ItemKind::Store, 0x203, 1, 0, 0xee)],
    &[
        (ItemKind::Load, 0x200, 8, 0x10203ee05060708, 0),
        (ItemKind::Load, 0x202, 2, 0x3ee, 0),
    ],
];

const BYTES_HOLDS: &[&[u8]] = &[&[0, 10, 20, 21]];

const BYTES_BREAKS: &[Row] = &[
    (&[0, 10, 21, 20], Axiom::LoadOp, 20, Some(21)),
    (&[0, 20, 10, 21], Axiom::Value, 20, Some(0)),
    (&[10, 20, 0, 21], Axiom::Value, 20, None),
];

const ATOMICS: &[&[Access]] = &[
    &[
        (ItemKind::Atomic { wrote: true }, 0x200, 4, 0x11121314, 0x7),
        (ItemKind::Store, 0x204, 4, 0, 0x9),
    ],
    &[
        (ItemKind::Atomic { wrote: true }, 0x200, 4, 0x7, 0x8),
        (ItemKind::Atomic { wrote: false }, 0x200, 4, 0x8, 0),
        (ItemKind::Load, 0x200, 8, 0x800000009, 0),
    ],
];

const ATOMICS_HOLDS: &[&[u8]] = &[&[0, 1, 10, 11, 12]];

const ATOMICS_BREAKS: &[Row] = &[
    (&[1, 0, 10, 11, 12], Axiom::LoadOp, 0, Some(1)),
    (&[0, 1, 11, 10, 12], Axiom::LoadOp, 10, Some(11)),
    (&[0, 1, 12, 10, 11], Axiom::LoadOp, 10, Some(12)),
    (&[0, 1, 10, 12, 11], Axiom::LoadOp, 11, Some(12)),
    (&[10, 0, 1, 11, 12], Axiom::Value, 10, None),
    (&[0, 10, 11, 12, 1], Axiom::Value, 12, None),
];

const DEVICES: &[&[Access]] = &[
    &[
        (ItemKind::Load, 0x8000000010, 8, 0, 0),
        (ItemKind::Store, 0x8000000000, 1, 0, 0x41),
    ],
    &[
        (ItemKind::Load, 0x8000000008, 8, 0x3, 0),
        (ItemKind::Fetch, 0x100, 4, 0x82102006, 0),
    ],
];

const DEVICES_BREAKS: &[Row] = &[
    (&[1, 0, 10, 11], Axiom::LoadOp, 0, Some(1)),
    (&[0, 1, 11, 10], Axiom::LoadOp, 10, Some(11)),
    (&[0, 1, 10, 11], Axiom::Value, 10, None),
];

const CODE: &[&[Access]] = &[
    &[
        (ItemKind::Store, 0x108, 4, 0, 0xdeadbeef),
        (ItemKind::Load, 0x108, 4, 0xdeadbeef, 0),
        (ItemKind::Fetch, 0x108, 4, 0xc4582200, 0),
    ],
    &[(ItemKind::Fetch, 0x108, 4, 0xdeadbeef, 0)],
];

const CODE_HOLDS: &[&[u8]] = &[&[1, 2, 0, 10]];

const CODE_BREAKS: &[Row] = &[
    (&[0, 2, 1, 10], Axiom::LoadOp, 1, Some(2)),
    (&[0, 1, 2, 10], Axiom::Value, 2, Some(0)),
    (&[1, 2, 10, 0], Axiom::Value, 10, None),
];

const LOWEST: &[&[Access]] = &[
    &[
        (ItemKind::Store, 0x200, 4, 0, 0x11121314),
        (ItemKind::Store, 0x204, 4, 0, 0x2),
    ],
    &[(ItemKind::Load, 0x200, 8, 0x1112131415161718, 0)],
];

const LOWEST_HOLDS: &[&[u8]] = &[&[0, 10, 1]];

const LOWEST_BREAKS: &[Row] = &[(&[0, 1, 10], Axiom::Value, 10, Some(1))];

fn place(code: u8) -> Place {
    Place {
        strand: code / 10,
        item: u32::from(code % 10),
    }
}

/// A memory of 1,024 bytes with a program at 0x100, and 11 to 18 (hexadecimal) at 0x200.
fn memory(alloc: Global) -> Result<Listed<u8>, AllocError> {
    let mut ram = Vec::from_elem(alloc, 0u8, 1024)?;
    let words = [
        0x82, 0x10, 0x20, 0x05, 0xc2, 0x70, 0x22, 0x00, 0xc4, 0x58, 0x22, 0x00, 0xb5, 0x80, 0x20,
        0x00,
    ];
    for (byte, word) in ram.iter_mut().skip(0x100).zip(words) {
        *byte = word;
    }
    for (byte, value) in ram
        .iter_mut()
        .skip(0x200)
        .zip([17, 18, 19, 20, 21, 22, 23, 24])
    {
        *byte = value;
    }
    Ok(Listed::from_vec(ram))
}

fn trace(alloc: Global, accesses: &[Access]) -> Result<Trace, AllocError> {
    let mut items = Vec::new(alloc);
    for (kind, addr, size, got, put) in accesses {
        items.push(Item {
            kind: *kind,
            addr: *addr,
            size: *size,
            got: *got,
            put: *put,
            how: How::Unplaced,
        })?;
    }
    Ok(Trace {
        items: Listed::from_vec(items),
        units: 0,
        pc: 0,
        ending: None,
    })
}

/// The verdict on an order of these strands.
fn judged(
    rt: &impl Abort,
    alloc: Global,
    strands: &[&[Access]],
    order: &[u8],
) -> Result<Verdict, AllocError> {
    let mut traces = Vec::new(alloc);
    for accesses in strands {
        traces.push(trace(alloc, accesses)?)?;
    }
    let mut places = Vec::new(alloc);
    for code in order {
        places.push(place(*code))?;
    }
    let report = Report {
        config: Config {
            chip: ChipKind::T1,
            hyper: false,
            cores: 1,
            strands: 1,
            ram: 1024,
            sets: 1,
            budget: 1,
        },
        image: Image {
            entry: 0x100,
            ram: memory(alloc)?,
        },
        traces: Listed::from_vec(traces),
        log: Listed::new(alloc),
        order: Listed::from_vec(places),
        console: Listed::new(alloc),
    };
    assert!(rt; can_be_checked(&report), "a row that cannot be checked");
    check(alloc, &report)
}

fn holds(
    rt: &impl Abort,
    alloc: Global,
    strands: &[&[Access]],
    orders: &[&[u8]],
) -> Result<(), AllocError> {
    for order in orders {
        let verdict = judged(rt, alloc, strands, order)?;
        assert_eq!(rt; verdict, Verdict::Holds, "{order:?}");
    }
    Ok(())
}

fn breaks(
    rt: &impl Abort,
    alloc: Global,
    strands: &[&[Access]],
    rows: &[Row],
) -> Result<(), AllocError> {
    for (order, axiom, first, second) in rows {
        let verdict = judged(rt, alloc, strands, order)?;
        let wanted = Verdict::Broken {
            axiom: *axiom,
            first: place(*first),
            second: match second {
                Some(code) => Some(place(*code)),
                None => None,
            },
        };
        assert_eq!(rt; verdict, wanted, "{order:?}");
    }
    Ok(())
}

#[test]
fn orders_that_hold(rt: HostRuntime) -> Result<(), AllocError> {
    let alloc = rt.alloc();
    holds(&rt, alloc, PROGRAM, PROGRAM_HOLDS)?;
    holds(&rt, alloc, BUFFERING, BUFFERING_HOLDS)?;
    holds(&rt, alloc, FENCED, FENCED_HOLDS)?;
    holds(&rt, alloc, MESSAGE, MESSAGE_HOLDS)?;
    holds(&rt, alloc, BYTES, BYTES_HOLDS)?;
    holds(&rt, alloc, ATOMICS, ATOMICS_HOLDS)?;
    holds(&rt, alloc, CODE, CODE_HOLDS)?;
    holds(&rt, alloc, LOWEST, LOWEST_HOLDS)?;
    holds(&rt, alloc, &[&[]], &[&[]])
}

#[test]
fn broken_orders_and_the_places_named(rt: HostRuntime) -> Result<(), AllocError> {
    let alloc = rt.alloc();
    breaks(&rt, alloc, PROGRAM, PROGRAM_BREAKS)?;
    breaks(&rt, alloc, WRONG_LOAD, WRONG_LOAD_BREAKS)?;
    breaks(&rt, alloc, BUFFERING, BUFFERING_BREAKS)?;
    breaks(&rt, alloc, FENCED, FENCED_BREAKS)?;
    breaks(&rt, alloc, MESSAGE, MESSAGE_BREAKS)?;
    breaks(&rt, alloc, BYTES, BYTES_BREAKS)?;
    breaks(&rt, alloc, ATOMICS, ATOMICS_BREAKS)?;
    breaks(&rt, alloc, DEVICES, DEVICES_BREAKS)?;
    breaks(&rt, alloc, CODE, CODE_BREAKS)?;
    breaks(&rt, alloc, LOWEST, LOWEST_BREAKS)
}
