//! A line of each kind is taken.
use std::alloc::{AllocError, Global};
use t1_elf::Listed;
use t1_event::{Config, Ending, How, Item, ItemKind, Place, Trace};
use t1_num::ChipKind;
use t1_take::{
    Cursor, End, append, take_block, take_commit, take_config, take_console, take_end, take_entry,
    take_item, take_place,
};

/// A line of each kind, and a word in another place.
const LINES: &[&[u8]] = &[
    b"config cores 1 strands 1 ram 65536 sets 4 budget 7\n",
    b"entry 0000000100\n",
    b"m 0000000020 0000000000000000000000000000000000000000000000000000000000000009\n",
    b"i 0 0 atomic 0000000148 8 0000000000000005 00000000000000ff M 0 3\n",
    b"e 0 fault 7 fedcba9876543210 1ff\n",
    b"c 0 1 0 0 2 0000012340 0.d.127.3\n",
    b"o 0 4294967295\n",
    b"k 00ff\n",
    b"end\n",
];

/// The text of the lines.
fn text_of(alloc: Global) -> Result<Vec<u8>, AllocError> {
    let mut text = Vec::new(alloc);
    for line in LINES {
        text.extend_from_slice(line)?;
    }
    Ok(text)
}

/// A strand of one item, which ended.
fn strand_of(alloc: Global, item: Item, end: End) -> Result<Trace, AllocError> {
    let mut items = Listed::new(alloc);
    items.push(item)?;
    Ok(Trace {
        items,
        units: end.units,
        pc: end.pc,
        ending: Some(end.ending),
    })
}

/// Takes the lines of the machine and of its image, and answers whether they are those of `LINES`.
fn takes_the_head(cursor: &mut Cursor, text: &[u8]) -> bool {
    let config = Config {
        chip: ChipKind::T1,
        hyper: false,
        cores: 1,
        strands: 1,
        ram: 65_536,
        sets: 4,
        budget: 7,
    };
    let mut ram = [0; 64];
    take_config(cursor, text) == Some(config)
        && take_entry(cursor, text) == Some(0x100)
        && cursor.peek(text) == b'm'
        && take_block(cursor, text, 0, &mut ram) == Some(32)
        && ram[63] == 9
}

/// Takes the lines of a strand, if they are those of `LINES`.
fn take_the_strand(cursor: &mut Cursor, text: &[u8]) -> Option<(Item, End)> {
    let item = Item {
        kind: ItemKind::Atomic { wrote: true },
        addr: 0x148,
        size: 8,
        got: 5,
        put: 255,
        how: How::Commit { index: 0, seen: 3 },
    };
    let end = End {
        ending: Ending::Fault(0x1ff),
        units: 7,
        pc: 0xfedc_ba98_7654_3210,
    };
    let taken = (
        take_item(cursor, text, 0, 0, 65_536)?,
        take_end(cursor, text, 0)?,
    );
    if taken == (item, end) {
        Some(taken)
    } else {
        None
    }
}

#[test]
fn a_line_of_each_kind_is_taken(rt: HostRuntime) -> Result<(), AllocError> {
    let alloc = rt.alloc();
    let lines = text_of(alloc)?;
    let text = lines.as_slice();
    let mut cursor = Cursor::new(0);
    assert!(rt; takes_the_head(&mut cursor, text));
    let Some((item, end)) = take_the_strand(&mut cursor, text) else {
        assert!(rt; false, "the lines of a strand");
        return Ok(());
    };
    let mut traces = Vec::new(alloc);
    traces.push(strand_of(alloc, item, end)?)?;
    let Some(commit) = take_commit(&mut cursor, text, 0, 1, traces.as_slice()) else {
        assert!(rt; false, "the line of a commit");
        return Ok(());
    };
    assert_eq!(rt; (commit.seen, commit.old, commit.way), (3, 5, Some(2)));
    assert_eq!(rt; commit.kills.as_slice().len(), 1);
    let place = Place {
        strand: 0,
        item: 4_294_967_295,
    };
    assert_eq!(rt; take_place(&mut cursor, text, 1), Some(place));
    let bytes = take_console(&mut cursor, text);
    let mut console = Listed::new(alloc);
    append(&mut console, bytes.as_slice())?;
    assert_eq!(rt; console.as_slice(), [0, 255].as_slice());
    assert!(rt; cursor.is_good());
    assert!(rt; !cursor.takes(text, b"t1log 1\n"));
    cursor.word(text, b"end\n");
    assert_eq!(rt;
        cursor,
        Cursor {
            at: text.len(),
            good: true
        }
    );
    cursor.refuse();
    assert!(rt; !cursor.is_good());
    Ok(())
}
