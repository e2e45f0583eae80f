use std::process::Abort;
use std::test::Fail;
use t1_core::{Core, Did, Drained, Wait};
use t1_event::{Config, Ending, How, ItemKind};
use t1_num::ChipKind;
use t1_packet::{Kills, Op, Packet, Reply, Request};

pub const CONFIG: Config = Config {
    chip: ChipKind::T1,
    hyper: false,
    cores: 1,
    strands: 1,
    ram: 65536,
    sets: 1024,
    budget: 100,
};

pub const NOP: u32 = 0x0100_0000;

/// `stx %g0, [%g0+0x200]`, `stx %g0, [%g0+0x208]` and `stx %g0, [%g0+0x240]`.
pub const STX: u32 = 0xc070_2200;

const STX_BESIDE: u32 = 0xc070_2208;

const STX_NEXT_BANK: u32 = 0xc070_2240;

/// `stb %g0, [%g0+0x203]`.
const STB: u32 = 0xc028_2203;

/// `ldx [%g0+0x240], %g2` and `wr %g0, 0, %asr26`, which halts.
pub const LDX: u32 = 0xc458_2240;

pub const HALT: u32 = 0xb580_2000;

/// A line of eight words.
pub fn line_of(words: &[u32; 8]) -> [u8; 32] {
    let mut line = [0u8; 32];
    for (i, word) in words.iter().enumerate() {
        if i < 8 {
            let [a, b, c, d] = word.to_be_bytes();
            line[4 * i] = a;
            line[4 * i + 1] = b;
            line[4 * i + 2] = c;
            line[4 * i + 3] = d;
        }
    }
    line
}

/// The reply to strand 0 for an item and an op, with an old value, a way and a line.
pub fn reply_to(item: u32, op: Op, old: u64, way: Option<u8>, line: [u8; 32]) -> Reply {
    Reply {
        strand: 0,
        item,
        seen: 0,
        op,
        old,
        way,
        line,
    }
}

/// A packet with a reply and no kill.
pub fn packet(index: u32, reply: Reply) -> Packet {
    Packet {
        index,
        reply: Some(reply),
        kills: Kills::new(),
    }
}

/// Strand 0 fetches the line of its PC, which has these words, as commit `index`.
pub fn fetch_line(rt: &impl Abort, core: &mut Core, index: u32, words: &[u32; 8]) {
    match core.exec(0, 31) {
        Did::Sent { dest: _, request } => {
            let reply = reply_to(
                request.item,
                request.op,
                words[0] as u64,
                Some(0),
                line_of(words),
            );
            core.take(&packet(index, reply));
        }
        _ => assert!(rt; false, "no fetch is sent"),
    }
}

/// Strand 0 fetches a line and does its eight instructions, none of which needs a ring.
fn do_line(rt: &impl Abort, core: &mut Core, index: u32, words: &[u32; 8]) {
    fetch_line(rt, core, index, words);
    for step in 0..15u8 {
        assert!(rt; core.quick_turn(), "step {step}");
    }
}

#[test]
fn a_fetch_goes_out_and_comes_back(rt: HostRuntime) -> Result<(), Fail> {
    let mut core = Core::new(rt.alloc(), &CONFIG, 0, 0x100)?;
    let op = Op::Fetch {
        addr: 0x100,
        way: 0,
    };
    let request = Request {
        core: 0,
        strand: 0,
        item: 0,
        seen: 0,
        op,
    };
    assert_eq!(rt; core.ready(0), 0);
    assert!(rt; !core.would_act(0));
    assert_eq!(rt; core.exec(0, 0), Did::Waits(Wait::NoRoom(0)));
    assert_eq!(rt; core.ready(1), 1);
    assert!(rt; core.would_act(1));
    assert!(rt; !core.quick_turn());
    assert_eq!(rt; core.exec(0, 1), Did::Sent { dest: 0, request });
    assert_eq!(rt; core.wait_of(0, 1), Some(Wait::Reply));
    assert_eq!(rt; core.time(), 0);
    core.take(&packet(0, reply_to(0, op, STX as u64, Some(0), [0; 32])));
    assert_eq!(rt; core.time(), 1);
    assert_eq!(rt; core.wait_of(0, 0), None);
    Ok(())
}

#[test]
fn a_program_runs_to_its_end(rt: HostRuntime) -> Result<(), Fail> {
    let mut core = Core::new(rt.alloc(), &CONFIG, 0, 0x100)?;
    let words = [0x8210_2005, 0xc270_2200, 0xc458_2200, HALT, 0, 0, 0, 0];
    fetch_line(&rt, &mut core, 0, &words);
    for step in 0..7u8 {
        assert_eq!(rt; core.turn(0), Some(Did::Moved), "step {step}");
    }
    assert_eq!(rt; core.turn(31), None);
    assert_eq!(rt; core.wait_of(0, 31), Some(Wait::Ended));
    assert!(rt; !core.finished());
    assert!(rt; core.holds_stores());
    let op = Op::Store {
        addr: 0x200,
        size: 8,
        value: 5,
    };
    let request = Request {
        core: 0,
        strand: 0,
        item: 2,
        seen: 1,
        op,
    };
    assert_eq!(rt; core.drain(0, 0), Drained::NoRoom(0));
    assert_eq!(rt; core.drain_of(0, 1), Drained::Sent { dest: 0, request });
    assert!(rt; core.would_drain(0, 1));
    assert_eq!(rt; core.drain(0, 1), Drained::Sent { dest: 0, request });
    assert_eq!(rt; core.drain(0, 1), Drained::Out);
    core.take(&packet(7, reply_to(2, op, 0, None, [0; 32])));
    assert_eq!(rt; core.drain(0, 1), Drained::Empty);
    assert!(rt; core.finished());
    assert!(rt; !core.holds_stores());
    assert_eq!(rt; core.time(), 8);
    let traces = core.into_traces();
    assert_eq!(rt; traces.len(), 1);
    let items = traces[0].items.as_slice();
    assert_eq!(rt; traces[0].ending, Some(Ending::Halted));
    assert_eq!(rt; (traces[0].units, traces[0].pc, items.len()), (4, 0x110, 6));
    assert_eq!(rt; items[2].how, How::Commit { index: 7, seen: 0 });
    assert_eq!(rt; (items[4].kind, items[4].got), (ItemKind::Load, 5));
    assert_eq!(rt; items[4].how, How::Forward { time: 1 });
    assert_eq!(rt; items[5].how, How::Hit { time: 1 });
    Ok(())
}

/// A drain that sends a store of 0, with its ring and the core's time.
fn sent(dest: u8, item: u32, addr: u64, seen: u32) -> Drained {
    let op = Op::Store {
        addr,
        size: 8,
        value: 0,
    };
    Drained::Sent {
        dest,
        request: Request {
            core: 0,
            strand: 0,
            item,
            seen,
            op,
        },
    }
}

/// The bank answers the store that a drain sent, as commit `index`.
fn acknowledge(core: &mut Core, index: u32, drained: Drained) {
    if let Drained::Sent { request, .. } = drained {
        core.take(&packet(index, reply_to(request.item, request.op, 0, None, [0; 32])));
    }
}

#[test]
fn stores_to_one_bank_are_out_at_once(rt: HostRuntime) -> Result<(), Fail> {
    let mut core = Core::new(rt.alloc(), &CONFIG, 0, 0x100)?;
    let words = [STX, STX_BESIDE, STX_NEXT_BANK, NOP, NOP, NOP, NOP, NOP];
    do_line(&rt, &mut core, 0, &words);
    let first = sent(0, 1, 0x200, 1);
    let second = sent(0, 3, 0x208, 1);
    let third = sent(1, 5, 0x240, 7);
    assert_eq!(rt; core.drain(0, 31), first);
    assert_eq!(rt; core.drain(0, 30), Drained::NoRoom(0));
    assert_eq!(rt; core.drain(0, 31), second);
    assert_eq!(rt; core.drain(0, 31), Drained::Out);
    acknowledge(&mut core, 5, first);
    assert_eq!(rt; core.drain(0, 31), Drained::Out);
    acknowledge(&mut core, 6, second);
    assert_eq!(rt; core.drain(0, 31), third);
    assert_eq!(rt; core.drain(0, 31), Drained::Out);
    acknowledge(&mut core, 7, third);
    assert_eq!(rt; core.drain(0, 31), Drained::Empty);
    Ok(())
}

/// What a strand does that has such stores in its buffer, for a word, with such rings that have
/// room: a bit for each destination. Register %g1 has the first address of I/O.
const DOES: &str = "\
none 01000000 0 => Moved
full 01000000 0 => Moved
full b5802000 0 => Moved
full 00000000 0 => Moved
none c0702200 0 => Moved
seven c0702200 0 => Moved
full c0702200 31 => Waits(Full)
full c0282300 31 => Waits(Full)
none c4582200 0 => Waits(NoRoom(0))
none c4582200 30 => Waits(NoRoom(0))
none c4582200 1 => Sent { dest: 0,
none c45822c0 23 => Waits(NoRoom(3))
none c45822c0 8 => Sent { dest: 3,
dword c4582200 0 => Moved
full c40a2203 0 => Moved
byte c4582200 31 => Waits(Overlap(0))
last c4582200 31 => Waits(Overlap(7))
last c40a2203 0 => Moved
byte c40a2202 0 => Waits(NoRoom(0))
byte c4582240 2 => Sent { dest: 1,
none c4586000 15 => Waits(NoRoom(4))
none c4586000 16 => Sent { dest: 4,
byte c4586000 31 => Waits(NotEmpty)
none c0682200 30 => Waits(NoRoom(0))
none c0682200 1 => Sent { dest: 0,
byte c0682240 31 => Waits(NotEmpty)
none c0782240 0 => Waits(NoRoom(1))
none c0782240 31 => Sent { dest: 1,
byte c0782240 31 => Waits(NotEmpty)
none c1f01000 0 => Waits(NoRoom(0))
none c1f01000 31 => Sent { dest: 0,
full c1f01000 31 => Waits(NotEmpty)
byte 8143e001 0 => Moved
full 8143e002 31 => Waits(NotEmpty)
none 8143e002 0 => Moved
byte 8143e00d 0 => Moved
byte 8143e010 0 => Moved
byte 8143e020 31 => Waits(NotEmpty)
none 8143e020 0 => Moved
byte 8143e040 31 => Waits(NotEmpty)
none 8143e07f 0 => Moved
full 8143c000 0 => Moved
byte 81d82000 31 => Waits(NotEmpty)
none 81d82000 0 => Moved";

/// Eight words that leave such stores.
fn stores_of(name: &str) -> [u32; 8] {
    match name {
        "byte" => [STB, NOP, NOP, NOP, NOP, NOP, NOP, NOP],
        "dword" => [STX, NOP, NOP, NOP, NOP, NOP, NOP, NOP],
        "seven" => [STX, STX, STX, STX, STX, STX, STX, NOP],
        "last" => [STX, STX, STX, STX, STX, STX, STX, STB],
        "full" => [STX; 8],
        _ => [NOP; 8],
    }
}

#[test]
fn a_strand_waits_for_what_its_need_waits_for(rt: HostRuntime) -> Result<(), Fail> {
    let mut tried = 0u64;
    for row in DOES.lines() {
        let mut parts = row.splitn(5, ' ');
        if let (Some(held), Some(word), Some(room), Some(_), Some(want)) = (
            parts.next(),
            parts.next(),
            parts.next(),
            parts.next(),
            parts.next(),
        ) {
            let word = u32::from_str_radix(word, 16)?;
            let room: u16 = room.parse()?;
            let mut core = Core::new(rt.alloc(), &CONFIG, 0, 0x100)?;
            let io = [0x8210_2001, 0x8328_7027, NOP, NOP, NOP, NOP, NOP, NOP];
            do_line(&rt, &mut core, 0, &io);
            do_line(&rt, &mut core, 1, &stores_of(held));
            fetch_line(&rt, &mut core, 2, &[word; 8]);
            let wait = core.wait_of(0, room);
            let did = core.exec(0, room);
            let text = format!(in rt.alloc(); "{did:?}")?;
            assert!(rt; text.as_str().starts_with(want), "{text} for {row}");
            match did {
                Did::Waits(why) => assert_eq!(rt; wait, Some(why), "for {row}"),
                _ => assert_eq!(rt; wait, None, "for {row}"),
            }
            tried = tried.saturating_add(1);
        }
    }
    assert_eq!(rt; tried, 44);
    Ok(())
}
