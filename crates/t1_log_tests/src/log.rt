//! A report with every kind of item and of ending, and its text.
ghost use Rattle.std.specs.Prelude.{◌≡◌, ◌+◌, ◌*◌, ◌≤◌, IsTrue, All};
ghost use Rattle.t1_event.specs.Printable.{FitsDigits, HasText, IsPrintableTrace, IsPrintableCommit, IsPrintableReport};

use std::alloc::{AllocError, Global};
use std::test::Fail;
use t1_elf::{Image, Listed};
use t1_event::{Commit, Config, Ending, How, Item, ItemKind, Place, Report, Trace};
use t1_io::CalmSink;
use t1_log::{is_first, print, print_brief};
use t1_num::ChipKind;
use t1_packet::{Cache, Kill, Kills, Op};

fn item(kind: ItemKind, addr: u64, size: u8, got: u64, put: u64, how: How) -> Item {
    Item {
        kind,
        addr,
        size,
        got,
        put,
        how,
    }
}

/// Two commits: a fetch that fills way 3, and an atomic that evicts a line and kills two copies.
fn log(alloc: Global) -> Result<Vec<Commit>, AllocError> {
    let mut kills: Kills<64> = Kills::new();
    for kill in [
        Kill::new(0, Cache::Icache, 16, 2),
        Kill::new(1, Cache::Dcache, 127, 3),
    ] {
        if kills.len() < 64 {
            kills.push(kill);
        }
    }
    let mut log = Vec::new(alloc);
    log.push(Commit {
        dest: 0,
        strand: 0,
        item: 0,
        op: Op::Fetch { addr: 0x20, way: 3 },
        seen: 0,
        old: 0x82af_0000,
        way: Some(3),
        evicted: None,
        kills: Kills::new(),
    })?;
    log.push(Commit {
        dest: 1,
        strand: 0,
        item: 3,
        op: Op::Swap {
            addr: 0x40,
            size: 8,
            new: 1,
        },
        seen: 1,
        old: 0,
        way: None,
        evicted: Some(0x4040),
        kills,
    })?;
    Ok(log)
}

/// Thirty-three bytes, from 1 on.
fn console(alloc: Global) -> Result<Vec<u8>, AllocError> {
    let mut bytes = Vec::new(alloc);
    for byte in 1..34u8 {
        bytes.push(byte)?;
    }
    Ok(bytes)
}

fn trace(
    alloc: Global,
    items: &[Item],
    units: u32,
    pc: u64,
    ending: Ending,
) -> Result<Trace, AllocError> {
    Ok(Trace {
        items: Listed::from_vec(Vec::from_slice(alloc, items)?),
        units,
        pc,
        ending: Some(ending),
    })
}

fn report(alloc: Global) -> Result<Report, AllocError> {
    let mut ram = [0; 128];
    ram[32] = 0x82;
    ram[33] = 0xaf;
    ram[127] = 1;
    let items = [
        item(
            ItemKind::Fetch,
            0x20,
            4,
            0x82af_0000,
            0,
            How::Commit { index: 0, seen: 7 },
        ),
        item(ItemKind::Load, 0x7f, 1, 1, 0, How::Forward { time: 12 }),
        item(
            ItemKind::Store,
            0x80_0000_00c0,
            2,
            0,
            0xbeef,
            How::Commit { index: 5, seen: 4 },
        ),
        item(
            ItemKind::Atomic { wrote: true },
            0x40,
            8,
            0,
            0x0123_4567_89ab_cdef,
            How::Commit { index: 6, seen: 6 },
        ),
        item(
            ItemKind::Atomic { wrote: false },
            0x44,
            4,
            0x89ab_cdef,
            0,
            How::Commit { index: 9, seen: 7 },
        ),
        item(ItemKind::Membar, 0, 0x0f, 0, 0, How::Unplaced),
        item(ItemKind::Flush, 0, 0, 0, 0, How::Unplaced),
    ];
    let mut traces = Vec::new(alloc);
    traces.push(trace(alloc, &items, 12, 0x34, Ending::Halted)?)?;
    traces.push(trace(alloc, &[], 0, 0xffff_ffff_ffff_fffc, Ending::Fault(0x34))?)?;
    traces.push(trace(alloc, items.split_at(1).0, 10, 0x24, Ending::Spent)?)?;
    let order = [
        Place { strand: 2, item: 0 },
        Place { strand: 0, item: 0 },
        Place { strand: 0, item: 4 },
    ];
    Ok(Report {
        config: Config {
            chip: ChipKind::T1,
            hyper: false,
            cores: 1,
            strands: 3,
            ram: 128,
            sets: 1024,
            budget: 10,
        },
        image: Image {
            entry: 0x20,
            ram: Listed::from_vec(Vec::from_slice(alloc, &ram)?),
        },
        traces: Listed::from_vec(traces),
        log: Listed::from_vec(log(alloc)?),
        order: Listed::from_vec(Vec::from_slice(alloc, &order)?),
        console: Listed::from_vec(console(alloc)?),
    })
}

/// A value of one, two, four or eight bytes fits that many.
fn fits(size: u8, value: u64) -> bool
    ensures some { IsTrue result → 1 ≤ size }
    ensures most { IsTrue result → size ≤ 8 }
    ensures fits { IsTrue result → FitsDigits (2 * size) value }
{
    match size {
        1 => value < 1 << 8,
        2 => value < 1 << 16,
        4 => value < 1 << 32,
        8 => true,
        _ => false,
    }
}

fn has_text(item: &Item) -> bool
    ensures { IsTrue result → HasText item.now }
{
    let placed = !matches!(item.how, How::Unplaced);
    match item.kind {
        ItemKind::Membar | ItemKind::Flush => !placed,
        _ => placed
            && item.addr < 1 << 40
            && fits(item.size, item.got)
            && fits(item.size, item.put),
    }
}

fn have_text(items: &[Item]) -> bool
    ensures { IsTrue result → All HasText items.now }
{
    items.iter().all(|item| has_text(item))
}

fn is_printable_trace(trace: &Trace) -> bool
    ensures { IsTrue result → IsPrintableTrace trace.now }
{
    let items = trace.items.as_slice();
    let ended = match trace.ending {
        Some(Ending::Halted) => true,
        Some(Ending::Spent) => true,
        Some(Ending::Fault(number)) => number < 1 << 12,
        None => false,
    };
    ended && items.len() <= 1 << 32 && have_text(items)
}

fn are_printable_traces(traces: &[Trace]) -> bool
    ensures { IsTrue result → All IsPrintableTrace traces.now }
{
    traces.iter().all(|trace| is_printable_trace(trace))
}

fn is_printable_commit(commit: &Commit) -> bool
    ensures { IsTrue result → IsPrintableCommit commit.now }
{
    let small = match commit.evicted {
        Some(addr) => addr < 1 << 40,
        None => true,
    };
    small && commit.kills.len() <= 64
}

fn are_printable_commits(log: &[Commit]) -> bool
    ensures { IsTrue result → All IsPrintableCommit log.now }
{
    log.iter().all(|commit| is_printable_commit(commit))
}

fn is_printable(report: &Report) -> bool
    ensures { IsTrue result → IsPrintableReport report.now }
{
    let bytes = report.image.ram.as_slice().len();
    let traces = report.traces.as_slice();
    let log = report.log.as_slice();
    let strands = u16::from(report.config.cores) * u16::from(report.config.strands);
    report.image.entry < 1 << 40
        && bytes % 32 == 0
        && bytes <= 1 << 40
        && are_printable_traces(traces)
        && traces.len() == usize::from(strands)
        && traces.len() <= 256
        && are_printable_commits(log)
        && log.len() <= 1 << 32
}

const TEXT: &str = "t1log 1
config cores 1 strands 3 ram 128 sets 1024 budget 10
entry 0000000020
m 0000000020 82af000000000000000000000000000000000000000000000000000000000000
m 0000000060 0000000000000000000000000000000000000000000000000000000000000001
i 0 0 fetch 0000000020 4 82af0000 - M 0 7
i 0 1 load 000000007f 1 01 - F 12
i 0 2 store 80000000c0 2 - beef M 5 4
i 0 3 atomic 0000000040 8 0000000000000000 0123456789abcdef M 6 6
i 0 4 atomic 0000000044 4 89abcdef - M 9 7
i 0 5 membar 0f
i 0 6 flush
e 0 halted 12 0000000000000034
e 1 fault 0 fffffffffffffffc 034
i 2 0 fetch 0000000020 4 82af0000 - M 0 7
e 2 spent 10 0000000000000024
c 0 0 0 0 3 -
c 1 1 0 3 - 0000004040 0.i.16.2 1.d.127.3
o 2 0
o 0 0
o 0 4
k 0102030405060708090a0b0c0d0e0f101112131415161718191a1b1c1d1e1f20
k 21
end
";

const BRIEF: &str = "t1brief 1
config cores 1 strands 3 ram 128 sets 1024 budget 10
e 0 halted 12 0000000000000034
e 1 fault 0 fffffffffffffffc 034
e 2 spent 10 0000000000000024
n units 22 items 8 commits 2 kills 2 evicted 1
k 0102030405060708090a0b0c0d0e0f101112131415161718191a1b1c1d1e1f20
k 21
end
";

#[test]
fn every_kind_of_line_is_printed(rt: HostRuntime) -> Result<(), Fail> {
    let report = report(rt.alloc())?;
    assert!(rt; is_printable(&report));
    assert!(rt; is_first(&report.config));
    let mut sink = CalmSink::new(rt.alloc(), 4096)?;
    print(&report, &mut sink)?;
    assert_eq!(rt; sink.as_slice(), TEXT.as_bytes());
    let mut sink = CalmSink::new(rt.alloc(), 4096)?;
    print_brief(&report, &mut sink)?;
    assert_eq!(rt; sink.as_slice(), BRIEF.as_bytes());
    Ok(())
}
