ghost use Rattle.std.specs.Prelude.{◌≡◌, length, IfOk};

use std::alloc::{AllocError, Global};
use std::process::Abort;
use std::sync::Wait;
use std::sync::atomic::{AtomicU32, Ordering};
use std::test::Fail;
use std::thread;
use std::thread::Threads;
use t1_elf::{Image, Listed};
use t1_event::{Config, Report};
use t1_live::{Agents, FreeGate, Gate, run_live};
use t1_num::{ChipKind, put_be};

/// Two cores of one strand.
const TWO: Config = Config {
    chip: ChipKind::T1,
    hyper: false,
    cores: 2,
    strands: 1,
    ram: 65536,
    sets: 1024,
    budget: 10,
};

/// Core c stores 1 to its own line and loads the other core's, with `membar #StoreLoad` between.
const STORE_MEMBAR_LOAD: [u32; 7] = [
    0x832a_300a,
    0x8418_6400,
    0x8610_2001,
    0xc670_6800,
    0x8143_e002,
    0xc858_a800,
    0xb580_2000,
];

/// `ba .`, which stands at 400 hex.
const BRANCH_TO_ITSELF: u32 = 0x1080_0000;

/// The agents of two cores: 0 and 1, the destinations 8 to 12, and the crossbar 13.
const ALL: u32 = 0b11_1111_0000_0011;

/// 65,536 bytes of zeros.
fn zeros(alloc: Global) -> Result<Vec<u8>, AllocError>
    ensures { IfOk result (λ bytes. length bytes.items ≡ 65536) }
{
    Vec::from_elem(alloc, 0u8, 65536)
}

/// Puts words at an address and above.
fn put_words(ram: &mut [u8], start: usize, words: &[u32])
    requires { length ram.old ≡ 65536 }
    ensures { length ram.new ≡ 65536 }
{
    let mut at = start;
    for word in words {
        if at > 65532 {
            return;
        }
        put_be(ram, at, 4, *word as u64);
        at += 4;
    }
}

/// A memory of 65,536 bytes with the program at 100 hex, and a branch to itself at 400 hex.
fn program(alloc: Global) -> Result<Image, AllocError>
    ensures ram { IfOk result (λ image. length image.ram ≡ 65536) }
    ensures entry { IfOk result (λ image. image.entry ≡ 256) }
{
    let mut ram = zeros(alloc)?;
    put_words(ram.as_mut_slice(), 0x100, &STORE_MEMBAR_LOAD);
    put_words(ram.as_mut_slice(), 0x400, &[BRANCH_TO_ITSELF]);
    Ok(Image {
        entry: 0x100,
        ram: Listed::from_vec(ram),
    })
}

/// Holds each agent's first turn until each other agent of a set has come to its own, and notes which
/// of them saw that.
#[derive(Drop)]
struct Meeting {
    all: u32,
    came: AtomicU32,
    met: AtomicU32,
}

impl Gate for Meeting {
    fn pass(&self, agent: u8) {
        let bit = 1u32 << (agent % 32);
        if self.came.fetch_or(bit, Ordering::SeqCst) & bit != 0 {
            return;
        }
        for _ in 0..100_000_000u32 {
            if self.came.load(Ordering::SeqCst) == self.all {
                self.met.fetch_or(bit, Ordering::SeqCst);
                return;
            }
            thread::yield_now();
        }
    }
}

/// One run of the program on two cores.
fn report_of<R: Threads + Wait + Sync, G: Gate + Sync>(
    rt: &R,
    alloc: Global,
    gate: &G,
) -> Result<Report, AllocError> {
    let image = program(alloc)?;
    let agents = Agents::build(alloc, &TWO, image)?;
    let agents = run_live(rt, alloc, agents, gate)?;
    Ok(agents.into_report())
}

/// What the load of a strand read, its item number 8.
fn loaded(rt: &impl Abort, report: &Report, strand: usize) -> u64 {
    let trace = report.traces.as_slice().get(strand).expect(rt, "a trace");
    let item = trace.items.as_slice().get(8).expect(rt, "a load");
    item.got
}

#[test]
fn all_agents_run_beside_each_other(rt: HostRuntime) -> Result<(), Fail> {
    let gate = Meeting {
        all: ALL,
        came: AtomicU32::new(0),
        met: AtomicU32::new(0),
    };
    let report = report_of(&rt, rt.alloc(), &gate)?;
    assert_eq!(rt; gate.met.load(Ordering::SeqCst), ALL);
    assert_eq!(rt; report.traces.as_slice().len(), 2);
    Ok(())
}

#[test]
fn a_barrier_lets_one_core_see_the_others_store(rt: HostRuntime) -> Result<(), Fail> {
    for _ in 0..20u32 {
        let report = report_of(&rt, rt.alloc(), &FreeGate)?;
        assert!(rt; loaded(&rt, &report, 0) == 1 || loaded(&rt, &report, 1) == 1);
    }
    Ok(())
}
