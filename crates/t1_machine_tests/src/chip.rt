ghost use Rattle.std.specs.Prelude.{◌≡◌, length, IfOk};

use std::alloc::{AllocError, Global};
use std::process::Abort;
use std::test::Fail;
use t1_chip::{Chip, Step};
use t1_core::Wait;
use t1_elf::{Image, Listed};
use t1_event::{Config, How, Report};
use t1_machine::Schedule;
use t1_num::{ChipKind, put_be};
use t1_packet::Cache;

/// One core of one strand.
const ONE: Config = Config {
    chip: ChipKind::T1,
    hyper: false,
    cores: 1,
    strands: 1,
    ram: 65536,
    sets: 1024,
    budget: 10,
};

/// Two cores of one strand.
const TWO: Config = Config {
    chip: ChipKind::T1,
    hyper: false,
    cores: 2,
    strands: 1,
    ram: 65536,
    sets: 1024,
    budget: 10,
};

/// One core of one strand, with one set in each L2 bank.
const ONE_SET: Config = Config {
    chip: ChipKind::T1,
    hyper: false,
    cores: 1,
    strands: 1,
    ram: 65536,
    sets: 1,
    budget: 20,
};

/// Core c stores 1 to its own line and loads the other core's.
const STORE_THEN_LOAD: [u32; 6] = [
    0x832a_300a,
    0x8418_6400,
    0x8610_2001,
    0xc670_6800,
    0xc858_a800,
    0xb580_2000,
];

/// The same, with `membar #StoreLoad` between the two.
pub(crate) const STORE_MEMBAR_LOAD: [u32; 7] = [
    0x832a_300a,
    0x8418_6400,
    0x8610_2001,
    0xc670_6800,
    0x8143_e002,
    0xc858_a800,
    0xb580_2000,
];

/// `ba .`, which stands at 400 hex.
const BRANCH_TO_ITSELF: u32 = 0x1080_0000;

/// 65,536 bytes of zeros.
fn zeros(alloc: Global) -> Result<Vec<u8>, AllocError>
    ensures { IfOk result (λ bytes. length bytes.items ≡ 65536) }
{
    Vec::from_elem(alloc, 0u8, 65536)
}

/// Puts words at an address and above.
fn put_words(ram: &mut [u8], start: usize, words: &[u32])
    requires { length ram.old ≡ 65536 }
    ensures { length ram.new ≡ 65536 }
{
    let mut at = start;
    for word in words {
        if at > 65532 {
            return;
        }
        put_be(ram, at, 4, *word as u64);
        at += 4;
    }
}

/// A memory of 65,536 bytes with these words from an entry on, and a branch to itself at 400 hex.
pub(crate) fn program(alloc: Global, entry: u16, words: &[u32]) -> Result<Image, AllocError>
    ensures ram { IfOk result (λ image. length image.ram ≡ 65536) }
    ensures entry { IfOk result (λ image. image.entry ≡ entry) }
{
    let mut ram = zeros(alloc)?;
    put_words(ram.as_mut_slice(), entry as usize, words);
    put_words(ram.as_mut_slice(), 0x400, &[BRANCH_TO_ITSELF]);
    Ok(Image {
        entry: entry as u64,
        ram: Listed::from_vec(ram),
    })
}

/// Does slots, each of which has to be enabled.
fn do_all(rt: &impl Abort, chip: &mut Chip, numbers: &[u8]) {
    for number in numbers {
        assert!(rt; *number < chip.slots());
        assert!(rt; chip.enabled(*number));
        assert!(rt; chip.step(*number) == Step::Done);
    }
}

/// What an item of a strand read, and where it stands.
pub(crate) fn read_at(
    rt: &impl Abort,
    report: &Report,
    strand: usize,
    number: usize,
) -> (u64, How) {
    let trace = report.traces.as_slice().get(strand).expect(rt, "a trace");
    let item = trace.items.as_slice().get(number).expect(rt, "an item");
    (item.got, item.how)
}

#[test]
fn a_small_run_is_as_written_down(rt: HostRuntime) -> Result<(), Fail> {
    let image = program(
        rt.alloc(),
        0x100,
        &[0x8210_2005, 0xc270_2200, 0xc458_2200, 0xb580_2000],
    )?;
    let mut chip = Chip::build(rt.alloc(), &ONE, image)?;
    do_all(
        &rt,
        &mut chip,
        &[
            0, 48, 53, 40, 0, 0, 0, 8, 48, 53, 0, 40, 0, 48, 53, 40, 0, 0,
        ],
    );
    assert!(rt; chip.finished());
    let report = chip.into_report();
    assert!(rt; read_at(&rt, &report, 0, 0) == (0x8210_2005, How::Commit { index: 0, seen: 0 }));
    assert!(rt; read_at(&rt, &report, 0, 1) == (0xc270_2200, How::Hit { time: 1 }));
    assert!(rt; read_at(&rt, &report, 0, 2) == (0, How::Commit { index: 1, seen: 1 }));
    assert!(rt; read_at(&rt, &report, 0, 4) == (5, How::Commit { index: 2, seen: 2 }));
    assert!(rt; read_at(&rt, &report, 0, 5) == (0xb580_2000, How::Hit { time: 3 }));
    for (place, item) in report.order.as_slice().iter().zip([0, 1, 3, 2, 4, 5]) {
        assert!(rt; place.item == item);
    }
    Ok(())
}

#[test]
fn a_load_waits_while_a_store_covers_some_of_its_bytes(rt: HostRuntime) -> Result<(), Fail> {
    let image = program(
        rt.alloc(),
        0x100,
        &[0x8210_2005, 0xc228_2203, 0xc400_2200, 0xb580_2000],
    )?;
    let mut chip = Chip::build(rt.alloc(), &ONE, image)?;
    do_all(&rt, &mut chip, &[0, 48, 53, 40, 0, 0, 0, 0]);
    assert!(rt; !chip.enabled(0));
    assert!(rt; chip.step(0) == Step::Idle);
    assert!(rt; chip.wait_of(0, 0) == Some(Wait::Overlap(0)));
    do_all(&rt, &mut chip, &[8, 48, 53, 40, 0, 48, 53, 40]);
    chip.run(Schedule::Turns);
    assert!(rt; chip.finished());
    let report = chip.into_report();
    assert!(rt; read_at(&rt, &report, 0, 4) == (5, How::Commit { index: 2, seen: 2 }));
    Ok(())
}

#[test]
fn a_load_is_forwarded_from_a_store_that_covers_it(rt: HostRuntime) -> Result<(), Fail> {
    let image = program(
        rt.alloc(),
        0x100,
        &[0x8210_2005, 0xc220_2200, 0xc408_2203, 0xb580_2000],
    )?;
    let mut chip = Chip::build(rt.alloc(), &ONE, image)?;
    do_all(&rt, &mut chip, &[0, 48, 53, 40, 0, 0, 0, 0, 0]);
    chip.run(Schedule::Turns);
    let report = chip.into_report();
    assert!(rt; read_at(&rt, &report, 0, 4) == (5, How::Forward { time: 1 }));
    assert!(rt; read_at(&rt, &report, 0, 2) == (0, How::Commit { index: 1, seen: 1 }));
    let order = report.order.as_slice();
    assert!(rt; order.len() == 6);
    for (place, item) in order.iter().zip([0, 1, 3, 4, 5, 2]) {
        assert!(rt; place.item == item);
    }
    Ok(())
}

#[test]
fn both_cores_load_before_either_store_is_out(rt: HostRuntime) -> Result<(), Fail> {
    let image = program(rt.alloc(), 0x100, &STORE_THEN_LOAD)?;
    let mut chip = Chip::build(rt.alloc(), &TWO, image)?;
    do_all(&rt, &mut chip, &[0, 1, 48, 53, 40, 48, 53, 41]);
    do_all(&rt, &mut chip, &[0; 9]);
    do_all(&rt, &mut chip, &[1; 9]);
    do_all(&rt, &mut chip, &[48, 53, 48, 53, 40, 41]);
    assert!(rt; !chip.finished());
    chip.run(Schedule::Turns);
    let report = chip.into_report();
    assert!(rt; read_at(&rt, &report, 0, 6) == (0, How::Commit { index: 2, seen: 1 }));
    assert!(rt; read_at(&rt, &report, 1, 6) == (0, How::Commit { index: 3, seen: 2 }));
    assert!(rt; report.log.as_slice().len() == 6);
    Ok(())
}

#[test]
fn a_membar_waits_for_the_store_before_it(rt: HostRuntime) -> Result<(), Fail> {
    let image = program(rt.alloc(), 0x100, &STORE_MEMBAR_LOAD)?;
    let mut chip = Chip::build(rt.alloc(), &TWO, image)?;
    do_all(&rt, &mut chip, &[0, 1, 48, 53, 40, 48, 53, 41]);
    do_all(&rt, &mut chip, &[0; 8]);
    assert!(rt; chip.step(0) == Step::Idle);
    assert!(rt; chip.wait_of(0, 0) == Some(Wait::NotEmpty));
    chip.run(Schedule::Turns);
    let report = chip.into_report();
    let (first, _) = read_at(&rt, &report, 0, 8);
    let (second, _) = read_at(&rt, &report, 1, 8);
    assert!(rt; first == 1 || second == 1);
    Ok(())
}

/// With a budget of 20 and an L2 of one set: a line of each of 13 lines of 256 bytes is loaded, and the
/// first again.
const THIRTEEN_LINES: [u32; 16] = [
    0x0300_0004,
    0xc458_6000,
    0xc458_6100,
    0xc458_6200,
    0xc458_6300,
    0xc458_6400,
    0xc458_6500,
    0xc458_6600,
    0xc458_6700,
    0xc458_6800,
    0xc458_6900,
    0xc458_6a00,
    0xc458_6b00,
    0xc458_6c00,
    0xc458_6000,
    0xb580_2000,
];

#[test]
fn an_eviction_kills_the_copy_of_its_line(rt: HostRuntime) -> Result<(), Fail> {
    let image = program(rt.alloc(), 0x140, &THIRTEEN_LINES)?;
    let mut chip = Chip::build(rt.alloc(), &ONE_SET, image)?;
    chip.run(Schedule::Turns);
    let report = chip.into_report();
    let log = report.log.as_slice();
    assert!(rt; log.len() == 16);
    let commit = log.get(14).expect(&rt, "a commit");
    assert!(rt; commit.item == 26);
    assert!(rt; commit.evicted == Some(0x1000));
    let kills = commit.kills.as_slice();
    assert!(rt; kills.len() == 1);
    let kill = kills.get(0).expect(&rt, "a kill");
    assert!(rt; kill.core == 0 && kill.cache == Cache::Dcache && kill.set == 0 && kill.way == 0);
    let commit = log.get(15).expect(&rt, "a commit");
    assert!(rt; commit.evicted == Some(0x1100));
    Ok(())
}
