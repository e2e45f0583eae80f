//! Runs of an OpenSPARC T2.
use crate::chip::program;
use std::process::Abort;
use std::test::Fail;
use t1_chip::Chip;
use t1_event::{Config, Ending, ItemKind, Report};
use t1_machine::Schedule;
use t1_num::ChipKind;

/// One core of one strand.
const ONE: Config = Config {
    chip: ChipKind::T2,
    hyper: false,
    cores: 1,
    strands: 1,
    ram: 65536,
    sets: 512,
    budget: 10,
};

/// Eight cores of eight strands.
const ALL: Config = Config {
    chip: ChipKind::T2,
    hyper: false,
    cores: 8,
    strands: 8,
    ram: 65536,
    sets: 512,
    budget: 15000,
};

/// Two cores of two strands.
const FOUR: Config = Config {
    chip: ChipKind::T2,
    hyper: false,
    cores: 2,
    strands: 2,
    ram: 65536,
    sets: 1,
    budget: 1000,
};

/// Each strand adds ten to a word by compare and swap; the strand that brings it to ten for each strand
/// writes it to the console.
const COUNTER: [u32; 22] = [
    0x2100_0004,
    0xa014_2000,
    0xa210_200a,
    0xa44a_4011,
    0xc25c_0000,
    0x8400_6001,
    0xc5f4_1001,
    0x80a0_4002,
    0x126f_fffc,
    0x0100_0000,
    0x8200_6001,
    0xa2a4_6001,
    0x126f_fff8,
    0x0100_0000,
    0x80a0_4012,
    0x1268_0006,
    0xa610_2001,
    0xa72c_f027,
    0x8530_7008,
    0xc42c_c000,
    0xc22c_c000,
    0xb580_2000,
];

/// What the last atomic of the memory order that wrote put.
fn last_put(rt: &impl Abort, report: &Report) -> u64 {
    let mut last = 0;
    for place in report.order.as_slice() {
        let trace = report
            .traces
            .as_slice()
            .get(place.strand as usize)
            .expect(rt, "a trace");
        let item = trace
            .items
            .as_slice()
            .get(place.item as usize)
            .expect(rt, "an item");
        if item.kind == (ItemKind::Atomic { wrote: true }) {
            last = item.put;
        }
    }
    last
}

#[test]
fn a_line_is_of_one_of_eight_banks(rt: HostRuntime) -> Result<(), Fail> {
    let words = [0x8210_2005, 0xc270_2200, 0xc458_2200, 0xb580_2000];
    let mut chip = Chip::build(rt.alloc(), &ONE, program(rt.alloc(), 0x100, &words)?)?;
    assert!(rt; chip.slots() == 98);
    chip.run(Schedule::Turns);
    let report = chip.into_report();
    let commit = report.log.as_slice().get(0).expect(&rt, "a commit");
    assert!(rt; commit.dest == 4);
    Ok(())
}

#[test]
fn all_strands_count(rt: HostRuntime) -> Result<(), Fail> {
    let mut chip = Chip::build(rt.alloc(), &ALL, program(rt.alloc(), 0x100, &COUNTER)?)?;
    chip.run(Schedule::Turns);
    let report = chip.into_report();
    assert!(rt; report.traces.as_slice().len() == 64);
    for trace in report.traces.as_slice() {
        assert!(rt; trace.ending == Some(Ending::Halted));
    }
    assert!(rt; last_put(&rt, &report) == 0x280);
    assert!(rt; report.console.as_slice() == [0x02u8, 0x80].as_slice());
    Ok(())
}

/// Each slot stands in the table as often as the others, or nearly so.
#[test]
fn a_drawn_run_ends(rt: HostRuntime) -> Result<(), Fail> {
    let mut table = [0u8; 1024];
    let mut number = 0u8;
    for entry in &mut table {
        *entry = number;
        number = number.wrapping_add(1) % 98;
    }
    let mut chip = Chip::build(rt.alloc(), &FOUR, program(rt.alloc(), 0x100, &COUNTER)?)?;
    chip.run_drawn(&table, 7);
    assert!(rt; chip.finished());
    let report = chip.into_report();
    assert!(rt; last_put(&rt, &report) == 0x28);
    Ok(())
}
