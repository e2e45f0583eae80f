ghost use Rattle.std.specs.Prelude.{◌≡◌, false};
ghost use Rattle.t1_num.specs.declared.chip.ChipKind.TheVariants.{T1};

use crate::bank_rows::{Case, one_set, two_sets};
use std::process::Abort;
use std::test::Fail;
use t1_bank::Bank;
use t1_event::Config;
use t1_num::ChipKind;
use t1_packet::{Cache, Kill, Op, Request, Served};

fn config(cores: u8, sets: u32) -> Config
    ensures { result ≡ record { chip = T1; hyper = false; cores = cores; strands = 4; ram = 65536; sets = sets; budget = 10 } }
{
    Config {
        chip: ChipKind::T1,
        hyper: false,
        cores,
        strands: 4,
        ram: 65536,
        sets,
        budget: 10,
    }
}

fn request(core: u8, op: Op) -> Request {
    Request {
        core: core % 8,
        strand: 0,
        item: 0,
        seen: 0,
        op,
    }
}

fn load(addr: u64, way: u8) -> Op {
    Op::Load { addr, size: 8, way }
}

/// The kills of an access are these, in this order, up to the first `None`.
fn assert_kills(rt: &impl Abort, served: &Served, want: [Option<Kill>; 4], what: u64) {
    let mut kills = served.kills.as_slice().iter();
    for kill in want {
        assert_eq!(rt; kills.next().copied(), kill, "kills of {what:x}");
    }
    assert_eq!(rt; kills.next().copied(), None, "kills of {what:x}");
}

#[test]
fn store_kills_other_cores_copies_and_instruction_lines(rt: HostRuntime) -> Result<(), Fail> {
    let ram = Vec::from_elem(rt.alloc(), 7u8, 65536)?;
    let mut bank = Bank::new(rt.alloc(), 0, &config(2, 1024), &ram)?;
    let fetched = bank.serve(request(
        0,
        Op::Fetch {
            addr: 0x200,
            way: 2,
        },
    ));
    assert_eq!(rt;
        (fetched.way, fetched.old, fetched.line[31]),
        (Some(2), 0x07070707, 7)
    );
    let loaded = bank.serve(request(0, load(0x200, 0)));
    assert_eq!(rt;
        (loaded.way, loaded.line[15], loaded.line[16]),
        (Some(0), 7, 0)
    );
    let other = bank.serve(request(1, load(0x200, 3)));
    assert_eq!(rt; (other.way, other.evicted), (Some(3), None));
    let stored = bank.serve(request(
        0,
        Op::Store {
            addr: 0x200,
            size: 4,
            value: 0xdead_beef,
        },
    ));
    let kills = [
        Some(Kill::new(0, Cache::Icache, 16, 2)),
        Some(Kill::new(1, Cache::Dcache, 32, 3)),
        None,
        None,
    ];
    assert_kills(&rt, &stored, kills, 0x200);
    let compared = bank.serve(request(
        0,
        Op::Cas {
            addr: 0x200,
            size: 4,
            expect: 1,
            new: 2,
        },
    ));
    assert_eq!(rt; compared.old, 0xdead_beef);
    assert_kills(&rt, &compared, [None; 4], 0x200);
    Ok(())
}

#[test]
fn eviction_kills_the_copies_inside_and_is_written_back(rt: HostRuntime) -> Result<(), Fail> {
    let ram = Vec::from_elem(rt.alloc(), 7u8, 65536)?;
    let mut bank = Bank::new(rt.alloc(), 0, &config(2, 1), &ram)?;
    let put = bank.serve(request(
        1,
        Op::Store {
            addr: 0x1008,
            size: 8,
            value: 77,
        },
    ));
    assert_eq!(rt; put.way, None);
    for k in 0..12u64 {
        let way = if k < 8 { 0 } else { 1 };
        let served = bank.serve(request(0, load(0x1000 + 0x100 * k, way)));
        assert_eq!(rt; served.evicted, None, "line {k}");
    }
    let last = bank.serve(request(0, load(0x1c00, 1)));
    assert_eq!(rt; last.evicted, Some(0x1000));
    let kills = [Some(Kill::new(0, Cache::Dcache, 0, 0)), None, None, None];
    assert_kills(&rt, &last, kills, 0x1c00);
    let again = bank.serve(request(1, load(0x1008, 0)));
    assert_eq!(rt; (again.old, again.evicted), (77, Some(0x1100)));
    Ok(())
}

#[test]
fn another_banks_address_is_refused(rt: HostRuntime) -> Result<(), Fail> {
    let ram = Vec::from_elem(rt.alloc(), 7u8, 65536)?;
    let mut bank = Bank::new(rt.alloc(), 0, &config(1, 1024), &ram)?;
    let served = bank.serve(request(0, load(0x240, 0)));
    assert_eq!(rt; (served.old, served.way, served.evicted), (0, None, None));
    assert_kills(&rt, &served, [None; 4], 0x240);
    Ok(())
}

fn assert_cases(rt: &impl Abort, bank: &mut Bank, cases: [[Case; 10]; 6]) {
    for case in cases.as_flattened() {
        let case = *case;
        let served = bank.serve(request(case.core, case.op));
        let op = case.op;
        assert_eq!(rt;
            (served.old, served.way, served.evicted),
            (case.old, case.way, case.evicted),
            "{op:?}"
        );
        let head = u32::from_be_bytes([
            served.line[0],
            served.line[1],
            served.line[2],
            served.line[3],
        ]);
        assert_eq!(rt; head, case.head, "line of {op:?}");
        assert_kills(rt, &served, case.kills, case.old);
    }
}

#[test]
fn accesses_are_those_of_the_plain_rule(rt: HostRuntime) -> Result<(), Fail> {
    let ram = Vec::from_elem(rt.alloc(), 7u8, 65536)?;
    let mut bank = Bank::new(rt.alloc(), 0, &config(3, 1), &ram)?;
    assert_cases(&rt, &mut bank, one_set());
    let mut bank = Bank::new(rt.alloc(), 0, &config(3, 2), &ram)?;
    assert_cases(&rt, &mut bank, two_sets());
    Ok(())
}

/// A bank of 16 ways: the 17th line of a set makes room, and kills the copy of the line that goes.
#[test]
fn second_chip_has_sixteen_ways(rt: HostRuntime) -> Result<(), Fail> {
    let ram = Vec::from_elem(rt.alloc(), 7u8, 65536)?;
    let config = Config {
        chip: ChipKind::T2,
        hyper: false,
        cores: 1,
        strands: 1,
        ram: 65536,
        sets: 1,
        budget: 10,
    };
    let mut bank = Bank::new(rt.alloc(), 0, &config, ram.as_slice())?;
    for k in 0..17u64 {
        let op = Op::Load {
            addr: 0x1000 + 0x200 * k,
            size: 8,
            way: (k / 4 % 4) as u8,
        };
        let served = bank.serve(Request {
            core: 0,
            strand: 0,
            item: k as u32,
            seen: 0,
            op,
        });
        if k < 16 {
            assert_eq!(rt; served.evicted, None);
            assert_eq!(rt; served.kills.len(), 0);
        } else {
            assert_eq!(rt; served.evicted, Some(0x1000));
            assert_eq!(rt; served.kills.len(), 1);
            for kill in served.kills.as_slice() {
                assert_eq!(rt; *kill, Kill::new(0, Cache::Dcache, 0, 0));
            }
        }
    }
    Ok(())
}
