//! Requests to a bank, and what is served for them as a plain program computed it from the rule: RAM
//! of 65,536 bytes of 7, bank 0, three cores. What a row does not say is 0 or none.
ghost use Rattle.std.specs.Prelude.{◌<◌};

use t1_packet::{Cache, Kill, Op};

/// A request, and the access that is served for it.
#[derive(Clone, Copy, Debug)]
pub struct Case {
    pub core: u8,
    pub op: Op,
    pub old: u64,
    pub way: Option<u8>,
    pub evicted: Option<u64>,
    pub kills: [Option<Kill>; 4],
    /// The first four bytes of the line of a fill.
    pub head: u32,
}

fn ask(core: u8, op: Op) -> Case {
    Case {
        core,
        op,
        old: 0,
        way: None,
        evicted: None,
        kills: [None; 4],
        head: 0,
    }
}

fn fetch(core: u8, addr: u64, way: u8) -> Case {
    ask(core, Op::Fetch { addr, way })
}

fn load(core: u8, addr: u64, size: u8, way: u8) -> Case {
    ask(core, Op::Load { addr, size, way })
}

fn store(core: u8, addr: u64, size: u8, value: u64) -> Case {
    ask(core, Op::Store { addr, size, value })
}

fn swap(core: u8, addr: u64, size: u8, new: u64) -> Case {
    ask(core, Op::Swap { addr, size, new })
}

fn cas(core: u8, addr: u64, size: u8, expect: u64, new: u64) -> Case {
    ask(
        core,
        Op::Cas {
            addr,
            size,
            expect,
            new,
        },
    )
}

fn data(core: u8, set: u8, way: u8) -> Option<Kill>
    requires { (core < 8) × (set < 128) × (way < 8) }
{
    Some(Kill::new(core, Cache::Dcache, set, way))
}

fn insn(core: u8, set: u8, way: u8) -> Option<Kill>
    requires { (core < 8) × (set < 128) × (way < 8) }
{
    Some(Kill::new(core, Cache::Icache, set, way))
}

impl Case {
    fn gives(mut self, old: u64) -> Case {
        self.old = old;
        self
    }

    fn fills(mut self, way: u8, head: u32) -> Case {
        self.way = Some(way);
        self.head = head;
        self
    }

    fn evicts(mut self, addr: u64) -> Case {
        self.evicted = Some(addr);
        self
    }

    fn kills1(mut self, a: Option<Kill>) -> Case {
        let kills = [a, None, None, None];
        self.kills = kills;
        self
    }

    fn kills2(mut self, a: Option<Kill>, b: Option<Kill>) -> Case {
        let kills = [a, b, None, None];
        self.kills = kills;
        self
    }

    fn kills3(mut self, a: Option<Kill>, b: Option<Kill>, c: Option<Kill>) -> Case {
        let kills = [a, b, c, None];
        self.kills = kills;
        self
    }

    fn kills4(
        mut self,
        a: Option<Kill>,
        b: Option<Kill>,
        c: Option<Kill>,
        d: Option<Kill>,
    ) -> Case {
        let kills = [a, b, c, d];
        self.kills = kills;
        self
    }
}

fn one_set_from_0() -> [Case; 10] {
    [
        fetch(0, 0x1e38, 0).gives(0x7070707).fills(0, 0x7070707),
        load(2, 0x10000, 8, 1),
        fetch(2, 0x1328, 1).gives(0x7070707).fills(1, 0x7070707),
        store(0, 0x1428, 1, 0x3e).gives(7),
        load(0, 0x1010, 1, 2).gives(7).fills(2, 0x7070707),
        fetch(1, 0x1328, 3).gives(0x7070707).fills(3, 0x7070707),
        swap(2, 0x1e00, 8, 0x18f2c41c).gives(0x707070707070707),
        load(0, 0x1a28, 4, 3).gives(0x7070707).fills(3, 0x7070707),
        swap(2, 0x1828, 4, 0xe779c470).gives(0x7070707),
        store(1, 0x1200, 4, 0xe79a27e6).gives(0x7070707),
    ]
}

fn one_set_from_10() -> [Case; 10] {
    [
        fetch(2, 0x1110, 2).gives(0x7070707).fills(2, 0x7070707),
        store(0, 0x1002, 4, 7),
        load(0, 0x1428, 8, 0)
            .gives(0x3e07070707070707)
            .fills(0, 0x7070707),
        store(0, 0x1320, 4, 0x3c67523f)
            .gives(0x7070707)
            .kills2(insn(1, 25, 3), insn(2, 25, 1)),
        load(0, 0x1900, 2, 3).gives(0x707).fills(3, 0x7070707),
        store(1, 0x1020, 4, 0xf56a).gives(0x7070707),
        cas(0, 0x1728, 4, 0x7070707, 0x9ec0).gives(0x7070707),
        load(2, 0x1508, 4, 3).gives(0x7070707).fills(3, 0x7070707),
        fetch(1, 0x1028, 2).gives(0x7070707).fills(2, 0xf56a),
        load(0, 0x1200, 4, 3).gives(0xe79a27e6).fills(3, 0xe79a27e6),
    ]
}

fn one_set_from_20() -> [Case; 10] {
    [
        store(1, 0x1b10, 8, 0x96).gives(0x707070707070707),
        cas(0, 0x1510, 4, 1, 0x4c73).gives(0x7070707),
        store(2, 0x1220, 4, 0x439e7fa9).gives(0x7070707),
        swap(1, 0x1d00, 4, 0x4f5d410c)
            .gives(0x7070707)
            .evicts(0x1e00)
            .kills1(insn(0, 113, 0)),
        load(2, 0x1120, 2, 3).gives(0x707).fills(3, 0x7070707),
        store(2, 0x1520, 2, 0xcf4c).gives(0x707),
        store(0, 0x1002, 4, 7),
        swap(0, 0x1320, 4, 0xdd1d4096).gives(0x3c67523f),
        load(1, 0x1020, 2, 3).fills(3, 0xf56a),
        fetch(1, 0x1320, 3).gives(0xdd1d4096).fills(3, 0xdd1d4096),
    ]
}

fn one_set_from_30() -> [Case; 10] {
    [
        load(1, 0x1e28, 2, 1)
            .gives(0x707)
            .fills(1, 0x7070707)
            .evicts(0x1300)
            .kills1(insn(1, 25, 3)),
        fetch(0, 0x1428, 1).gives(0x3e070707).fills(1, 0x7070707),
        store(0, 0x1510, 4, 0xdc).gives(0x7070707),
        swap(0, 0x1008, 4, 0x8ff3aad).gives(0x7070707),
        fetch(2, 0x1e28, 0).gives(0x7070707).fills(0, 0x7070707),
        fetch(0, 0x1810, 1).gives(0x7070707).fills(1, 0x7070707),
        store(2, 0x1002, 4, 7),
        load(0, 0x1300, 4, 1)
            .gives(0x7070707)
            .fills(1, 0x7070707)
            .evicts(0x1400)
            .kills2(data(0, 66, 0), insn(0, 33, 1)),
        load(0, 0x1000, 2, 2).gives(0x707).fills(2, 0x7070707),
        swap(0, 0x1a28, 4, 0xc1a9425a)
            .gives(0x7070707)
            .kills1(data(0, 34, 3)),
    ]
}

fn one_set_from_40() -> [Case; 10] {
    [
        load(1, 0x1428, 1, 3)
            .gives(0x3e)
            .fills(3, 0x7070707)
            .evicts(0x1000)
            .kills4(data(0, 0, 2), data(0, 1, 2), data(1, 2, 3), insn(1, 1, 2)),
        store(1, 0x1000, 1, 0xc).gives(7).evicts(0x1a00),
        fetch(0, 0x1b00, 3).gives(0x7070707).fills(3, 0x7070707),
        load(1, 0x1628, 4, 2)
            .gives(0x7070707)
            .fills(2, 0x7070707)
            .evicts(0x1800)
            .kills1(insn(0, 64, 1)),
        load(1, 0x1100, 1, 3).gives(7).fills(3, 0x7070707),
        fetch(0, 0x1728, 0).gives(0x9ec0).fills(0, 0x7070707),
        cas(2, 0x1a38, 4, 1, 0x6ba6)
            .gives(0x7070707)
            .evicts(0x1200)
            .kills1(data(0, 32, 3)),
        load(2, 0x1310, 1, 3).gives(7).fills(3, 0x7070707),
        load(0, 0x1220, 4, 0)
            .gives(0x439e7fa9)
            .fills(0, 0x439e7fa9)
            .evicts(0x1100)
            .kills3(data(1, 16, 3), data(2, 18, 3), insn(2, 8, 2)),
        store(1, 0x1528, 1, 0xe1).gives(7),
    ]
}

fn one_set_from_50() -> [Case; 10] {
    [
        fetch(2, 0x1500, 3).gives(0x7070707).fills(3, 0x7070707),
        load(0, 0x1800, 1, 3)
            .gives(7)
            .fills(3, 0x7070707)
            .evicts(0x1900)
            .kills1(data(0, 16, 3)),
        swap(0, 0x1d00, 4, 0xd80caa4d).gives(0x4f5d410c),
        store(0, 0x1210, 1, 0xff).gives(7),
        fetch(2, 0x1000, 0).gives(0xc070707).fills(0, 0xc070707),
        load(2, 0x1d00, 2, 1).gives(0xd80c).fills(1, 0xd80caa4d),
        load(2, 0x1310, 4, 3).gives(0x7070707).fills(3, 0x7070707),
        fetch(1, 0x1308, 3).gives(0x7070707).fills(3, 0x7070707),
        cas(2, 0x1938, 4, 0x7070707, 0xa498)
            .gives(0x7070707)
            .evicts(0x1700)
            .kills1(insn(0, 57, 0)),
        cas(1, 0x1138, 4, 1, 0xeaa7)
            .gives(0x7070707)
            .evicts(0x1500)
            .kills2(data(2, 80, 3), insn(2, 40, 3)),
    ]
}

/// The requests to a bank with one set, over 15 lines, in order.
pub fn one_set() -> [[Case; 10]; 6] {
    [
        one_set_from_0(),
        one_set_from_10(),
        one_set_from_20(),
        one_set_from_30(),
        one_set_from_40(),
        one_set_from_50(),
    ]
}

fn two_sets_from_0() -> [Case; 10] {
    [
        load(0, 0x1120, 8, 2)
            .gives(0x707070707070707)
            .fills(2, 0x7070707),
        store(1, 0x1000, 4, 0x65ef).gives(0x7070707),
        store(0, 0x1538, 4, 0x9dc3c7eb).gives(0x7070707),
        fetch(0, 0x3300, 3).gives(0x7070707).fills(3, 0x7070707),
        store(2, 0x2708, 2, 0x6533).gives(0x707),
        load(2, 0x2d38, 1, 3).gives(7).fills(3, 0x7070707),
        store(0, 0x1238, 1, 0x19).gives(7),
        load(1, 0x3610, 1, 3).gives(7).fills(3, 0x7070707),
        load(2, 0x2b10, 2, 0).gives(0x707).fills(0, 0x7070707),
        store(1, 0x3400, 1, 0x45).gives(7),
    ]
}

fn two_sets_from_10() -> [Case; 10] {
    [
        load(1, 0x3408, 1, 1).gives(7).fills(1, 0x45070707),
        load(0, 0x1300, 1, 3).gives(7).fills(3, 0x7070707),
        fetch(0, 0x1a28, 3).gives(0x7070707).fills(3, 0x7070707),
        swap(0, 0x1600, 4, 0xe461c3cb).gives(0x7070707),
        load(0, 0x1040, 8, 0),
        swap(2, 0x1508, 8, 0xb1605a13).gives(0x707070707070707),
        fetch(1, 0x2900, 3).gives(0x7070707).fills(3, 0x7070707),
        load(2, 0x1128, 1, 3).gives(7).fills(3, 0x7070707),
        load(2, 0x2900, 1, 2).gives(7).fills(2, 0x7070707),
        fetch(2, 0x1400, 1).gives(0x7070707).fills(1, 0x7070707),
    ]
}

fn two_sets_from_20() -> [Case; 10] {
    [
        load(2, 0x1b00, 4, 1).gives(0x7070707).fills(1, 0x7070707),
        swap(2, 0x1100, 8, 0xa9f7a7b2).gives(0x707070707070707),
        load(0, 0x1538, 2, 2).gives(0x9dc3).fills(2, 0x7070707),
        fetch(0, 0x1100, 3).fills(3, 0x0),
        load(2, 0x1010, 8, 2)
            .gives(0x707070707070707)
            .fills(2, 0x7070707),
        swap(2, 0x1b00, 8, 0x971774ca)
            .gives(0x707070707070707)
            .kills1(data(2, 48, 1)),
        load(0, 0x1800, 2, 2).gives(0x707).fills(2, 0x7070707),
        load(1, 0x3410, 2, 1).gives(0x707).fills(1, 0x7070707),
        fetch(1, 0x1a08, 1).gives(0x7070707).fills(1, 0x7070707),
        swap(2, 0x1400, 8, 0xa34f1b79)
            .gives(0x707070707070707)
            .kills1(insn(2, 32, 1)),
    ]
}

fn two_sets_from_30() -> [Case; 10] {
    [
        load(1, 0x1200, 8, 3)
            .gives(0x707070707070707)
            .fills(3, 0x7070707),
        store(1, 0x2910, 2, 0x779d)
            .gives(0x707)
            .kills1(insn(1, 72, 3)),
        load(2, 0x2520, 4, 2).gives(0x7070707).fills(2, 0x7070707),
        store(2, 0x1d00, 1, 0xda).gives(7),
        store(2, 0x1108, 2, 0x641)
            .gives(0x707)
            .kills1(insn(0, 8, 3)),
        store(0, 0x2a00, 1, 0x78).gives(7),
        fetch(0, 0x1228, 0).gives(0x7070707).fills(0, 0x7070707),
        fetch(2, 0x3100, 2).gives(0x7070707).fills(2, 0x7070707),
        load(1, 0x2f00, 3, 0),
        fetch(1, 0x1428, 0).gives(0x7070707).fills(0, 0x7070707),
    ]
}

fn two_sets_from_40() -> [Case; 10] {
    [
        load(0, 0x1900, 8, 1)
            .gives(0x707070707070707)
            .fills(1, 0x7070707)
            .evicts(0x1100)
            .kills2(data(0, 18, 2), data(2, 18, 3)),
        load(2, 0x1a20, 4, 3).gives(0x7070707).fills(3, 0x7070707),
        swap(2, 0x1228, 8, 0xa16364d8)
            .gives(0x707070707070707)
            .kills1(insn(0, 17, 0)),
        load(1, 0x3210, 1, 3).gives(7).fills(3, 0x7070707),
        fetch(0, 0x1100, 2)
            .fills(2, 0x0)
            .evicts(0x1500)
            .kills1(data(0, 83, 2)),
        cas(0, 0x1220, 4, 1, 0xf5be).gives(0x7070707),
        store(2, 0x3300, 2, 0xa8)
            .gives(0x707)
            .kills1(insn(0, 24, 3)),
        load(2, 0x1100, 2, 3).fills(3, 0x0),
        load(2, 0x1700, 4, 1)
            .gives(0x7070707)
            .fills(1, 0x7070707)
            .evicts(0x3300),
        load(0, 0x1300, 4, 2).gives(0x7070707).fills(3, 0x7070707),
    ]
}

fn two_sets_from_50() -> [Case; 10] {
    [
        load(0, 0x1520, 8, 0)
            .gives(0x707070707070707)
            .fills(0, 0x7070707)
            .evicts(0x2700),
        swap(1, 0x2500, 8, 0x37d14366).gives(0x707070707070707),
        fetch(2, 0x1110, 0).gives(0x7070707).fills(0, 0x0),
        load(0, 0x1200, 1, 2).gives(7).fills(2, 0x7070707),
        cas(2, 0x2320, 4, 0x7070707, 0x130d)
            .gives(0x7070707)
            .evicts(0x2d00)
            .kills1(data(2, 83, 3)),
        load(0, 0x2710, 8, 3)
            .gives(0x707070707070707)
            .fills(3, 0x7070707)
            .evicts(0x2b00)
            .kills1(data(2, 49, 0)),
        fetch(0, 0x1002, 1),
        load(1, 0x1338, 2, 1).gives(0x707).fills(1, 0x7070707),
        fetch(0, 0x1500, 3).gives(0x7070707).fills(3, 0x7070707),
        store(1, 0x1002, 4, 7),
    ]
}

/// The requests to a bank with two sets, over 40 lines, in order.
pub fn two_sets() -> [[Case; 10]; 6] {
    [
        two_sets_from_0(),
        two_sets_from_10(),
        two_sets_from_20(),
        two_sets_from_30(),
        two_sets_from_40(),
        two_sets_from_50(),
    ]
}
