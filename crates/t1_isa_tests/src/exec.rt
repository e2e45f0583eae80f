ghost use Rattle.std.specs.Prelude.{◌≡◌};
ghost use Rattle.t1_insn.specs.Ranges.{IsInRange, IsMem};
ghost use Rattle.t1_win.specs.Windows.{IsWindows};
ghost use Rattle.t1_state.specs.Registers.{IsStrand};

use t1_exec::{AtomicOp, Need, finish, issue};
use t1_insn::{AluOp, Insn, LoadKind, Mem, Src, StoreKind};
use t1_state::Strand;
use t1_win::Windows;

/// RAM of 64 KiB.
const RAM: u64 = 0x1_0000;

/// Where the windows stand.
#[derive(Clone, Copy, Debug)]
enum Stand {
    /// As a strand starts: none to go back to.
    Start,
    /// Some to save into, and some to go back to.
    Middle,
    /// The next one is not clean.
    Unclean,
    /// None to save into; the next one is not clean.
    Full,
    /// All are of another address space.
    Other,
}

fn windows(stand: Stand) -> Windows
    ensures { IsWindows result }
{
    let start = Windows {
        cwp: 0,
        cansave: 6,
        canrestore: 0,
        cleanwin: 7,
        otherwin: 0,
        wstate: 0o52,
    };
    let middle = Windows {
        cansave: 3,
        canrestore: 3,
        ..start
    };
    match stand {
        Stand::Start => start,
        Stand::Middle => middle,
        Stand::Unclean => Windows {
            cleanwin: 3,
            ..middle
        },
        Stand::Full => Windows {
            cansave: 0,
            canrestore: 6,
            cleanwin: 6,
            ..start
        },
        Stand::Other => Windows {
            cansave: 0,
            otherwin: 6,
            ..start
        },
    }
}

const PRIVILEGED: bool = true;

const USER: bool = false;

/// A strand at 100 hex, in user mode or privileged, with these addresses in registers: %g1
/// misaligned, %g2 just past RAM, %g3 both, %g4 in RAM, %g5 in I/O space, %g6 there misaligned; and
/// %g7 has all bits set.
fn strand(privileged: bool, level: u8, stand: Stand) -> Strand
    ensures units { result.units ≡ 0 }
    ensures valid { IsStrand result }
{
    let mut strand = Strand {
        pstate: if privileged { 4 } else { 0 },
        tl: level % 2,
        asi: 0x82,
        win: windows(stand),
        ..Strand::start(0, 1, 0x100, false)
    };
    strand.set_reg(1, 0x102);
    strand.set_reg(2, RAM);
    strand.set_reg(3, RAM + 2);
    strand.set_reg(4, 0x100);
    strand.set_reg(5, 0x80_0000_0000);
    strand.set_reg(6, 0x80_0000_0002);
    strand.set_reg(7, u64::MAX);
    strand
}

/// An instruction; those of alternate spaces have their ASI, and ReadPr and WritePr the number of
/// a register of the trap level.
#[derive(Clone, Copy, Debug)]
enum What {
    Illegal,
    FpOff,
    Done,
    Retry,
    Saved,
    ReadPr(u8),
    ReadTba,
    WritePr(u8),
    ReadSoftint,
    Halt,
    Save,
    Restore,
    Flushw,
    Return,
    Jmpl,
    Divide,
    Tagged,
    TrapAlways,
    PlainLoad,
    PlainStore,
    StoreByRegister,
    Load(u8),
    LoadByte(u8),
    LoadTwin(u8),
    Store(u8),
    Ldstub(u8),
    Swap(u8),
    Cas(u8),
}

fn alt(asi: u8) -> Mem
    ensures { IsMem result }
{
    Mem::Alt { rs2: 0, asi }
}

/// The instruction, with its address in %g`at`.
fn insn(what: What, at: u8) -> Insn
    ensures { IsInRange result }
{
    let rs1 = at & 7;
    let (rd, src) = (2, Src::Imm(0));
    match what {
        What::Illegal => Insn::Illegal,
        What::FpOff => Insn::FpOff,
        What::Done => Insn::Done,
        What::Retry => Insn::Retry,
        What::Saved => Insn::Saved,
        What::ReadPr(reg) => Insn::ReadPr { reg: reg & 3, rd },
        What::ReadTba => Insn::ReadPr { reg: 5, rd },
        What::WritePr(reg) => Insn::WritePr {
            reg: reg & 3,
            rs1,
            src,
        },
        What::ReadSoftint => Insn::ReadAsr { asr: 22, rd },
        What::Halt => Insn::WriteAsr { asr: 26, rs1, src },
        What::Save => Insn::Save { rd, rs1, src },
        What::Restore => Insn::Restore { rd, rs1, src },
        What::Flushw => Insn::Flushw,
        What::Return => Insn::Return { rs1, src },
        What::Jmpl => Insn::Jmpl { rd, rs1, src },
        What::Divide => Insn::Alu {
            op: AluOp::Sdiv,
            cc: true,
            rd,
            rs1,
            src,
        },
        What::Tagged => Insn::Alu {
            op: AluOp::TaddccTv,
            cc: true,
            rd,
            rs1,
            src,
        },
        What::TrapAlways => Insn::Trap {
            cond: 8,
            wide: false,
            rs1,
            src,
        },
        What::PlainLoad => Insn::Load {
            kind: LoadKind::X,
            rd,
            rs1,
            mem: Mem::Plain(src),
        },
        What::PlainStore => Insn::Store {
            kind: StoreKind::X,
            rd,
            rs1,
            mem: Mem::Plain(src),
        },
        What::StoreByRegister => Insn::Store {
            kind: StoreKind::X,
            rd,
            rs1,
            mem: Mem::AltReg { imm: 0 },
        },
        What::Load(asi) => Insn::Load {
            kind: LoadKind::X,
            rd,
            rs1,
            mem: alt(asi),
        },
        What::LoadByte(asi) => Insn::Load {
            kind: LoadKind::Ub,
            rd,
            rs1,
            mem: alt(asi),
        },
        What::LoadTwin(asi) => Insn::Load {
            kind: LoadKind::Tw,
            rd,
            rs1,
            mem: alt(asi),
        },
        What::Store(asi) => Insn::Store {
            kind: StoreKind::X,
            rd,
            rs1,
            mem: alt(asi),
        },
        What::Ldstub(asi) => Insn::Ldstub {
            rd,
            rs1,
            mem: alt(asi),
        },
        What::Swap(asi) => Insn::Swap {
            rd,
            rs1,
            mem: alt(asi),
        },
        What::Cas(asi) => Insn::Cas {
            wide: true,
            rd,
            rs1,
            rs2: 4,
            asi: Some(asi),
        },
    }
}

/// An instruction, the register of its address, the mode, the trap level, the windows; and the trap.
type Row = (What, u8, bool, u8, Stand, u16);

// In each of these states two traps or more apply.
const SEVERAL: &[Row] = &[
    // Privileged mode before the trap level.
    (What::Done, 0, USER, 0, Stand::Start, 0x011),
    (What::Retry, 0, USER, 0, Stand::Full, 0x011),
    (What::ReadPr(0), 0, USER, 0, Stand::Start, 0x011),
    (What::ReadPr(1), 0, USER, 0, Stand::Start, 0x011),
    (What::ReadPr(2), 0, USER, 0, Stand::Start, 0x011),
    (What::ReadPr(3), 0, USER, 0, Stand::Start, 0x011),
    (What::WritePr(0), 0, USER, 0, Stand::Start, 0x011),
    (What::WritePr(1), 1, USER, 0, Stand::Start, 0x011),
    (What::WritePr(2), 2, USER, 0, Stand::Start, 0x011),
    (What::WritePr(3), 3, USER, 0, Stand::Start, 0x011),
    // Windows: spill before clean, and fill before a target.
    (What::Save, 0, USER, 0, Stand::Full, 0x088),
    (What::Return, 1, USER, 0, Stand::Start, 0x0c8),
    (What::Return, 1, PRIVILEGED, 1, Stand::Other, 0x0f4),
    // Misaligned before restricted, before a space that is none, before a place that is none.
    (What::Load(0x10), 1, USER, 0, Stand::Start, 0x034),
    (What::Load(0x20), 1, USER, 0, Stand::Start, 0x034),
    (What::Load(0x21), 1, PRIVILEGED, 0, Stand::Start, 0x034),
    (What::Load(0x21), 3, USER, 0, Stand::Start, 0x034),
    (What::Load(0x21), 6, USER, 0, Stand::Start, 0x034),
    (What::LoadTwin(0x20), 1, PRIVILEGED, 0, Stand::Start, 0x034),
    (What::LoadTwin(0x20), 3, USER, 0, Stand::Start, 0x034),
    (What::Store(0x20), 1, USER, 0, Stand::Start, 0x034),
    (What::Store(0x21), 3, USER, 0, Stand::Start, 0x034),
    (What::Store(0x82), 1, USER, 0, Stand::Start, 0x034),
    (What::Store(0x83), 3, USER, 0, Stand::Start, 0x034),
    (What::StoreByRegister, 3, USER, 0, Stand::Start, 0x034),
    (What::Swap(0x20), 1, PRIVILEGED, 0, Stand::Start, 0x034),
    (What::Swap(0x21), 3, USER, 0, Stand::Start, 0x034),
    (What::Swap(0x80), 6, USER, 0, Stand::Start, 0x034),
    (What::Cas(0x18), 3, USER, 0, Stand::Start, 0x034),
    (What::Cas(0x21), 3, USER, 0, Stand::Start, 0x034),
    (What::Cas(0x80), 6, USER, 0, Stand::Start, 0x034),
    (What::PlainLoad, 3, USER, 1, Stand::Start, 0x034),
    (What::PlainStore, 3, USER, 0, Stand::Start, 0x034),
    // Restricted before a space that is none, before a place that is none.
    (What::Load(0x21), 2, USER, 0, Stand::Start, 0x037),
    (What::Load(0x14), 2, USER, 1, Stand::Start, 0x037),
    (What::LoadByte(0x20), 2, USER, 0, Stand::Start, 0x037),
    (What::Store(0x7f), 2, USER, 0, Stand::Start, 0x037),
    (What::Ldstub(0x21), 2, USER, 0, Stand::Start, 0x037),
    (What::Ldstub(0x21), 5, USER, 0, Stand::Start, 0x037),
    (What::Swap(0x14), 5, USER, 0, Stand::Start, 0x037),
    (What::Cas(0x18), 2, USER, 0, Stand::Start, 0x037),
    // No space, or none for it, before a place that is none.
    (What::Load(0x21), 2, PRIVILEGED, 0, Stand::Start, 0x030),
    (What::Load(0x84), 2, USER, 0, Stand::Start, 0x030),
    (What::Store(0x8b), 2, USER, 0, Stand::Start, 0x030),
    (What::StoreByRegister, 2, USER, 0, Stand::Start, 0x030),
    (What::Ldstub(0x83), 2, USER, 0, Stand::Start, 0x030),
    (What::Swap(0x82), 2, USER, 0, Stand::Start, 0x030),
    (What::Cas(0x21), 2, PRIVILEGED, 0, Stand::Start, 0x030),
];

// In each of these states one trap applies.
const ALONE: &[Row] = &[
    // No instruction, and the floating-point unit.
    (What::Illegal, 0, USER, 0, Stand::Full, 0x010),
    (What::Illegal, 0, PRIVILEGED, 1, Stand::Other, 0x010),
    (What::FpOff, 1, USER, 0, Stand::Full, 0x020),
    // Privileged mode, and the trap level.
    (What::Done, 0, USER, 1, Stand::Start, 0x011),
    (What::Done, 0, PRIVILEGED, 0, Stand::Full, 0x010),
    (What::Retry, 0, PRIVILEGED, 0, Stand::Start, 0x010),
    (What::ReadPr(3), 0, PRIVILEGED, 0, Stand::Start, 0x010),
    (What::WritePr(0), 0, PRIVILEGED, 0, Stand::Start, 0x010),
    (What::ReadTba, 0, USER, 0, Stand::Start, 0x011),
    (What::Saved, 0, USER, 0, Stand::Full, 0x011),
    (What::ReadSoftint, 0, USER, 1, Stand::Start, 0x011),
    (What::Halt, 0, USER, 0, Stand::Start, 0x011),
    // Windows and targets.
    (What::Save, 0, PRIVILEGED, 0, Stand::Other, 0x0b4),
    (What::Save, 0, USER, 0, Stand::Unclean, 0x024),
    (What::Flushw, 0, USER, 0, Stand::Other, 0x0b4),
    (What::Restore, 0, USER, 0, Stand::Other, 0x0f4),
    (What::Return, 1, USER, 0, Stand::Middle, 0x034),
    (What::Jmpl, 1, USER, 0, Stand::Full, 0x034),
    // Operations.
    (What::Divide, 0, USER, 0, Stand::Full, 0x028),
    (What::Tagged, 7, USER, 0, Stand::Full, 0x023),
    (What::TrapAlways, 7, USER, 0, Stand::Full, 0x17f),
    (What::TrapAlways, 7, PRIVILEGED, 0, Stand::Full, 0x1ff),
    // Accesses.
    (What::Load(0x20), 4, PRIVILEGED, 0, Stand::Start, 0x030),
    (What::LoadByte(0x20), 4, PRIVILEGED, 0, Stand::Start, 0x030),
    (What::Swap(0x80), 5, USER, 0, Stand::Start, 0x030),
    (What::Cas(0x90), 4, USER, 0, Stand::Start, 0x030),
    (What::Cas(0x80), 2, USER, 0, Stand::Start, 0x032),
    (What::PlainLoad, 2, USER, 1, Stand::Start, 0x032),
];

#[test]
fn the_first_trap_of_several_is_taken(rt: HostRuntime) {
    for table in [SEVERAL, ALONE] {
        for (what, at, privileged, level, stand, want) in table {
            let need = issue(&strand(*privileged, *level, *stand), &insn(*what, *at), RAM);
            assert_eq!(rt; need, Need::Trap(*want), "{what:?} at %g{at}, {stand:?}");
        }
    }
}

/// Where the strand of an instruction goes on, from PC 100 hex and this nPC. %g1 is not 0.
fn after(insn: Insn, z: bool, npc: u64) -> (u64, u64)
    requires { IsInRange insn }
{
    let mut strand = Strand {
        npc,
        ccr: if z { 0x44 } else { 0 },
        ..strand(PRIVILEGED, 0, Stand::Start)
    };
    finish(&mut strand, &insn, 0, RAM);
    (strand.pc, strand.npc)
}

#[test]
fn branches_run_or_annul_their_delay_slots(rt: HostRuntime) {
    for (cond, annul, z, npc, want) in [
        // Never, equal, always.
        (0, false, true, 0x104, (0x104, 0x108)),
        (0, true, true, 0x104, (0x108, 0x10c)),
        (1, false, true, 0x104, (0x104, 0x140)),
        (1, false, false, 0x104, (0x104, 0x108)),
        (1, true, true, 0x104, (0x104, 0x140)),
        (1, true, false, 0x104, (0x108, 0x10c)),
        (8, false, false, 0x104, (0x104, 0x140)),
        (8, true, false, 0x104, (0x140, 0x144)),
        // In the delay slot of a jump to 200 hex.
        (1, false, true, 0x200, (0x200, 0x140)),
        (1, true, false, 0x200, (0x204, 0x208)),
        (8, true, false, 0x200, (0x140, 0x144)),
    ] {
        let (cond, disp) = (cond & 15, 16);
        let narrow = Insn::Bicc { cond, annul, disp };
        let wide = Insn::Bpcc {
            cond,
            annul,
            wide: true,
            taken: false,
            disp,
        };
        assert_eq!(rt; after(narrow, z, npc), want, "{narrow:?}, Z {z}");
        assert_eq!(rt; after(wide, z, npc), want, "{wide:?}, Z {z}");
    }
    let (annul, taken, rs1, disp) = (true, true, 1, -16);
    let zero = Insn::Bpr {
        rcond: 1,
        annul,
        taken,
        rs1,
        disp,
    };
    let not_zero = Insn::Bpr {
        rcond: 5,
        annul,
        taken,
        rs1,
        disp,
    };
    assert_eq!(rt; after(zero, false, 0x104), (0x108, 0x10c));
    assert_eq!(rt; after(not_zero, false, 0x104), (0x104, 0xc0));
}

#[test]
fn a_call_returns_past_its_delay_slot(rt: HostRuntime) {
    let mut strand = strand(PRIVILEGED, 0, Stand::Start);
    finish(&mut strand, &Insn::Call { disp: 64 }, 0, RAM);
    assert_eq!(rt;
        (strand.reg(15), strand.pc, strand.npc),
        (0x100, 0x104, 0x200)
    );
    let retl = Insn::Jmpl {
        rd: 0,
        rs1: 15,
        src: Src::Imm(8),
    };
    finish(&mut strand, &retl, 0, RAM);
    assert_eq!(rt; (strand.pc, strand.npc, strand.units), (0x200, 0x108, 2));
}

/// A strand with these values in %g2 and %g3.
fn strand_with(even: u64, odd: u64) -> Strand
    ensures units { result.units ≡ 0 }
    ensures valid { IsStrand result }
{
    let mut strand = strand(PRIVILEGED, 0, Stand::Start);
    strand.set_reg(2, even);
    strand.set_reg(3, odd);
    strand
}

/// What a load into %g2 of this value in this space leaves there and in %g3.
fn load(kind: LoadKind, asi: u8, value: u64) -> (u64, u64) {
    let insn = Insn::Load {
        kind,
        rd: 2,
        rs1: 4,
        mem: alt(asi),
    };
    let mut strand = strand_with(1, 1);
    finish(&mut strand, &insn, value, RAM);
    (strand.reg(2), strand.reg(3))
}

/// What a store of %g2, and of %g3 in a twin, writes to memory in this space.
fn store(kind: StoreKind, asi: u8) -> Need {
    let insn = Insn::Store {
        kind,
        rd: 2,
        rs1: 4,
        mem: alt(asi),
    };
    issue(
        &strand_with(0x1122_3344_5566_7788, 0x99aa_bbcc_ddee_ff00),
        &insn,
        RAM,
    )
}

#[test]
fn loads_and_stores_extend_and_reverse(rt: HostRuntime) {
    for (kind, asi, value, want) in [
        (LoadKind::Ub, 0x80, 0x80, (0x80, 1)),
        (LoadKind::Sb, 0x80, 0x80, (0xffff_ffff_ffff_ff80, 1)),
        (LoadKind::Uh, 0x88, 0x0180, (0x8001, 1)),
        (LoadKind::Sh, 0x88, 0x0180, (0xffff_ffff_ffff_8001, 1)),
        (LoadKind::Uw, 0x88, 0x1122_3344, (0x4433_2211, 1)),
        (LoadKind::Sw, 0x80, 0x8000_0000, (0xffff_ffff_8000_0000, 1)),
        (
            LoadKind::X,
            0x88,
            0x1122_3344_5566_7788,
            (0x8877_6655_4433_2211, 1),
        ),
        (
            LoadKind::Tw,
            0x80,
            0x1122_3344_5566_7788,
            (0x1122_3344, 0x5566_7788),
        ),
        (
            LoadKind::Tw,
            0x88,
            0x1122_3344_5566_7788,
            (0x4433_2211, 0x8877_6655),
        ),
    ] {
        assert_eq!(rt; load(kind, asi, value), want, "{kind:?} in {asi:x}");
    }
    for (kind, asi, size, value) in [
        (StoreKind::B, 0x80, 1, 0x88),
        (StoreKind::H, 0x88, 2, 0x8877),
        (StoreKind::W, 0x80, 4, 0x5566_7788),
        (StoreKind::W, 0x88, 4, 0x8877_6655),
        (StoreKind::X, 0x88, 8, 0x8877_6655_4433_2211),
        (StoreKind::Tw, 0x80, 8, 0x5566_7788_ddee_ff00),
        (StoreKind::Tw, 0x88, 8, 0x8877_6655_00ff_eedd),
    ] {
        let want = Need::Store {
            addr: 0x100,
            size,
            value,
        };
        assert_eq!(rt; store(kind, asi), want, "{kind:?} in {asi:x}");
    }
}

/// A strand at a trap level, with the order of bytes that PSTATE gives to its plain accesses.
fn ordered(little: bool, level: u8) -> Strand
    ensures units { result.units ≡ 0 }
    ensures valid { IsStrand result }
{
    let mut strand = Strand {
        pstate: if little { 0x204 } else { 4 },
        tl: level % 2,
        ..Strand::start(0, 1, 0x100, false)
    };
    strand.set_reg(2, 0x1122_3344_5566_7788);
    strand.set_reg(4, 0x100);
    strand
}

#[test]
fn a_plain_access_has_the_order_of_pstate(rt: HostRuntime) {
    for (little, level, value) in [
        (false, 0, 0x1122_3344_5566_7788),
        (true, 0, 0x8877_6655_4433_2211),
        (false, 1, 0x1122_3344_5566_7788),
        (true, 1, 0x8877_6655_4433_2211),
    ] {
        let need = issue(&ordered(little, level), &insn(What::PlainStore, 4), RAM);
        let want = Need::Store {
            addr: 0x100,
            size: 8,
            value,
        };
        assert_eq!(rt; need, want, "level {level}");
    }
}

#[test]
fn a_compare_and_swap_gives_the_old_value(rt: HostRuntime) {
    for (wide, got, size, expect, new) in [
        (false, 0x1122_3344, 4, 0x1122_3344, 0x5566_7788),
        (false, 0x99aa_bbcc, 4, 0x1122_3344, 0x5566_7788),
        (
            true,
            0xffff_ffff_1122_3344,
            8,
            0xffff_ffff_1122_3344,
            0x5566_7788,
        ),
        (true, 0x1122_3344, 8, 0xffff_ffff_1122_3344, 0x5566_7788),
    ] {
        let cas = Insn::Cas {
            wide,
            rd: 2,
            rs1: 4,
            rs2: 3,
            asi: Some(0x80),
        };
        let mut strand = strand_with(0x5566_7788, 0xffff_ffff_1122_3344);
        let op = AtomicOp::Cas { expect, new };
        let want = Need::Atomic {
            addr: 0x100,
            size,
            op,
        };
        assert_eq!(rt; issue(&strand, &cas, RAM), want, "wide {wide}");
        finish(&mut strand, &cas, got, RAM);
        assert_eq!(rt; strand.reg(2), got, "wide {wide}");
    }
}

#[test]
fn a_frame_is_saved_and_restored(rt: HostRuntime) {
    let mut strand = strand(PRIVILEGED, 0, Stand::Start);
    strand.set_reg(14, 0x1000);
    let (rd, rs1) = (14, 14);
    finish(
        &mut strand,
        &Insn::Save {
            rd,
            rs1,
            src: Src::Imm(-96),
        },
        0,
        RAM,
    );
    assert_eq!(rt;
        (strand.win.cwp, strand.reg(14), strand.reg(30)),
        (1, 0xfa0, 0x1000)
    );
    finish(
        &mut strand,
        &Insn::Restore {
            rd,
            rs1,
            src: Src::Imm(8),
        },
        0,
        RAM,
    );
    assert_eq!(rt; (strand.win.cwp, strand.reg(14)), (0, 0xfa8));
}

#[test]
fn a_scratchpad_register_holds_what_was_stored(rt: HostRuntime) {
    let mut strand = strand(PRIVILEGED, 0, Stand::Start);
    strand.set_reg(1, 0x18);
    let (kind, rs1, mem) = (LoadKind::X, 1, alt(0x20));
    finish(
        &mut strand,
        &Insn::Store {
            kind: StoreKind::X,
            rd: 7,
            rs1,
            mem,
        },
        0,
        RAM,
    );
    finish(
        &mut strand,
        &Insn::Load {
            kind,
            rd: 2,
            rs1,
            mem,
        },
        0,
        RAM,
    );
    assert_eq!(rt; (strand.scratch[3], strand.reg(2)), (u64::MAX, u64::MAX));
}

#[test]
fn needs_of_what_touches_no_memory(rt: HostRuntime) {
    let strand = strand(PRIVILEGED, 0, Stand::Start);
    let (rs1, src) = (0, Src::Imm(1));
    let scratch = Insn::Store {
        kind: StoreKind::X,
        rd: 7,
        rs1,
        mem: alt(0x20),
    };
    let prefetch = Insn::Prefetch {
        fcn: 2,
        rs1: 3,
        mem: alt(0x21),
    };
    assert_eq!(rt; issue(&strand, &Insn::Stbar, RAM), Need::Membar(8));
    assert_eq!(rt;
        issue(&strand, &Insn::Membar { mask: 0x42 }, RAM),
        Need::Membar(0x42)
    );
    assert_eq!(rt; issue(&strand, &Insn::Flush { rs1, src }, RAM), Need::Flush);
    assert_eq!(rt; issue(&strand, &insn(What::Halt, 0), RAM), Need::Halt);
    assert_eq!(rt;
        issue(&strand, &Insn::WriteAsr { asr: 26, rs1, src }, RAM),
        Need::Plain
    );
    assert_eq!(rt; issue(&strand, &scratch, RAM), Need::Plain);
    assert_eq!(rt; issue(&strand, &prefetch, RAM), Need::Plain);
}
