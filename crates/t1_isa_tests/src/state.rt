ghost use Rattle.std.specs.Prelude.{◌≡◌, ◌<◌, ◌≤◌, IsTrue};
ghost use Rattle.t1_state.specs.Ancillary.{is_read_asr, is_write_asr};
ghost use Rattle.t1_state.specs.Privileged.{is_read_privileged, is_write_privileged};
ghost use Rattle.t1_state.specs.Registers.{IsStrand};

use t1_state::{Entered, Strand};

/// What in `j` of the next window holds after a write of out `j` in this one.
fn handed_on(window: u8, j: u8) -> u64
    requires window { window < 8 }
    requires register { j < 8 }
{
    let mut strand = Strand::start(0, 1, 0x100, false);
    strand.win.cwp = window;
    strand.set_reg(8 + j, 0x1234);
    strand.win.cwp = (window + 1) % 8;
    strand.reg(24 + j)
}

#[test]
fn the_outs_of_a_window_are_the_ins_of_the_next(rt: HostRuntime) {
    for window in 0..8 {
        for j in 0..8 {
            assert_eq!(rt;
                handed_on(window, j),
                0x1234,
                "window {window}, register {j}"
            );
        }
    }
}

/// What comes of trap 101 hex at a trap level, and where the strand is then.
fn trapped_at(tl: u8) -> (Entered, u64, u64, u8)
    requires { tl ≤ 6 }
{
    let mut strand = Strand {
        tba: 0x8000,
        tl,
        ..Strand::start(0, 1, 0x100, false)
    };
    let entered = strand.enter_trap(0x101);
    (entered, strand.pc, strand.npc, strand.tl)
}

#[test]
fn traps_in_traps_have_handlers_of_their_own(rt: HostRuntime) {
    assert_eq!(rt; trapped_at(0), (Entered::Taken, 0xa020, 0xa024, 1));
    assert_eq!(rt; trapped_at(1), (Entered::Taken, 0xe020, 0xe024, 2));
    assert_eq!(rt; trapped_at(6), (Entered::Fault(0x101), 0x100, 0x104, 6));
}

/// A strand in the handler of trap 10 hex, from set 1, with some flags and an address space set.
#[tactic(auto, unfolding(t1_state::specs::Traps::in_handler))]
fn trapped() -> Strand
    ensures level { 0 < result.tl }
    ensures valid { IsStrand result }
{
    let mut strand = Strand {
        gl: 1,
        ccr: 0x5a,
        asi: 0x80,
        pstate: 0x106,
        ..Strand::start(0, 1, 0x100, false)
    };
    strand.enter_trap(0x10);
    strand
}

#[test]
fn a_trap_saves_the_state_and_its_return_restores_it(rt: HostRuntime) {
    let strand = trapped();
    assert_eq!(rt; strand.read_privileged(0), 0x100);
    assert_eq!(rt; strand.read_privileged(1), 0x104);
    assert_eq!(rt; strand.read_privileged(2), 0x15a_8001_0600);
    assert_eq!(rt; strand.read_privileged(3), 0x10);
    assert_eq!(rt;
        (strand.pstate, strand.gl, strand.tl, strand.pc),
        (0x304, 2, 1, 0x200)
    );
    let mut again = trapped();
    again.retry();
    assert_eq!(rt;
        (again.pc, again.npc, again.pstate, again.gl, again.tl),
        (0x100, 0x104, 0x106, 1, 0)
    );
    let mut after = trapped();
    after.done();
    assert_eq!(rt;
        (after.pc, after.npc, after.ccr, after.asi, after.tl),
        (0x104, 0x108, 0x5a, 0x80, 0)
    );
}

/// The interrupt that is due with SOFTINT bits 1 and 14 set, and interrupts on or off.
fn due_at(pil: u8, enabled: bool) -> Option<u16>
    requires { pil < 16 }
{
    let strand = Strand {
        pil,
        pstate: if enabled { 6 } else { 4 },
        softint: 0x4002,
        ..Strand::start(0, 1, 0x100, false)
    };
    strand.due()
}

#[test]
fn the_highest_interrupt_above_pil_is_due(rt: HostRuntime) {
    assert_eq!(rt; due_at(13, true), Some(0x04e));
    assert_eq!(rt; due_at(14, true), None);
    assert_eq!(rt; due_at(0, false), None);
}

/// What a privileged register keeps of a value with all bits set.
#[tactic(auto, unfolding(t1_state::specs::Privileged::with_privileged))]
fn kept_of_all_bits(reg: u8) -> u64
    requires written { IsTrue (is_write_privileged reg) }
    requires read { IsTrue (is_read_privileged reg) }
{
    let mut strand = Strand {
        tl: 1,
        ..Strand::start(0, 1, 0x100, false)
    };
    strand.write_privileged(reg, u64::MAX);
    strand.read_privileged(reg)
}

/// What an ancillary state register keeps of a value with all bits set.
fn kept_of_all_bits_by_asr(asr: u8) -> u64
    requires written { IsTrue (is_write_asr asr) }
    requires read { IsTrue (is_read_asr asr) }
{
    let mut strand = Strand::start(0, 1, 0x100, false);
    strand.write_asr(asr, u64::MAX);
    strand.read_asr(asr)
}

#[test]
fn registers_keep_the_bits_that_they_have(rt: HostRuntime) {
    assert_eq!(rt; kept_of_all_bits(0), 0xffff_ffff_ffff_fffc);
    assert_eq!(rt; kept_of_all_bits(2), 0x3ff_ff03_c607);
    assert_eq!(rt; kept_of_all_bits(5), 0xffff_ffff_ffff_8000);
    assert_eq!(rt; kept_of_all_bits(6), 0x3c6);
    assert_eq!(rt; kept_of_all_bits(7), 6);
    assert_eq!(rt; kept_of_all_bits(16), 3);
    assert_eq!(rt; kept_of_all_bits_by_asr(0), 0xffff_ffff);
    assert_eq!(rt; kept_of_all_bits_by_asr(6), 7);
    assert_eq!(rt; kept_of_all_bits_by_asr(22), 0xfffe);
}
