//! What one strand would do next: it moves, it waits, or it asks a ring.
ghost use Rattle.std.specs.Prelude.{◌≡◌, ◌%◌, ◌<◌, length, true};
ghost use Rattle.t1_joint.specs.Replay.{is_fetchable};
ghost use Rattle.t1_state.specs.Interrupts.{due_of};
ghost use Rattle.t1_core.specs.Threads.{word_of};
ghost use Rattle.t1_core.specs.Steps.{waited, exec_begin, exec_plan, thread_exec};
ghost use Rattle.t1_core.specs.Room.{owed, IsPlan, IsInsnOf};
ghost use Rattle.t1_core.specs.Askers.{IsAsker};
ghost use Rattle.t1_core.specs.Next.{IsNext};

use crate::answers::Wait;
use crate::asker::Asker;
use crate::insn_cache::InsnCache;
use crate::items::op_for;
use crate::phase::Phase;
use crate::plan::{Next, Plan};
use crate::rings::{has_room, op_dest};
use crate::thread::Thread;
use t1_decode::decode;
use t1_insn::Insn;
use t1_l1::L1;
use t1_packet::Op;

/// The trap of a PC that is not in RAM, instruction_access_error.
pub const FETCH_TRAP: u16 = 0x00a;

/// Whether a word can be fetched at an address.
pub fn is_fetchable(ram: u64, pc: u64) -> bool
    ensures value { result ≡ is_fetchable ram pc }
    ensures aligned { result ≡ true → pc % 4 ≡ 0 }
{
    pc < ram && pc % 4 == 0
}

/// What a strand would do that begins a unit.
#[tactic(auto, unfolding(crate::specs::Steps::asked_fetch))]
fn next_begin(asker: Asker, icache: &InsnCache, thread: &Thread) -> Next
    requires { owed thread.now.phase ≡ 2 }
    ensures { IsNext icache.now.layout.ways asker thread.now (exec_begin asker icache.now thread.now (due_of thread.now.strand) (is_fetchable asker.ram thread.now.strand.pc)) result }
{
    let addr = thread.pc();
    if thread.due().is_some() || !is_fetchable(asker.ram, addr) {
        return Next::Moves;
    }
    if icache.read(addr, 4).is_some() {
        return Next::Moves;
    }
    let way = icache.victim(addr);
    let seen = asker.time;
    Next::Asks {
        op: Op::Fetch { addr, way },
        phase: Phase::OutFetch { way, seen },
    }
}

/// What a strand would do that has such a plan.
#[tactic(auto, unfolding(crate::specs::Steps::asked_data))]
fn next_plan(
    asker: Asker,
    icache: &InsnCache,
    dcache: &L1<4, 16>,
    thread: &Thread,
    insn: &Insn,
    plan: Plan,
) -> Next
    requires asker { IsAsker asker }
    requires phase { owed thread.now.phase ≡ 1 }
    requires insn { IsInsnOf insn.now (word_of thread.now.phase) }
    requires plan { IsPlan plan (length thread.now.stores) }
    ensures { IsNext icache.now.layout.ways asker thread.now (exec_plan asker dcache.now thread.now plan) result }
{
    let addr = match plan {
        Plan::Waits(wait) => return Next::Waits(wait),
        Plan::Look { addr, size } => {
            if dcache.read(addr, size).is_some() {
                return Next::Moves;
            }
            addr
        }
        Plan::Send { addr } => addr,
        _ => return Next::Moves,
    };
    let _ways = icache.ways();
    let way = dcache.victim(addr);
    let seen = asker.time;
    let word = thread.word();
    Next::Asks {
        op: op_for(thread.need(insn, asker.ram), way),
        phase: Phase::OutData { word, way, seen },
    }
}

/// What a strand would do.
#[tactic(auto, unfolding(crate::specs::Steps::thread_exec))]
pub fn next(asker: Asker, icache: &InsnCache, dcache: &L1<4, 16>, thread: &Thread) -> Next
    requires { IsAsker asker }
    ensures { IsNext icache.now.layout.ways asker thread.now (thread_exec asker icache.now dcache.now thread.now) result }
{
    match thread.phase() {
        Phase::Fetch => next_begin(asker, icache, thread),
        Phase::Have(word) => {
            let insn = decode(word);
            let need = thread.need(&insn, asker.ram);
            let plan = thread.plan(need, asker.ram);
            next_plan(asker, icache, dcache, thread, &insn, plan)
        }
        Phase::OutFetch { .. } => Next::Waits(Wait::Reply),
        Phase::OutData { .. } => Next::Waits(Wait::Reply),
        Phase::Ended(_) => Next::Waits(Wait::Ended),
    }
}

/// Why a strand would wait: a request waits where its ring has no room.
#[tactic(auto, unfolding(crate::specs::Steps::asked))]
pub fn wait(asker: Asker, icache: &InsnCache, dcache: &L1<4, 16>, thread: &Thread) -> Option<Wait>
    requires { IsAsker asker }
    ensures { result ≡ waited (thread_exec asker icache.now dcache.now thread.now).did }
{
    match next(asker, icache, dcache, thread) {
        Next::Moves => None,
        Next::Waits(wait) => Some(wait),
        Next::Asks { op, .. } => {
            let dest = op_dest(asker.chip, op);
            if has_room(asker.room, dest) {
                None
            } else {
                Some(Wait::NoRoom(dest))
            }
        }
    }
}
