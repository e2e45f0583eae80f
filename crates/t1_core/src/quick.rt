//! Steps that need no ring: the path that runs at each unit, with no request in its answer.
ghost use Rattle.std.specs.Prelude.{ℕ, ◌≡◌, ◌<◌, length};
ghost use Rattle.t1_joint.specs.Replay.{is_fetchable};
ghost use Rattle.t1_state.specs.Interrupts.{due_of};
ghost use Rattle.t1_core.specs.Threads.{word_of};
ghost use Rattle.t1_core.specs.Steps.{exec_begin, exec_plan, thread_exec};
ghost use Rattle.t1_core.specs.Room.{owed, IsPlan, IsInsnOf};
ghost use Rattle.t1_core.specs.Askers.{IsAsker};
ghost use Rattle.t1_core.specs.Quick.{in_room, IsQuick, QuickStill};

use crate::asker::Asker;
use crate::insn_cache::InsnCache;
use crate::items::{flush_item, membar_item};
use crate::next::{FETCH_TRAP, is_fetchable};
use crate::phase::Phase;
use crate::plan::Plan;
use crate::thread::Thread;
use t1_decode::decode;
use t1_event::How;
use t1_exec::Need;
use t1_insn::Insn;
use t1_l1::L1;

/// What a step that needs no ring came to, whatever rings have room.
#[derive(Clone, Copy)]
pub enum Quick {
    /// The strand went on.
    Moved,
    /// It waits, and nothing changed.
    Waits,
    /// It asks for a ring, and nothing changed.
    Asks,
}

/// A unit begins, where its word is in the cache.
fn quick_begin(asker: Asker, icache: &InsnCache, thread: &mut Thread) -> Quick
    requires asker { IsAsker asker }
    requires phase { owed thread.old.phase ≡ 2 }
    ensures step { (room : ℕ) → let a = exec_begin (in_room asker room) icache.now thread.old (due_of thread.old.strand) (is_fetchable asker.ram thread.old.strand.pc) in IsQuick thread.new a.thread a.did result }
    ensures still { QuickStill thread.old thread.new result }
{
    if let Some(number) = thread.due() {
        thread.trap(number);
        return Quick::Moved;
    }
    let pc = thread.pc();
    if !is_fetchable(asker.ram, pc) {
        thread.trap(FETCH_TRAP);
        return Quick::Moved;
    }
    match icache.read(pc, 4) {
        Some(word) => {
            thread.word_came(word as u32, How::Hit { time: asker.time });
            Quick::Moved
        }
        None => Quick::Asks,
    }
}

/// What the plan of a unit's instruction does.
fn quick_plan(
    asker: Asker,
    dcache: &L1<4, 16>,
    thread: &mut Thread,
    insn: &Insn,
    plan: Plan,
) -> Quick
    requires asker { IsAsker asker }
    requires phase { owed thread.old.phase ≡ 1 }
    requires insn { IsInsnOf insn.now (word_of thread.old.phase) }
    requires plan { IsPlan plan (length thread.old.stores) }
    ensures step { (room : ℕ) → let a = exec_plan (in_room asker room) dcache.now thread.old plan in IsQuick thread.new a.thread a.did result }
    ensures still { QuickStill thread.old thread.new result }
{
    let ram = asker.ram;
    match plan {
        Plan::Waits(_) => return Quick::Waits,
        Plan::Send { .. } => return Quick::Asks,
        Plan::Look { addr, size } => {
            let Some(value) = dcache.read(addr, size) else {
                return Quick::Asks;
            };
            let how = How::Hit { time: asker.time };
            thread.load_came(insn, addr, size, value, how, ram);
        }
        Plan::Trap(number) => thread.trap(number),
        Plan::Act => thread.act(insn, ram),
        Plan::Halt => thread.halt(insn, ram),
        Plan::Membar(mask) => thread.note(insn, 0, membar_item(mask), ram),
        Plan::Flush => thread.note(insn, 0, flush_item(), ram),
        Plan::Store { addr, size, value } => thread.store(asker.chip, insn, addr, size, value, ram),
        Plan::Forward { addr, size, value } => {
            let how = How::Forward { time: asker.time };
            thread.load_came(insn, addr, size, value, how, ram);
        }
    }
    Quick::Moved
}

/// One strand executes, where no ring has to have room for it.
#[tactic(auto, unfolding(crate::specs::Steps::thread_exec))]
pub fn quick_exec(
    asker: Asker,
    icache: &InsnCache,
    dcache: &L1<4, 16>,
    thread: &mut Thread,
) -> Quick
    requires { IsAsker asker }
    ensures step { (room : ℕ) → let a = thread_exec (in_room asker room) icache.now dcache.now thread.old in IsQuick thread.new a.thread a.did result }
    ensures still { QuickStill thread.old thread.new result }
{
    match thread.phase() {
        Phase::Fetch => quick_begin(asker, icache, thread),
        Phase::Have(word) => {
            let insn = decode(word);
            let need = thread.need(&insn, asker.ram);
            if let Need::Plain = need {
                thread.act(&insn, asker.ram);
                return Quick::Moved;
            }
            let plan = thread.plan(need, asker.ram);
            quick_plan(asker, dcache, thread, &insn, plan)
        }
        Phase::OutFetch { .. } => Quick::Waits,
        Phase::OutData { .. } => Quick::Waits,
        Phase::Ended(_) => Quick::Waits,
    }
}
