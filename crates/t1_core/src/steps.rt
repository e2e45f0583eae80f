//! One strand executes or drains.
ghost use Rattle.std.specs.Prelude.{ℕ, ◌≡◌, ◌<◌, length, Some, None};
ghost use Rattle.t1_sbuf.specs.Entries.{next_to_send_of};
ghost use Rattle.t1_core.specs.Steps.{asked, thread_exec, thread_drain, drain_next};
ghost use Rattle.t1_core.specs.Room.{owed};
ghost use Rattle.t1_core.specs.Askers.{IsAsker};
ghost use Rattle.t1_core.specs.Next.{AsksForWay, SendsForWay};

use crate::answers::{Did, Drained, Wait};
use crate::asker::Asker;
use crate::insn_cache::InsnCache;
use crate::items::store_op;
use crate::next::next;
use crate::phase::Phase;
use crate::plan::Next;
use crate::quick::quick_exec;
use crate::rings::{has_room, op_dest, request_of};
use crate::thread::Thread;
use t1_l1::L1;
use t1_packet::Op;

/// The strand's request goes out, where its ring has room.
#[tactic(auto, unfolding(crate::specs::Steps::asked))]
fn ask(asker: Asker, icache: &InsnCache, thread: &mut Thread, op: Op, phase: Phase) -> Did
    requires asker { IsAsker asker }
    requires phase { owed phase ≡ owed thread.old.phase }
    requires way { AsksForWay icache.now.layout.ways op }
    ensures thread { thread.new ≡ (asked asker thread.old op phase).thread }
    ensures did { result ≡ (asked asker thread.old op phase).did }
    ensures way { SendsForWay icache.now.layout.ways result }
{
    let dest = op_dest(asker.chip, op);
    if !has_room(asker.room, dest) {
        return Did::Waits(Wait::NoRoom(dest));
    }
    let request = request_of(asker, thread.count(), op);
    thread.ask(phase);
    Did::Sent { dest, request }
}

/// One strand executes.
pub fn exec(asker: Asker, icache: &InsnCache, dcache: &L1<4, 16>, thread: &mut Thread) -> Did
    requires { IsAsker asker }
    ensures thread { thread.new ≡ (thread_exec asker icache.now dcache.now thread.old).thread }
    ensures did { result ≡ (thread_exec asker icache.now dcache.now thread.old).did }
    ensures way { SendsForWay icache.now.layout.ways result }
{
    match next(asker, icache, dcache, thread) {
        Next::Waits(wait) => Did::Waits(wait),
        Next::Asks { op, phase } => ask(asker, icache, thread, op, phase),
        Next::Moves => {
            quick_exec(asker, icache, dcache, thread);
            Did::Moved
        }
    }
}

/// What a drain of one strand would answer: its next store goes out, where its ring has room.
#[tactic(auto, using(crate::proofs::Drains::drain_some, crate::proofs::Drains::drain_none), unfolding(crate::specs::Steps::thread_drain))]
pub fn drain_answer(asker: Asker, thread: &Thread) -> Drained
    requires { IsAsker asker }
    ensures { result ≡ (thread_drain asker thread.now).did }
{
    if !thread.holds_store() {
        return Drained::Empty;
    }
    let Some(entry) = thread.next_to_send() else {
        return Drained::Out;
    };
    let op = store_op(&entry);
    let dest = op_dest(asker.chip, op);
    if !has_room(asker.room, dest) {
        return Drained::NoRoom(dest);
    }
    let request = request_of(asker, entry.item, op);
    Drained::Sent { dest, request }
}

/// One strand drains.
pub fn drain(asker: Asker, thread: &mut Thread) -> Drained
    requires { IsAsker asker }
    ensures thread { thread.new ≡ (thread_drain asker thread.old).thread }
    ensures did { result ≡ (thread_drain asker thread.old).did }
{
    let answer = drain_answer(asker, thread);
    match answer {
        Drained::Sent { .. } => thread.send(asker.time),
        Drained::Empty => {}
        Drained::Out => {}
        Drained::NoRoom(_) => {}
    }
    answer
}
