//! What a reply does to a strand and to the caches.
ghost use Rattle.std.specs.Prelude.{ℕ, ◌≡◌, ◌/◌, ◌^◌, ◌<◌, length, slice_get, take, is_none, Some, None, true, false, if◌then◌else◌, IsTrue};
ghost use Rattle.t1_exec.specs.Needs.{IsRam};
ghost use Rattle.t1_packet.specs.Ops.{op_addr, is_store};
ghost use Rattle.t1_packet.specs.declared.op.Op.TheVariants as op;
ghost use Rattle.t1_l1.specs.Cache.{CacheState};
ghost use Rattle.t1_core.specs.Threads.{thread_need, word_came, value_came, op_for};
ghost use Rattle.t1_core.specs.Takes.{emptied_in, same_op, fits, is_way_of, is_way_for, is_fetch, accepts, fill_with, Answered, answered_read, answered_store, thread_answer};
ghost use Rattle.t1_core.specs.Room.{owed};

use crate::insn_cache::InsnCache;
use crate::items::{op_for, store_op};
use crate::phase::Phase;
use crate::rings::{is_store, op_addr, op_size};
use crate::thread::Thread;
use t1_decode::decode;
use t1_event::How;
use t1_l1::L1;
use t1_packet::{Op, Reply};

/// Whether two ops are one.
fn same_op(a: Op, b: Op) -> bool
    ensures { result ≡ same_op a b }
{
    match (a, b) {
        (
            Op::Fetch { addr, way },
            Op::Fetch {
                addr: addr2,
                way: way2,
            },
        ) => addr == addr2 && way == way2,
        (
            Op::Load { addr, size, way },
            Op::Load {
                addr: addr2,
                size: size2,
                way: way2,
            },
        ) => addr == addr2 && size == size2 && way == way2,
        (
            Op::Store { addr, size, value },
            Op::Store {
                addr: addr2,
                size: size2,
                value: value2,
            },
        ) => addr == addr2 && size == size2 && value == value2,
        (
            Op::Swap { addr, size, new },
            Op::Swap {
                addr: addr2,
                size: size2,
                new: new2,
            },
        ) => addr == addr2 && size == size2 && new == new2,
        (
            Op::Cas {
                addr,
                size,
                expect,
                new,
            },
            Op::Cas {
                addr: addr2,
                size: size2,
                expect: expect2,
                new: new2,
            },
        ) => addr == addr2 && size == size2 && expect == expect2 && new == new2,
        _ => false,
    }
}

/// Whether a number is one of so many bytes.
#[tactic(auto, using(crate::proofs::Values::fits_wide, crate::proofs::Values::fits_narrow))]
fn fits(value: u64, size: u8) -> bool
    ensures { result ≡ fits value size }
{
    if size >= 8 {
        true
    } else {
        value >> (8 * size as u32) == 0
    }
}

/// Whether a way is none, or one of `ways`.
fn is_way(ways: u8, way: Option<u8>) -> bool
    ensures { result ≡ is_way_of ways way }
{
    match way {
        None => true,
        Some(way) => way < ways,
    }
}

/// Whether a reply to this op may have this way.
fn is_way_for(dcache: &L1<4, 16>, icache: &InsnCache, op: Op, way: Option<u8>) -> bool
    ensures value { result ≡ is_way_for dcache.now icache.now op way }
    ensures fetch { is_fetch op ≡ true → result ≡ true → is_way_of icache.now.layout.ways way ≡ true }
    ensures data { is_fetch op ≡ false → result ≡ true → is_way_of 4 way ≡ true }
{
    let _data = dcache.sets();
    match op {
        Op::Fetch { .. } => is_way(icache.ways(), way),
        Op::Load { addr, .. } => {
            if addr >> 39 == 1 {
                way.is_none()
            } else {
                is_way(4, way)
            }
        }
        _ => way.is_none(),
    }
}

/// Whether a reply answers a request for this item with this op.
fn accepts(dcache: &L1<4, 16>, icache: &InsnCache, reply: &Reply, item: u32, op: Op) -> bool
    ensures value { result ≡ accepts dcache.now icache.now reply.now item op }
    ensures fetch { is_fetch op ≡ true → result ≡ true → is_way_of icache.now.layout.ways reply.now.way ≡ true }
    ensures data { is_fetch op ≡ false → result ≡ true → is_way_of 4 reply.now.way ≡ true }
    ensures word { (a w : ℕ) → op ≡ Op.Fetch a w → result ≡ true → reply.now.old < 2 ^ 32 }
{
    same_op(op, reply.op)
        && reply.item == item
        && is_way_for(dcache, icache, reply.op, reply.way)
        && fits(reply.old, op_size(reply.op))
}

/// The line of a reply fills the instruction cache, where it has a way.
fn fill_insn(icache: &mut InsnCache, addr: u64, way: Option<u8>, line: &[u8; 32])
    requires { is_way_of icache.old.layout.ways way ≡ true }
    ensures { icache.new ≡ fill_with icache.old addr way line.now }
{
    if let Some(way) = way {
        icache.fill(addr, way, line);
    }
}

/// The head of a reply's line fills the data cache, where it has a way.
fn fill_data(dcache: &mut L1<4, 16>, addr: u64, way: Option<u8>, line: &[u8; 32])
    requires { is_way_of 4 way ≡ true }
    ensures { dcache.new ≡ fill_with dcache.old addr way (take 16 line.now) }
{
    if let Some(way) = way {
        let mut head = [0u8; 16];
        head.copy_from_slice(&line[..16]);
        dcache.fill(addr, way, &head);
    }
}

/// The answer to a fetch.
fn answer_fetch(
    index: u32,
    reply: &Reply,
    thread: &mut Thread,
    dcache: &L1<4, 16>,
    icache: &mut InsnCache,
    way: u8,
)
    requires phase { owed thread.old.phase ≡ 2 }
    requires read { is_store reply.now.op ≡ false }
    ensures thread { thread.new ≡ (if accepts dcache.now icache.old reply.now (length thread.old.items) (op.Fetch thread.old.strand.pc way)
        then word_came thread.old reply.now.old (How.Commit index reply.now.seen) else thread.old) }
    ensures icache { icache.new ≡ (if accepts dcache.now icache.old reply.now (length thread.old.items) (op.Fetch thread.old.strand.pc way)
        then fill_with icache.old (op_addr reply.now.op) reply.now.way reply.now.line else icache.old) }
{
    let op = Op::Fetch {
        addr: thread.pc(),
        way,
    };
    if accepts(dcache, icache, reply, thread.count(), op) {
        fill_insn(icache, op_addr(reply.op), reply.way, &reply.line);
        let seen = reply.seen;
        thread.word_came(reply.old as u32, How::Commit { index, seen });
    }
}

/// The answer to a load or an atomic.
fn answer_data(
    ram: u64,
    index: u32,
    reply: &Reply,
    thread: &mut Thread,
    dcache: &mut L1<4, 16>,
    icache: &InsnCache,
    way: u8,
)
    requires ram { IsRam ram }
    requires phase { owed thread.old.phase ≡ 1 }
    requires read { is_store reply.now.op ≡ false }
    ensures thread { thread.new ≡ (if accepts dcache.old icache.now reply.now (length thread.old.items) (op_for (thread_need ram thread.old) way)
        then value_came ram thread.old reply.now.old (How.Commit index reply.now.seen) else thread.old) }
    ensures dcache { dcache.new ≡ (if accepts dcache.old icache.now reply.now (length thread.old.items) (op_for (thread_need ram thread.old) way)
        then fill_with dcache.old (op_addr reply.now.op) reply.now.way (take 16 reply.now.line) else dcache.old) }
{
    let insn = decode(thread.word());
    let op = op_for(thread.need(&insn, ram), way);
    if accepts(dcache, icache, reply, thread.count(), op) {
        fill_data(dcache, op_addr(reply.op), reply.way, &reply.line);
        let seen = reply.seen;
        thread.value_came(&insn, reply.old, How::Commit { index, seen }, ram);
    }
}

/// The answer to a fetch, a load or an atomic that is out.
fn answer_read(
    ram: u64,
    index: u32,
    reply: &Reply,
    thread: &mut Thread,
    dcache: &mut L1<4, 16>,
    icache: &mut InsnCache,
)
    requires ram { IsRam ram }
    requires read { is_store reply.now.op ≡ false }
    ensures { let before : Answered = record { thread = thread.old; dcache = dcache.old; icache = icache.old } in
        let after : Answered = record { thread = thread.new; dcache = dcache.new; icache = icache.new } in
        after ≡ answered_read ram index reply.now before thread.old.phase }
{
    match thread.phase() {
        Phase::OutFetch { way, .. } => answer_fetch(index, reply, thread, dcache, icache, way),
        Phase::OutData { way, .. } => answer_data(ram, index, reply, thread, dcache, icache, way),
        _ => {}
    }
}

/// The acknowledgement of the oldest store.
fn answer_store(
    index: u32,
    reply: &Reply,
    thread: &mut Thread,
    dcache: &mut L1<4, 16>,
    icache: &InsnCache,
)
    ensures { let before : Answered = record { thread = thread.old; dcache = dcache.old; icache = icache.now } in
        let after : Answered = record { thread = thread.new; dcache = dcache.new; icache = icache.now } in
        after ≡ answered_store index reply.now before (slice_get thread.old.stores 0) }
{
    let Some(entry) = thread.oldest() else {
        return;
    };
    if entry.sent && accepts(dcache, icache, reply, entry.item, store_op(&entry)) {
        dcache.update(entry.addr, entry.size, entry.value);
        let seen = reply.seen;
        thread.acknowledge(How::Commit { index, seen });
    }
}

/// What a reply changes.
#[tactic(auto, unfolding(crate::specs::Takes::thread_answer))]
pub fn answer(
    ram: u64,
    index: u32,
    reply: &Reply,
    thread: &mut Thread,
    dcache: &mut L1<4, 16>,
    icache: &mut InsnCache,
)
    requires { IsRam ram }
    ensures { let before : Answered = record { thread = thread.old; dcache = dcache.old; icache = icache.old } in
        let after : Answered = record { thread = thread.new; dcache = dcache.new; icache = icache.new } in
        after ≡ thread_answer ram index reply.now before }
{
    if is_store(reply.op) {
        answer_store(index, reply, thread, dcache, icache);
    } else {
        answer_read(ram, index, reply, thread, dcache, icache);
    }
}

/// Empties a way of a set, where the cache has it.
pub fn empty_way<const WAYS: usize, const LINE: usize>(cache: &mut L1<WAYS, LINE>, set: u8, way: u8)
    ensures { cache.new ≡ emptied_in cache.old set way }
{
    if (set as usize) < cache.sets() && (way as usize) < WAYS {
        cache.invalidate(set, way);
    }
}
