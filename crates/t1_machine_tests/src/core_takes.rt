//! Packets that fit, and packets that fit nothing.
ghost use Rattle.std.specs.Prelude.{◌<◌};

use crate::sparc_core::{CONFIG, HALT, LDX, NOP, STX, fetch_line, line_of, packet, reply_to};
use std::process::Abort;
use std::test::Fail;
use t1_core::{Core, Did, Wait};
use t1_event::Ending;
use t1_packet::{Cache, Kill, Kills, Op, Packet, Reply};

/// A packet with the kill of a way of set 8, which holds the line at 100 hex.
fn kill_packet(index: u32, core: u8, cache: Cache, way: u8, reply: Option<Reply>) -> Packet
    requires { (core < 8) × (way < 8) }
{
    let mut kills = Kills::new();
    kills.push(Kill::new(core, cache, 8, way));
    Packet {
        index,
        reply,
        kills,
    }
}

/// A reply that differs from a right one in one thing that makes it fit no request of strand 0.
fn wrong(right: Reply, number: u8) -> Reply {
    let mut reply = right;
    match number {
        0 => reply.strand = 1,
        1 => reply.strand = 7,
        2 => reply.item = right.item.wrapping_add(1),
        3 => reply.way = Some(4),
        4 => reply.way = Some(255),
        5 => {
            reply.op = Op::Fetch {
                addr: 0x104,
                way: 3,
            }
        }
        6 => {
            reply.op = Op::Load {
                addr: 0x240,
                size: 4,
                way: 0,
            }
        }
        7 => {
            reply.op = Op::Store {
                addr: 0x200,
                size: 8,
                value: 7,
            }
        }
        _ => {
            reply.op = Op::Swap {
                addr: 0x240,
                size: 8,
                new: 1,
            }
        }
    }
    reply
}

/// Hands `core` packets that fit nothing of it, and `other` empty ones, as commits from `first` on:
/// what is left differs in nothing that can be seen.
fn pass_over(rt: &impl Abort, core: &mut Core, other: &mut Core, first: u32, right: Reply)
    requires { first < 1000 }
{
    for number in 0..9u8 {
        let index = first + number as u32;
        let (owner, way) = if number % 2 == 0 { (1, 0) } else { (0, 4) };
        let cache = if number < 4 {
            Cache::Icache
        } else {
            Cache::Dcache
        };
        let reply = Some(wrong(right, number));
        core.take(&kill_packet(index, owner, cache, way, reply));
        other.take(&Packet {
            index,
            reply: None,
            kills: Kills::new(),
        });
        core.take(&kill_packet(index, 0, Cache::Icache, 0, Some(right)));
        core.take(&kill_packet(u32::MAX, 0, Cache::Icache, 0, Some(right)));
        assert_eq!(rt; core.time(), other.time(), "reply {number}");
        assert_eq!(rt; core.wait_of(0, 31), other.wait_of(0, 31), "reply {number}");
        assert_eq!(rt;
            core.drain_of(0, 31),
            other.drain_of(0, 31),
            "reply {number}"
        );
    }
}

/// What strand 0 of both cores sends, and the reply to it.
fn both_send(
    rt: &impl Abort,
    core: &mut Core,
    other: &mut Core,
    old: u64,
    words: &[u32; 8],
) -> Reply {
    let did = core.exec(0, 31);
    assert_eq!(rt; other.exec(0, 31), did);
    let mut reply = reply_to(
        0,
        Op::Fetch { addr: 0, way: 0 },
        old,
        Some(0),
        line_of(words),
    );
    match did {
        Did::Sent { dest: _, request } => {
            reply.item = request.item;
            reply.op = request.op;
        }
        _ => assert!(rt; false, "nothing is sent"),
    }
    reply
}

#[test]
fn what_fits_nothing_is_passed_over(rt: HostRuntime) -> Result<(), Fail> {
    let mut core = Core::new(rt.alloc(), &CONFIG, 0, 0x100)?;
    let mut other = Core::new(rt.alloc(), &CONFIG, 0, 0x100)?;
    let words = [STX, LDX, HALT, 0, 0, 0, 0, 0];
    let op = Op::Fetch {
        addr: 0x100,
        way: 0,
    };
    let early = reply_to(0, op, STX as u64, Some(0), line_of(&words));
    core.take(&packet(0, early));
    other.take(&packet(0, wrong(early, 0)));
    pass_over(&rt, &mut core, &mut other, 1, early);
    let fetch = both_send(&rt, &mut core, &mut other, STX as u64, &words);
    pass_over(&rt, &mut core, &mut other, 10, fetch);
    core.take(&packet(19, fetch));
    other.take(&packet(19, fetch));
    for number in 0..2u8 {
        assert_eq!(rt; core.exec(0, 0), Did::Moved, "step {number}");
        assert_eq!(rt; other.exec(0, 0), Did::Moved, "step {number}");
    }
    let load = both_send(&rt, &mut core, &mut other, 9, &[0; 8]);
    assert_eq!(rt; core.drain(0, 31), other.drain(0, 31));
    pass_over(&rt, &mut core, &mut other, 20, load);
    core.take(&packet(29, load));
    other.take(&packet(29, load));
    for number in 0..2u8 {
        assert_eq!(rt; core.exec(0, 0), Did::Moved, "step {number}");
        assert_eq!(rt; other.exec(0, 0), Did::Moved, "step {number}");
    }
    let stored = Op::Store {
        addr: 0x200,
        size: 8,
        value: 0,
    };
    let store = reply_to(1, stored, 0, None, [0; 32]);
    pass_over(&rt, &mut core, &mut other, 30, store);
    core.take(&packet(39, store));
    other.take(&packet(39, store));
    assert!(rt; core.finished());
    assert!(rt; other.finished());
    let traces = core.into_traces();
    let others = other.into_traces();
    assert_eq!(rt; traces.len(), 1);
    assert_eq!(rt; others.len(), 1);
    assert_eq!(rt; traces[0].ending, Some(Ending::Halted));
    assert_eq!(rt; traces[0].items.as_slice(), others[0].items.as_slice());
    Ok(())
}

#[test]
fn a_kill_empties_its_way(rt: HostRuntime) -> Result<(), Fail> {
    let mut core = Core::new(rt.alloc(), &CONFIG, 0, 0x100)?;
    fetch_line(&rt, &mut core, 0, &[NOP; 8]);
    core.take(&kill_packet(1, 0, Cache::Dcache, 0, None));
    assert_eq!(rt; core.exec(0, 0), Did::Moved);
    assert_eq!(rt; core.exec(0, 0), Did::Moved, "the line is there");
    core.take(&kill_packet(2, 0, Cache::Icache, 0, None));
    assert_eq!(rt; core.exec(0, 0), Did::Moved);
    assert_eq!(rt;
        core.exec(0, 0),
        Did::Waits(Wait::NoRoom(0)),
        "the line is gone"
    );
    Ok(())
}
