use std::alloc::AllocError;
use std::test::Fail;
use t1_event::Config;
use t1_num::ChipKind;
use t1_packet::{Cache, Kill, Kills, Op, Request, Served};
use t1_xbar::{Admitted, Post, Posts, Xbar};

const CONFIG: Config = Config {
    chip: ChipKind::T1,
    hyper: false,
    cores: 3,
    strands: 2,
    ram: 65536,
    sets: 1,
    budget: 10,
};

/// A compare by strand 1 of core 0, sent at this time, which kills a copy of core 2.
fn a_compare(seen: u32, old: u64) -> Served {
    let mut kills = Kills::new();
    if kills.len() < 64 {
        kills.push(Kill::new(2, Cache::Dcache, 7, 3));
    }
    Served {
        request: Request {
            core: 0,
            strand: 1,
            item: 5,
            seen,
            op: Op::Cas {
                addr: 0x100,
                size: 4,
                expect: 9,
                new: 11,
            },
        },
        old,
        way: None,
        line: [0; 32],
        evicted: Some(0x2100),
        kills,
    }
}

/// The answer in numbers: what became of it, and its numbers; of what is done, the packets too.
fn outline(answer: &Admitted) -> (u8, u32, u32) {
    match answer {
        Admitted::Done { index, posts } => (0, *index, posts.as_slice().len() as u32),
        Admitted::NotSeen { seen, len } => (1, *seen, *len),
        Admitted::NoRoom(core) => (2, *core as u32, 0),
    }
}

/// Makes room, and admits an access of destination 4.
fn admitted(xbar: &mut Xbar, served: &Served, rooms: u8) -> Result<(u8, u32, u32), AllocError> {
    xbar.reserve()?;
    if xbar.len() >= 1000 {
        return Ok((9, 0, 0));
    }
    let answer = xbar.admit(4, served, rooms);
    Ok(outline(&answer))
}

#[test]
fn an_access_waits_until_it_is_seen_and_has_room(rt: HostRuntime) -> Result<(), Fail> {
    let mut xbar = Xbar::new(rt.alloc(), &CONFIG, 1)?;
    assert_eq!(rt; admitted(&mut xbar, &a_compare(3, 9), 0xff)?, (1, 3, 0));
    assert_eq!(rt; admitted(&mut xbar, &a_compare(0, 9), 0)?, (2, 0, 0));
    assert_eq!(rt; admitted(&mut xbar, &a_compare(0, 9), 0b011)?, (2, 2, 0));
    assert_eq!(rt; xbar.len(), 0);
    Ok(())
}

#[test]
fn an_admitted_access_is_the_next_record(rt: HostRuntime) -> Result<(), Fail> {
    let mut xbar = Xbar::new(rt.alloc(), &CONFIG, 1)?;
    assert_eq!(rt; admitted(&mut xbar, &a_compare(0, 8), 0b101)?, (0, 0, 2));
    assert_eq!(rt; admitted(&mut xbar, &a_compare(0, 9), 0b101)?, (0, 1, 2));
    assert_eq!(rt; xbar.len(), 2);
    let log = xbar.into_log();
    let [first, second] = log.as_slice() else {
        return Ok(());
    };
    assert_eq!(rt;
        (first.dest, first.strand, first.item, first.seen),
        (4, 1, 5, 0)
    );
    assert_eq!(rt;
        (first.old, first.evicted, first.kills.len()),
        (8, Some(0x2100), 1)
    );
    let (addr, size) = (0x100, 4);
    assert_eq!(rt;
        first.op,
        Op::Cas {
            addr,
            size,
            expect: 0,
            new: 0
        }
    );
    assert_eq!(rt;
        second.op,
        Op::Swap {
            addr,
            size,
            new: 11
        }
    );
    Ok(())
}

#[test]
fn posts_are_taken_from_the_last_to_the_first(rt: HostRuntime) -> Result<(), Fail> {
    let mut posts = Posts::new();
    posts.push(Post::default());
    assert_eq!(rt; posts.pop().is_some(), true);
    assert_eq!(rt; posts.pop().is_none(), true);
    Ok(())
}
