use t1_event::Commit;
use t1_iob::{console_byte, serve_io};
use t1_packet::{Kills, Op, Request};

fn commit(op: Op) -> Commit {
    Commit {
        dest: 4,
        strand: 0,
        item: 0,
        op,
        seen: 0,
        old: 0,
        way: None,
        evicted: None,
        kills: Kills::new(),
    }
}

#[test]
fn one_byte_stores_to_the_console_put_their_byte(rt: HostRuntime) {
    let base = 0x80_0000_0000;
    for (op, want) in [
        (
            Op::Store {
                addr: base,
                size: 1,
                value: 0x41,
            },
            Some(0x41),
        ),
        (
            Op::Store {
                addr: base,
                size: 1,
                value: 0,
            },
            Some(0),
        ),
        (
            Op::Store {
                addr: base,
                size: 2,
                value: 0x41,
            },
            None,
        ),
        (
            Op::Store {
                addr: base,
                size: 8,
                value: 0x41,
            },
            None,
        ),
        (
            Op::Store {
                addr: base + 1,
                size: 1,
                value: 0x41,
            },
            None,
        ),
        (
            Op::Store {
                addr: 0,
                size: 1,
                value: 0x41,
            },
            None,
        ),
        (
            Op::Load {
                addr: base,
                size: 1,
                way: 0,
            },
            None,
        ),
        (
            Op::Swap {
                addr: base,
                size: 1,
                new: 0x41,
            },
            None,
        ),
    ] {
        assert_eq!(rt; console_byte(&commit(op)), want, "{op:?}");
    }
}

#[test]
fn loads_from_io_give_zero(rt: HostRuntime) {
    let request = Request {
        core: 3,
        strand: 2,
        item: 7,
        seen: 5,
        op: Op::Load {
            addr: 0x80_0000_0008,
            size: 8,
            way: 2,
        },
    };
    let served = serve_io(request);
    assert_eq!(rt; served.request, request);
    assert_eq!(rt;
        (served.old, served.way, served.evicted, served.kills.len()),
        (0, None, None, 0)
    );
    assert_eq!(rt; served.line, [0; 32]);
}
