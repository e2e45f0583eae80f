use std::test::Fail;
use t1_packet::{Cache, Kill, Kills, Op, Packet, Request, Served, dest, packet_for};

const LINE: [u8; 32] = [7; 32];

/// A load by strand 1 of core 2, which kills nine copies of core 0, one in each set, and one of
/// core 1.
fn a_load() -> Served {
    let mut kills = Kills::new();
    for set in 0..9u8 {
        if kills.len() < 64 {
            kills.push(Kill::new(0, Cache::Dcache, set, 3));
        }
    }
    if kills.len() < 64 {
        kills.push(Kill::new(1, Cache::Icache, 5, 1));
    }
    let op = Op::Load {
        addr: 0x240,
        size: 8,
        way: 1,
    };
    Served {
        request: Request {
            core: 2,
            strand: 1,
            item: 17,
            seen: 4,
            op,
        },
        old: 9,
        way: Some(1),
        line: LINE,
        evicted: Some(0x4240),
        kills,
    }
}

#[test]
fn each_address_has_one_destination(rt: HostRuntime) -> Result<(), Fail> {
    let cases: [(u64, u8); 8] = [
        (0, 0),
        (0x3f, 0),
        (0x40, 1),
        (0xff, 3),
        (0x7f_ffff_ffff, 3),
        (0x80_0000_0000, 4),
        (0xff_ffff_ffff, 4),
        (0x100_0000_0040, 1),
    ];
    for (addr, wanted) in cases {
        assert_eq!(rt; dest(addr), wanted);
    }
    Ok(())
}

/// Index, kills and whether there is a reply, of the packet to a core.
fn outline(packet: &Option<Packet>) -> (u32, usize, bool) {
    match packet {
        None => (0, 0, false),
        Some(packet) => (packet.index, packet.kills.len(), packet.reply.is_some()),
    }
}

#[test]
fn a_core_gets_its_first_eight_kills_and_its_own_reply(rt: HostRuntime) -> Result<(), Fail> {
    let served = a_load();
    assert_eq!(rt; outline(&packet_for(0, 6, &served)), (6, 8, false));
    assert_eq!(rt; outline(&packet_for(1, 6, &served)), (6, 1, false));
    assert_eq!(rt; outline(&packet_for(2, 6, &served)), (6, 0, true));
    assert_eq!(rt; packet_for(3, 6, &served).is_none(), true);
    let Some(packet) = packet_for(1, 6, &served) else {
        return Ok(());
    };
    assert_eq!(rt;
        packet.kills.as_slice(),
        [Kill::new(1, Cache::Icache, 5, 1)].as_slice()
    );
    let Some(packet) = packet_for(2, 6, &served) else {
        return Ok(());
    };
    let Some(reply) = packet.reply else {
        return Ok(());
    };
    assert_eq!(rt;
        (reply.strand, reply.item, reply.seen, reply.old),
        (1, 17, 4, 9)
    );
    let line = reply.line;
    assert_eq!(rt; (reply.op, reply.way), (served.request.op, Some(1)));
    assert_eq!(rt; line, LINE);
    assert_eq!(rt; Kill::default(), Kill::new(0, Cache::Dcache, 0, 0));
    Ok(())
}
