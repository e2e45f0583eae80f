use std::test::Fail;
use t1_l1::L1;

#[test]
fn a_full_set_fills_at_its_pointer(rt: HostRuntime) -> Result<(), Fail> {
    let mut cache: L1<4, 16> = L1::new(rt.alloc(), 128)?;
    for (way, addr) in [0x200u64, 0xa00, 0x1200, 0x1a00].iter().enumerate() {
        if way < 4 {
            assert_eq!(rt; cache.look(*addr), None);
            assert_eq!(rt; cache.victim(*addr) as usize, way, "the first invalid way");
            cache.fill(*addr, way as u8, &[way as u8; 16]);
            assert_eq!(rt; cache.look(*addr), Some(way as u8));
        }
    }
    assert_eq!(rt; cache.victim(0x2200), 0);
    cache.fill(0x2200, 0, &[9; 16]);
    assert_eq!(rt; cache.victim(0x200), 1);
    assert_eq!(rt; cache.look(0x200), None);
    assert_eq!(rt; cache.read(0x2208, 4), Some(0x0909_0909));
    cache.update(0x220a, 2, 0xff_1234);
    assert_eq!(rt; cache.read(0x2208, 8), Some(0x0909_1234_0909_0909));
    cache.update(0x200, 8, 5);
    assert_eq!(rt;
        cache.look(0x200),
        None,
        "a store that misses allocates nothing"
    );
    assert_eq!(rt; cache.sets(), 128);
    cache.invalidate(0x20, 2);
    assert_eq!(rt; cache.look(0x1200), None);
    assert_eq!(rt; cache.victim(0x200), 2);
    Ok(())
}
