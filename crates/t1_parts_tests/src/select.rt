use t1_select::Select;

#[test]
fn the_least_recently_picked_comes_first(rt: HostRuntime) {
    let mut select = Select::new(4);
    assert_eq!(rt; select.len(), 4);
    for (ready, want) in [
        (6, Some(1)),
        (6, Some(2)),
        (7, Some(0)),
        (0, None),
        (0xf0, None),
        (15, Some(3)),
        (15, Some(1)),
        (5, Some(2)),
        (8, Some(3)),
        (8, Some(3)),
        (15, Some(0)),
    ] {
        assert_eq!(rt; select.pick(ready), want, "of {ready:x}");
    }
    let mut whole = Select::new(8);
    for strand in 0..8u8 {
        assert_eq!(rt; whole.pick(255), Some(strand));
    }
}
