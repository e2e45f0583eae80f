use std::test::Fail;
use t1_gen::generate;

#[test]
fn a_guest_of_two_words(rt: HostRuntime) -> Result<(), Fail> {
    let guest = generate(rt.alloc(), 0, 2)?;
    assert_eq!(rt; guest.entry, 0x1000);
    for chunk in guest.chunks.as_slice() {
        assert_eq!(rt; chunk.addr, 0x1000);
        let code = chunk.bytes.as_slice();
        assert_eq!(rt; code, [
            0x21, 0x00, 0x00, 0x20, // sethi %hi(0x8000), %l0
            0x81, 0x43, 0xe0, 0x02, // membar #StoreLoad
            0xc6, 0x0c, 0x21, 0xf0, // ldub [%l0+0x1f0], %g3
            0xb5, 0x80, 0x20, 0x00, // wr %g0, 0, %asr26
        ].as_slice());
    }
    Ok(())
}
