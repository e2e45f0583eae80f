use std::test::Fail;
use t1_l2::BankArray;
use t1_num::ChipKind;

#[test]
fn array_that_is_new_holds_no_line(rt: HostRuntime) -> Result<(), Fail> {
    let ram = Vec::from_elem(rt.alloc(), 7u8, 65536)?;
    let array = BankArray::new(rt.alloc(), ChipKind::T1, 2, 16, &ram)?;
    assert_eq!(rt; (array.bank(), array.banks()), (2, 4));
    for addr in [0x80u64, 0x180, 0xff80] {
        assert!(rt; !array.holds_line(addr), "{addr:x}");
    }
    Ok(())
}
