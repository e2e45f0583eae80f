use std::test::Fail;
use t1_elf::{Image, Listed};
use t1_event::Config;
use t1_machine::{Machine, Slot};
use t1_num::ChipKind;

const CONFIG: Config = Config {
    chip: ChipKind::T1,
    hyper: false,
    cores: 1,
    strands: 2,
    ram: 65536,
    sets: 1,
    budget: 10,
};

#[test]
fn a_core_executes_at_its_start(rt: HostRuntime) -> Result<(), Fail> {
    let ram = Vec::from_elem(rt.alloc(), 0u8, 65536)?;
    let image = Image {
        entry: 0,
        ram: Listed::from_vec(ram),
    };
    let mut machine = Machine::new(rt.alloc(), &CONFIG, &image)?;
    assert!(rt; machine.step(Slot::Exec(0)).is_some());
    Ok(())
}
