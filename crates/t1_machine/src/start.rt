//! The parts of the machine at its start.
ghost use Rattle.std.specs.Prelude.{◌≡◌, ◌<◌, ◌≤◌, ◌*◌, [], length, replicate, IfOk};
ghost use Rattle.t1_shape.specs.Numbers.{banks};
ghost use Rattle.t1_machine.specs.Start.{IsRunnable, setup_of, cores_from, banks_from};

use crate::ring::Ring;
use std::alloc::{AllocError, Global};
use t1_bank::Bank;
use t1_core::Core;
use t1_elf::Image;
use t1_event::Config;

/// So many empty rings.
#[tactic(auto, using(crate::proofs::Starts::one_more))]
pub(crate) fn rings<T, const MOST: usize>(
    alloc: Global,
    count: usize,
) -> Result<Vec<Ring<T, MOST>>, AllocError>
where
    T: Drop,
    ensures { IfOk result (λ rings. rings.items ≡ replicate count []) }
{
    let mut all = Vec::with_capacity(alloc, count)?;
    for _ in 0..count {
        all.push(Ring::new(alloc)?)?;
    }
    Ok(all)
}

/// The cores.
#[tactic(auto, using(crate::proofs::Starts::one_core_more), unfolding(crate::specs::Start::cores_from))]
pub(crate) fn cores(alloc: Global, config: &Config, image: &Image) -> Result<Vec<Core>, AllocError>
    requires { IsRunnable (setup_of config.now image.now) }
    ensures { IfOk result (λ cores. cores.items ≡ cores_from config.now image.now.entry 0 config.now.cores) }
{
    let mut all = Vec::with_capacity(alloc, config.cores as usize)?;
    for core in 0..config.cores {
        all.push(Core::new(alloc, config, core, image.entry)?)?;
    }
    Ok(all)
}

/// The L2 banks.
#[tactic(auto, unfolding(crate::specs::Start::banks_from))]
pub(crate) fn banks(alloc: Global, config: &Config, image: &Image) -> Result<Vec<Bank>, AllocError>
    requires { IsRunnable (setup_of config.now image.now) }
    ensures { IfOk result (λ all. all.items ≡ banks_from (setup_of config.now image.now) 0 (banks config.now.chip)) }
{
    let count = t1_shape::banks(config.chip);
    let mut all = Vec::with_capacity(alloc, count as usize)?;
    for bank in 0..count {
        all.push(Bank::new(alloc, bank, config, image.ram.as_slice())?)?;
    }
    Ok(all)
}
