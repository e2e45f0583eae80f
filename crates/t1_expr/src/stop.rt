// Why operands were not read.
use std::alloc::AllocError;

/// Why operands were not read: they have no such form, or memory ran out.
#[derive(Clone, Copy, Drop)]
pub enum Stop {
    Bad,
    Memory,
}

impl From<AllocError> for Stop {
    ghost use Rattle.std.specs.Prelude.{◌≡◌};
    ghost use Rattle.t1_expr.specs.declared.stop.Stop.TheVariants.{Memory};

    ghost from_gives = { λ _ e. e ≡ Memory };

    fn from(_e: AllocError) -> Stop {
        Stop::Memory
    }
}
