// Why a line is refused.
use std::alloc::AllocError;

/// A fault of a line.
#[derive(Clone, Copy, Drop)]
pub enum Fault {
    Syntax,
    UnknownName,
    BadOperand,
    OutOfRange,
    DuplicateLabel,
    MissingLabel,
    TooLong,
}

/// Why a line was not read: its fault, or memory ran out.
#[derive(Clone, Copy, Drop)]
pub enum Halt {
    Fault(Fault),
    Memory,
}

impl From<AllocError> for Halt {
    ghost use Rattle.std.specs.Prelude.{◌≡◌};
    ghost use Rattle.t1_stmt.specs.declared.fault.Halt.TheVariants.{Memory};

    ghost from_gives = { λ _ e. e ≡ Memory };

    fn from(_e: AllocError) -> Halt {
        Halt::Memory
    }
}
