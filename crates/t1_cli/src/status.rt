//! The statuses of the commands.

/// How a command ended.
#[derive(Clone, Copy, Debug, PartialEq, Eq)]
pub enum Status {
    /// The text was written whole, and each strand that ran halted.
    Good,
    /// The words are not in the form of a command that is served.
    Usage,
    /// The input is too long, no program that can be loaded, no assembly text or no log.
    Refused,
    /// The text was written whole, and some strand ended by a trap at trap level 6.
    Fault,
    /// The text was written whole, no strand did so, and some strand made all units of its budget and did
    /// not halt.
    Spent,
    /// A read of the input failed.
    ReadFault,
    /// A write of the output failed: it holds a front of the text.
    WriteFault,
    /// Memory was wanting; the output is unchanged.
    OutOfMemory,
    /// A log whose memory order does not obey total store order.
    NotInOrder,
}

impl Status {
    ghost use Rattle.std.specs.Prelude.{◌≡◌};
    ghost use Rattle.t1_cli.specs.Codes.{code_of};

    /// The status of the process.
    pub fn code(self) -> u8
        ensures { result ≡ code_of self }
    {
        match self {
            Status::Good => 0,
            Status::Usage => 1,
            Status::Refused => 2,
            Status::Fault => 3,
            Status::Spent => 4,
            Status::ReadFault => 5,
            Status::WriteFault => 6,
            Status::OutOfMemory => 7,
            Status::NotInOrder => 8,
        }
    }
}
