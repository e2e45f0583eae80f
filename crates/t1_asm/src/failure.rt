// Why a pass stopped.
use t1_stmt::fault::Halt;

/// The line where a pass stopped, and why.
#[derive(Clone, Copy, Drop)]
pub struct Failure {
    pub line: u32,
    pub halt: Halt,
}
