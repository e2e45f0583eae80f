//! Schedules of the serial machine.

/// Which of the enabled slots is done next.
#[derive(Clone, Copy, Debug, PartialEq, Eq)]
pub enum Schedule {
    /// The first enabled slot, cyclically from one past the slot done last, at first from slot 0.
    Turns,
    /// The first enabled slot, cyclically from a number that the generator of this seed draws for
    /// each step.
    Seed(u64),
}
