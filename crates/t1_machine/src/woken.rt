//! Which slots a step may have enabled.

/// The slots that a step may have enabled; every other slot that was not enabled still is not.
#[derive(Clone, Copy, Debug, PartialEq, Eq)]
pub enum Woken {
    /// No slot.
    Nothing,
    /// Exec and Drains of a core.
    Core(u8),
    /// Exec and Drains of a core, and Serve of the destination that it sent a request to.
    Sent { core: u8, dest: u8 },
    /// Exec and Drains of a core that took a packet, and each Admit.
    Took(u8),
    /// Exec and Drains of a core whose request was served, and Admit of the destination.
    Served { core: u8, dest: u8 },
    /// Serve of a destination whose access was admitted, each Admit, and Take of each core that has its
    /// bit in `cores`.
    Admitted { dest: u8, cores: u8 },
}
