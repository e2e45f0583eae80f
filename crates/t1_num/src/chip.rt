//! The chips that are built.

/// A chip: OpenSPARC T1, or OpenSPARC T2.
#[derive(Clone, Copy, Debug, PartialEq, Eq)]
pub enum ChipKind {
    T1,
    T2,
}
