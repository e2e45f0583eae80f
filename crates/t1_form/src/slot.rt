// The operands of forms.

/// One place of the operands of a form.
#[derive(Clone, Copy, Drop)]
pub enum Slot {
    /// This byte of punctuation.
    Mark(u8),
    /// A register that is rd, rs1, both, the second operand, or that and rd.
    Rd,
    Rs1,
    Both,
    Rs2,
    Rs2Rd,
    /// A register or an expr.
    Operand,
    /// An expr: a value, the address of a target, the number of an address space, a second value.
    Number,
    Target,
    AsiNumber,
    Extra,
    /// `A`; what may stand in brackets; `r` or `r+r`; `r`, `r+expr` or `r-expr`.
    Address,
    Within,
    Pair,
    Offset,
    /// `%icc` or `%xcc`; `,a` or nothing; `,pt`, `,pn` or nothing; `%asi`.
    Codes,
    Annul,
    Predict,
    Asi,
    /// An ancillary state register, a privileged register, the names of a barrier.
    State,
    Privileged,
    Barrier,
    /// No token: the second operand is 1; the address space is 80 hex.
    One,
    Primary,
}

/// The operands of a form.
#[derive(Clone, Copy, Drop)]
pub enum Shape {
    Nothing,
    Three,
    OperandRd,
    Compare,
    Test,
    OnlyRd,
    Step,
    Turn,
    Negate,
    NumberRd,
    Target,
    BranchIcc,
    BranchCodes,
    BranchRegister,
    JumpRd,
    Jump,
    TrapIcc,
    TrapCodes,
    MoveCodes,
    Load,
    LoadNamed,
    LoadAsi,
    Store,
    StoreNamed,
    StoreAsi,
    Fetch,
    FetchNamed,
    FetchAsi,
    Compared,
    ComparedNamed,
    ComparedAsi,
    ReadState,
    WriteState,
    ReadPrivileged,
    WritePrivileged,
    Barrier,
    BarrierNumber,
    Number,
}
