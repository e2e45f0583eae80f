// What the operands of forms are put into.
use t1_insn::{AluOp, Insn, LoadKind, ShiftOp, StoreKind};

/// How an access names its address space: not, by a number, by the ASI register.
#[derive(Clone, Copy, Drop)]
pub enum Space {
    Plain,
    Named,
    Asi,
}

/// An access to memory by its mnemonic.
#[derive(Clone, Copy, Drop)]
pub enum Access {
    Load(LoadKind),
    Store(StoreKind),
    Ldstub,
    Swap,
}

/// What the fields are put into.
#[derive(Clone, Copy, Drop)]
pub enum Template {
    Fixed(Insn),
    Alu { op: AluOp, cc: bool },
    Shift { op: ShiftOp, wide: bool },
    Save,
    Restore,
    Sethi,
    Set,
    Bicc(u8),
    Bpcc(u8),
    Bpr(u8),
    Call,
    Jmpl,
    Return,
    Flush,
    Trap(u8),
    Movcc(u8),
    Movr(u8),
    Access(Access, Space),
    Prefetch(Space),
    Cas { wide: bool, space: Space },
    ReadAsr,
    WriteAsr,
    ReadPr,
    WritePr,
    Membar,
    Illtrap,
}
