//! The op3 of each operation, from the rows that `t1_decode` reads.
ghost use Rattle.std.specs.Prelude.{◌≡◌, ◌<◌, IfSome};
ghost use Rattle.t1_encode.specs.Numbers.{alu_number as op3_of_alu, shift_number as op3_of_shift, load_number as op3_of_load, store_number as op3_of_store, access_number as op3_of_access};

use t1_decode::{access_rows, alu_rows, control_rows};
use t1_insn::{AluOp, LoadKind, Mem, ShiftOp, StoreKind};

// The arms of the arithmetic rows, turned round.
macro_rules! alu_arms {
    ($op:ident $cc:ident; $($number:literal $row_op:ident $row_cc:literal,)*) => {
        match ($op, $cc) {
            $((AluOp::$row_op, $row_cc) => Some($number),)*
            _ => None,
        }
    };
}

/// The number of an arithmetic form; `None` where there is no such form.
#[tactic(auto, unfolding(crate::specs::Numbers::alu_number))]
pub fn alu_number(op: AluOp, cc: bool) -> Option<u32>
    ensures value { result ≡ op3_of_alu op cc }
    ensures small { IfSome result (λ op3. op3 < 64) }
{
    alu_rows!(alu_arms op cc)
}

// The arms of the shifts.
macro_rules! shift_arms {
    ($op:ident;
     shift { $($number:literal $row_op:ident,)* }
     rd_and_operands { $($rd_number:literal $rd_form:ident,)* }
     operands { $($operands_number:literal $form:ident,)* }) => {
        match $op {
            $(ShiftOp::$row_op => $number,)*
        }
    };
}

/// The number of a shift.
pub fn shift_number(op: ShiftOp) -> u32
    ensures value { result ≡ op3_of_shift op }
    ensures small { result < 64 }
{
    control_rows!(shift_arms op)
}

// The arms of the loads, by their plain forms.
macro_rules! load_arms {
    ($kind:ident;
     load { $($number:literal $alternate:literal $row_kind:ident,)* }
     store { $($store_number:literal $store_alternate:literal $store:ident,)* }
     atomic { $($atomic_number:literal $atomic_alternate:literal $form:ident,)* }) => {
        match $kind {
            $(LoadKind::$row_kind => $number,)*
        }
    };
}

/// The number of a plain load.
#[tactic(auto, unfolding(crate::specs::Numbers::load_number))]
pub fn load_number(kind: LoadKind) -> u32
    ensures value { result ≡ op3_of_load kind }
    ensures small { result < 16 }
{
    access_rows!(load_arms kind)
}

// The arms of the stores, by their plain forms.
macro_rules! store_arms {
    ($kind:ident;
     load { $($load_number:literal $load_alternate:literal $load:ident,)* }
     store { $($number:literal $alternate:literal $row_kind:ident,)* }
     atomic { $($atomic_number:literal $atomic_alternate:literal $form:ident,)* }) => {
        match $kind {
            $(StoreKind::$row_kind => $number,)*
        }
    };
}

/// The number of a plain store.
#[tactic(auto, unfolding(crate::specs::Numbers::store_number))]
pub fn store_number(kind: StoreKind) -> u32
    ensures value { result ≡ op3_of_store kind }
    ensures small { result < 16 }
{
    access_rows!(store_arms kind)
}

/// The number of an access whose plain form has `op3`.
pub fn access_number(mem: Mem, op3: u32) -> u32
    requires { op3 < 0x30 }
    ensures value { result ≡ op3_of_access mem op3 }
    ensures small { result < 64 }
{
    match mem {
        Mem::Plain(_) => op3,
        Mem::Alt { .. } | Mem::AltReg { .. } => 0x10 + op3,
    }
}
