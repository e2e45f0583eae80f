//! The rows of the word table by op3, of which a writer of words takes those of arithmetic, shifts,
//! loads and stores.
//!
//! Each macro hands its rows to the macro that it is given, after the names that it is given. The
//! numbers are those of op3.

/// The arithmetic of op 2: an operation, and whether it sets the condition codes.
#[macro_export]
macro_rules! alu_rows {
    ($arms:ident $($name:ident)*) => {
        $arms! { $($name)*;
            0x00 Add false,
            0x01 And false,
            0x02 Or false,
            0x03 Xor false,
            0x04 Sub false,
            0x05 Andn false,
            0x06 Orn false,
            0x07 Xnor false,
            0x08 Addc false,
            0x09 Mulx false,
            0x0a Umul false,
            0x0b Smul false,
            0x0c Subc false,
            0x0d Udivx false,
            0x0e Udiv false,
            0x0f Sdiv false,
            0x10 Add true,
            0x11 And true,
            0x12 Or true,
            0x13 Xor true,
            0x14 Sub true,
            0x15 Andn true,
            0x16 Orn true,
            0x17 Xnor true,
            0x18 Addc true,
            0x1a Umul true,
            0x1b Smul true,
            0x1c Subc true,
            0x1e Udiv true,
            0x1f Sdiv true,
            0x20 Taddcc true,
            0x21 Tsubcc true,
            0x22 TaddccTv true,
            0x23 TsubccTv true,
            0x24 Mulscc true,
            0x2d Sdivx false,
        }
    };
}

/// The forms of control of op 2 that have nothing but a kind and operands: the shifts, and the
/// instructions of rd, rs1 and a second operand, or of the last two.
#[macro_export]
macro_rules! control_rows {
    ($arms:ident $($name:ident)*) => {
        $arms! { $($name)*;
            shift {
                0x25 Sll,
                0x26 Srl,
                0x27 Sra,
            }
            rd_and_operands {
                0x38 Jmpl,
                0x3c Save,
                0x3d Restore,
            }
            operands {
                0x39 Return,
                0x3b Flush,
            }
        }
    };
}

/// The loads, the stores and the atomic accesses of one register of op 3: the number of the plain
/// form, that of the alternate form, and the kind.
#[macro_export]
macro_rules! access_rows {
    ($arms:ident $($name:ident)*) => {
        $arms! { $($name)*;
            load {
                0x00 0x10 Uw,
                0x01 0x11 Ub,
                0x02 0x12 Uh,
                0x03 0x13 Tw,
                0x08 0x18 Sw,
                0x09 0x19 Sb,
                0x0a 0x1a Sh,
                0x0b 0x1b X,
            }
            store {
                0x04 0x14 W,
                0x05 0x15 B,
                0x06 0x16 H,
                0x07 0x17 Tw,
                0x0e 0x1e X,
            }
            atomic {
                0x0d 0x1d Ldstub,
                0x0f 0x1f Swap,
            }
        }
    };
}
