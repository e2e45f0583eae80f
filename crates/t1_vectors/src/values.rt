//! Values of instructions.

/// Operations: mnemonic, the two operands, Y and the condition codes before, and after `=` the value, Y
/// and the condition codes after, or `trap` and its type. All numbers are hexadecimal.
pub fn operations() -> &'static str {
    OPERATIONS
}

const OPERATIONS: &str = "\
addcc 7fffffff 1 0 0 = 80000000 0 0a
subcc 0 1 0 0 = ffffffffffffffff 0 99
sdivx 8000000000000000 ffffffffffffffff 0 0 = 8000000000000000 0 00
udivcc 0 1 1 0 = ffffffff 1 0a
sdiv 80000000 ffffffff ffffffff 0 = 7fffffff ffffffff 00
mulscc 3 1 1 08 = 80000002 80000000 08
mulscc 2 3 1 0 = 4 0 00
sra 80000000 4 0 0 = fffffffff8000000 0 00
srl ffffffffffffffff 0 0 0 = ffffffff 0 00
udivx 5 0 0 0 = trap 028
taddcctv 1 4 0 0 = trap 023
";

/// Moves of the windows from the start of a strand: how many times `save`, how many times `restore`, and
/// after `=` CWP, CANSAVE and CANRESTORE, or `trap`, its type, and CWP in the handler.
pub fn windows() -> &'static str {
    WINDOWS
}

const WINDOWS: &str = "\
0 0 = 0 6 0
6 0 = 6 0 6
6 6 = 0 6 0
7 0 = trap 080 0
0 1 = trap 0c0 7
";
