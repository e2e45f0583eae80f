//! The assembly texts.

/// The log of one strand that stores 5 to 200 hex, loads it and halts.
pub fn stored_log() -> &'static str {
    STORED_LOG
}

const STORED_LOG: &str = "t1log 1
config cores 1 strands 1 ram 65536 sets 1024 budget 10
entry 0000000100
m 0000000100 82102005c2702200c4582200b580200000000000000000000000000000000000
i 0 0 fetch 0000000100 4 82102005 - M 0 0
i 0 1 fetch 0000000104 4 c2702200 - H 1
i 0 2 store 0000000200 8 - 0000000000000005 M 1 1
i 0 3 fetch 0000000108 4 c4582200 - H 1
i 0 4 load 0000000200 8 0000000000000005 - M 2 2
i 0 5 fetch 000000010c 4 b5802000 - H 3
e 0 halted 4 0000000000000110
c 0 0 0 0 0 -
c 1 0 0 2 - -
c 2 0 0 4 0 -
o 0 0
o 0 1
o 0 3
o 0 2
o 0 4
o 0 5
end
";

/// Strand s stores 1 to 800 hex + 400 hex * s and loads the other's line, with `membar #StoreLoad` between.
pub fn store_membar_load() -> &'static str {
    STORE_MEMBAR_LOAD
}

const STORE_MEMBAR_LOAD: &str = "\
        .org 0x100
        sllx %o0, 10, %g1
        xor %g1, 0x400, %g2
        mov 1, %g3
        stx %g3, [%g1 + 0x800]
        membar #StoreLoad
        ldx [%g2 + 0x800], %g4
        wr %g0, 0, %asr26
";

/// Strand 0 stores 1 to 8040 and then to 8080 hex. Strand 1 loads 8040, loads 8080 until it is not 0, and
/// loads 8040.
pub fn message() -> &'static str {
    MESSAGE
}

const MESSAGE: &str = "\
        .org 0x100
        sethi %hi(0x8000), %g1
        cmp %o0, 0
        bne reader
        mov 1, %g2
        stx %g2, [%g1 + 0x40]
        stx %g2, [%g1 + 0x80]
        wr %g0, 0, %asr26
reader: ldx [%g1 + 0x40], %g3
again:  ldx [%g1 + 0x80], %g4
        cmp %g4, 0
        be %xcc, again
        nop
        ldx [%g1 + 0x40], %g5
        wr %g0, 0, %asr26
";

/// Strand 0 stores 1 to 8040 hex and strand 1 to 8080. Strand 2 loads 8040 and then 8080, strand 3 loads
/// 8080 and then 8040.
pub fn two_readers() -> &'static str {
    TWO_READERS
}

const TWO_READERS: &str = "\
        .org 0x100
        sethi %hi(0x8000), %g1
        mov 1, %g2
        sub %o0, 2, %g3
        brlz %g3, writer
        sll %o0, 6, %g4
        sll %g3, 6, %g5
        add %g1, %g5, %g6
        ldx [%g6 + 0x40], %g7
        xor %g5, 0x40, %g5
        add %g1, %g5, %g6
        ldx [%g6 + 0x40], %g7
        wr %g0, 0, %asr26
writer: add %g1, %g4, %g6
        stx %g2, [%g6 + 0x40]
        wr %g0, 0, %asr26
";

/// Each strand adds 1 to 8000 hex, ten times, by compare and swap.
pub fn counter() -> &'static str {
    COUNTER
}

const COUNTER: &str = "\
        .org 0x100
_start: sethi %hi(0x8000), %l0
        mov 10, %l1
again:  ldx [%l0], %g1
        add %g1, 1, %g2
        casx [%l0], %g1, %g2
        cmp %g1, %g2
        bne %xcc, again
        nop
        subcc %l1, 1, %l1
        bne %xcc, again
        nop
        wr %g0, 0, %asr26
";
