use t1_alu::{AluOut, AluTrap, alu, holds, rholds, shift};
use t1_insn::{AluOp, ShiftOp};

const TOP: u64 = 1 << 63;

const ONES: u64 = u64::MAX;

fn gives(value: u64, y: u32, ccr: u8) -> Result<AluOut, AluTrap> {
    Ok(AluOut { value, y, ccr })
}

#[test]
fn worked_values(rt: HostRuntime) {
    let rows = [
        (AluOp::Add, 0x7fffffff, 1, 0, 0, gives(0x80000000, 0, 0x0a)),
        (AluOp::Sub, 0, 1, 0, 0, gives(ONES, 0, 0x99)),
        (AluOp::Sdivx, TOP, ONES, 0, 0, gives(TOP, 0, 0x84)),
        (AluOp::Udivx, 5, 0, 0, 0, Err(AluTrap::DivZero)),
        (AluOp::Udiv, 0, 1, 1, 0, gives(0xffffffff, 1, 0x0a)),
        (AluOp::Udiv, 5, 1 << 32, 0, 0, Err(AluTrap::DivZero)),
        (
            AluOp::Sdiv,
            0x80000000,
            0xffffffff,
            0xffffffff,
            0,
            gives(0x7fffffff, 0xffffffff, 0x02),
        ),
        (AluOp::TaddccTv, 1, 4, 0, 0, Err(AluTrap::Tag)),
        (AluOp::Taddcc, 1, 4, 0, 0, gives(5, 0, 0x02)),
        (
            AluOp::Mulscc,
            3,
            1,
            1,
            0x08,
            gives(0x80000002, 0x80000000, 0x08),
        ),
        (AluOp::Mulscc, 2, 3, 1, 0, gives(4, 0, 0)),
    ];
    for (op, a, b, y, ccr, want) in rows {
        assert_eq!(rt; alu(op, a, b, y, ccr), want, "{op:?} of {a:x} and {b:x}");
    }
    assert_eq!(rt;
        shift(ShiftOp::Sra, false, 0x80000000, 4),
        0xfffffffff8000000
    );
    assert_eq!(rt; shift(ShiftOp::Srl, false, ONES, 0), 0xffffffff);
}

/// The conditions that hold, condition n as bit n.
fn conditions(ccr: u8, wide: bool) -> u16 {
    let mut all = 0;
    for cond in 0..16 {
        if holds(cond, ccr, wide) {
            all |= 1 << cond;
        }
    }
    all
}

/// The register conditions that hold, in their order.
fn register_conditions(value: u64) -> [bool; 6] {
    [
        rholds(1, value),
        rholds(2, value),
        rholds(3, value),
        rholds(5, value),
        rholds(6, value),
        rholds(7, value),
    ]
}

#[test]
fn conditions_after_a_compare(rt: HostRuntime) -> Result<(), AluTrap> {
    // What holds of: less; equal; signed above but unsigned below; above.
    let (less, equal, crossed, above) = (0x837c, 0xe916, 0x0ff0, 0xff00);
    let rows = [
        (0, 1, less, less),
        (5, 5, equal, equal),
        (1, 0x80000000, crossed, less),
        (1, TOP, above, crossed),
    ];
    for (a, b, icc, xcc) in rows {
        let ccr = alu(AluOp::Sub, a, b, 0, 0)?.ccr;
        assert_eq!(rt; conditions(ccr, false), icc, "icc of {a:x} and {b:x}");
        assert_eq!(rt; conditions(ccr, true), xcc, "xcc of {a:x} and {b:x}");
    }
    assert_eq!(rt;
        register_conditions(0),
        [true, true, false, false, false, true]
    );
    assert_eq!(rt;
        register_conditions(ONES),
        [false, true, true, true, false, false]
    );
    assert_eq!(rt;
        register_conditions(1),
        [false, false, false, true, true, true]
    );
    Ok(())
}

/// The high and the low half of a signed product, by the routine `.mul` of SPARC V8, appendix E.
fn multiply(multiplier: u32, multiplicand: u32) -> Result<(u32, u32), AluTrap> {
    let mut step = alu(AluOp::And, 0, 0, multiplier, 0)?;
    for _ in 0..32 {
        step = alu(
            AluOp::Mulscc,
            step.value,
            multiplicand as u64,
            step.y,
            step.ccr,
        )?;
    }
    step = alu(AluOp::Mulscc, step.value, 0, step.y, step.ccr)?;
    if multiplier >= 1 << 31 {
        step = alu(AluOp::Sub, step.value, multiplicand as u64, step.y, 0)?;
    }
    Ok(((step.value & 0xffffffff) as u32, step.y))
}

#[test]
fn thirty_two_multiply_steps_multiply(rt: HostRuntime) {
    let rows = [
        (6, 7, (0, 42)),
        (-6, 7, (0xffffffff, 0xffffffd6)),
        (7, -6, (0xffffffff, 0xffffffd6)),
        (i32::MIN, i32::MIN, (0x40000000, 0)),
        (-1, i32::MAX, (0xffffffff, 0x80000001)),
    ];
    for (a, b, want) in rows {
        let product = multiply(a.cast_unsigned(), b.cast_unsigned());
        assert_eq!(rt; product, Ok(want), "{a} times {b}");
    }
}
