//! The bytes of a line.
ghost use Rattle.std.specs.Prelude.{◌≡◌, ◌+◌, ◌≤◌};
ghost use Rattle.t1_num.specs.Memory.{with_number_at};

/// Puts the low `size` bytes of a number at a place of a line, the highest first.
#[tactic(auto, using(crate::proofs::Sums::put_more, crate::proofs::Sums::put_none))]
pub fn put_in<const LINE: usize>(line: &mut [u8; LINE], at: usize, size: usize, value: u64)
    requires { at + size ≤ LINE }
    ensures { line.new ≡ with_number_at line.old at size value }
{
    if size > 0 {
        put_in(line, at, size - 1, value / 256);
        line[at + size - 1] = (value % 256) as u8;
    }
}
