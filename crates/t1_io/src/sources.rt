//! What bytes are read from.
ghost use Rattle.std.specs.Prelude.{ℕ, List, Option, ◌≡◌, ◌<◌, ◌^◌, OnErr};
ghost use Rattle.std.specs.Io.{ReadsAtMost};
ghost use Rattle.std.specs.Io.KnownBytes.{ReadConsumes};
ghost use Rattle.t1_io.specs.Causes.{HasCause};

use crate::faults::Failed;

/// Bytes that are read in pieces.
///
/// `left` is the bytes not yet read, where they are told, and `faults` a count of faults, which
/// never falls.
pub trait Source {
    ghost left: { Self → Option (List ℕ) };

    ghost faults: { Self → ℕ };

    /// Reads the next bytes into a piece. `Ok(n)` puts the next `n` of them first in the piece,
    /// and `Ok(0)` on a piece that is not empty is the end.
    ///
    /// # Errors
    ///
    /// [`Failed`] only where the count of faults rose. No byte is taken then, and the piece is left as
    /// it was.
    fn read(&mut self, piece: &mut [u8]) -> Result<usize, Failed>
        ensures bound { ReadsAtMost result piece.new }
        ensures bytes { ReadConsumes (left self.old) (left self.new) result piece.new }
        ensures lent { OnErr result (piece.new ≡ piece.old) }
        ensures cause { HasCause (faults self.old) (faults self.new) result }
        ensures fits { faults self.new < 2 ^ 64 };
}
