//! What bytes are written to.
ghost use Rattle.std.specs.Prelude.{ℕ, List, Option, ◌<◌, ◌^◌, length, IfOk};
ghost use Rattle.std.specs.Io.{WritesAtMost};
ghost use Rattle.t1_io.specs.Causes.{HasCause};
ghost use Rattle.t1_io.specs.Held.{WriteGrew};

use crate::faults::Failed;

/// A place that bytes are written to in pieces.
///
/// `held` is the bytes that were written, where they are told, and `faults` a count of faults,
/// which never falls.
pub trait Sink {
    ghost held: { Self → Option (List ℕ) };

    ghost faults: { Self → ℕ };

    /// Appends the first bytes of a piece. `Ok(n)` is how many: at least one, where the piece is
    /// not empty.
    ///
    /// # Errors
    ///
    /// [`Failed`] only where the count of faults rose. Nothing is appended then.
    fn write(&mut self, piece: &[u8]) -> Result<usize, Failed>
        ensures bound { WritesAtMost result piece.now }
        ensures bytes { WriteGrew (held self.old) (held self.new) result piece.now }
        ensures moves { 0 < length piece.now → IfOk result (λ n. 0 < n) }
        ensures cause { HasCause (faults self.old) (faults self.new) result }
        ensures fits { faults self.new < 2 ^ 64 };
}
