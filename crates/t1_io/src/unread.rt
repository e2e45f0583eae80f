//! A list that is read in pieces.
ghost use Rattle.std.specs.Prelude.{◌≡◌, ◌++◌, min, length, take, drop};

use std::marker::Model;

/// Bytes, and how many of them were read.
#[derive(Drop)]
pub(crate) struct Unread {
    bytes: Vec<u8>,
    at: usize,
}

impl Model for Unread {
    ghost use Rattle.std.specs.Prelude.{ℕ, List, ◌≤◌, length, drop};

    ghost Value = { List ℕ };

    ghost view = { λ u. drop u.at u.bytes.items };

    ghost invariant = { λ u. u.at ≤ length u.bytes.items };
}

impl Unread {
    pub(crate) fn new(bytes: Vec<u8>) -> Unread
        ensures { result ≡ bytes.items }
    {
        Unread { bytes, at: 0 }
    }

    /// Gives as many of the next bytes as fit the piece, but at most `most`.
    pub(crate) fn give(&mut self, most: usize, piece: &mut [u8]) -> usize
        ensures count { result ≡ min (min (length self.old) most) (length piece.old) }
        ensures piece { piece.new ≡ take result self.old ++ drop result piece.old }
        ensures left { self.new ≡ drop result self.old }
    {
        let left = self.bytes.as_slice().split_at(self.at).1;
        let count = left.len().min(most).min(piece.len());
        piece[..count].copy_from_slice(left.split_at(count).0);
        self.at += count;
        count
    }
}
