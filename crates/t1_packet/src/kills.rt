//! A list of kills, which takes no memory.
ghost use Rattle.std.specs.Prelude.{◌≡◌, ◌<◌, ◌≤◌, ◌++◌, ◌∷◌, [], length};

use crate::kill::Kill;
use arrayvec::ArrayVec;
use std::marker::Model;

/// At most `MOST` kills, seen as a list: 64 of an access, 8 of a packet.
#[derive(Drop)]
pub struct Kills<const MOST: usize> {
    items: ArrayVec<Kill, MOST>,
}

impl<const MOST: usize> Model for Kills<MOST> {
    ghost use Rattle.std.specs.Prelude.{List};
    ghost use Rattle.t1_packet.specs.Data.{KillData};

    ghost Value = { List KillData };

    ghost view = { λ k. k.items.items };
}

impl<const MOST: usize> Kills<MOST> {
    /// No kill.
    pub fn new() -> Kills<MOST>
        ensures { result ≡ [] }
    {
        Kills {
            items: ArrayVec::new(),
        }
    }

    /// Appends a kill.
    pub fn push(&mut self, kill: Kill)
        requires { length self.old < MOST }
        ensures { self.new ≡ self.old ++ kill ∷ [] }
    {
        self.items.push(kill);
    }

    /// How many there are.
    pub fn len(&self) -> usize
        ensures value { result ≡ length self.now }
        ensures few { result ≤ MOST }
    {
        self.items.len()
    }

    /// The same kills.
    pub fn copied(&self) -> Kills<MOST>
        ensures { result ≡ self.now }
    {
        let mut kills = Kills::new();
        for kill in self.items.as_slice() {
            kills.items.push(*kill);
        }
        kills
    }

    /// The kills, in order.
    pub fn as_slice(&self) -> &[Kill]
        ensures value { result.now ≡ self.now }
        ensures few { length result.now ≤ MOST }
    {
        self.items.as_slice()
    }
}
