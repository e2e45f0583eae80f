//! Kills: copies of lines that a core has to drop.
ghost use Rattle.std.specs.Prelude.{◌≡◌, ◌<◌};

use crate::cache::Cache;
use std::marker::Model;

/// A copy that a core drops: one way of one set of one of its L1 caches.
///
/// By its type the core is below 8, the set below 128 and the way below 8.
#[derive(Clone, Copy, Debug, PartialEq, Eq)]
pub struct Kill {
    pub core: u8,
    pub cache: Cache,
    pub set: u8,
    pub way: u8,
}

impl Model for Kill {
    ghost use Rattle.std.specs.Prelude.{◌<◌};
    ghost use Rattle.t1_packet.specs.Data.{KillData};

    ghost Value = { KillData };

    ghost view = { λ k. record { core = k.core; cache = k.cache; set = k.set; way = k.way } };

    ghost invariant = { λ k. (k.core < 8) × (k.set < 128) × (k.way < 8) };

    ghost inverse = { λ d. record { core = d.core; cache = d.cache; set = d.set; way = d.way } };
}

impl Kill {
    /// The kill of a way of a set, in a core's cache.
    pub fn new(core: u8, cache: Cache, set: u8, way: u8) -> Kill
        requires { (core < 8) × (set < 128) × (way < 8) }
        ensures { result ≡ record { core = core; cache = cache; set = set; way = way } }
    {
        Kill {
            core,
            cache,
            set,
            way,
        }
    }
}

/// A kill of nothing in particular, which fills the unused room of a list.
impl Default for Kill {
    fn default() -> Kill {
        Kill {
            core: 0,
            cache: Cache::Dcache,
            set: 0,
            way: 0,
        }
    }
}
