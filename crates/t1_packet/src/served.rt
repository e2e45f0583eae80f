//! Served accesses.

use crate::kills::Kills;
use crate::request::Request;

/// What a destination serves for a request: the value before the access, the way of its fill, the
/// line of the fill with zeros after it (zeros where there is none), the address of the line that the
/// L2 evicted for it, and the copies that it kills.
#[derive(Drop)]
pub struct Served {
    pub request: Request,
    pub old: u64,
    pub way: Option<u8>,
    pub line: [u8; 32],
    pub evicted: Option<u64>,
    pub kills: Kills<64>,
}
