//! The I/O bridge, the destination of accesses to I/O space.
//!
//! Its loads give 0, and its stores do nothing but one: a store of one byte to 80_0000_0000 hex puts
//! that byte on the console, in the order of the log.
#![tactic(auto)]

ghost use Rattle.std.specs.Prelude.{◌≡◌};
ghost use Rattle.t1_event.specs.BankRule.{refused};
ghost use Rattle.t1_iob.specs.Console.{console_byte_of};

use t1_event::Commit;
use t1_packet::{Kills, Op, Request, Served};

/// The address of the console, the first of I/O space.
const CONSOLE: u64 = 0x80_0000_0000;

/// Serves any request: old 0, no way, no eviction, no kill.
pub fn serve_io(request: Request) -> Served
    ensures { result ≡ refused request }
{
    Served {
        request,
        old: 0,
        way: None,
        line: [0; 32],
        evicted: None,
        kills: Kills::new(),
    }
}

/// The byte that a commit puts on the console: some exactly where its op stores one byte to the
/// console's address.
pub fn console_byte(commit: &Commit) -> Option<u8>
    ensures { result ≡ console_byte_of commit.now.op }
{
    match commit.op {
        Op::Store { addr, size, value } => {
            if addr == CONSOLE && size == 1 {
                Some((value % 256) as u8)
            } else {
                None
            }
        }
        _ => None,
    }
}
