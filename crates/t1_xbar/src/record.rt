//! The record of an access.
ghost use Rattle.std.specs.Prelude.{◌≡◌, ◌<◌, ◌≤◌};
ghost use Rattle.t1_event.specs.Log.{commit_of, plain_op, kept_old, way_or_zero};

use t1_event::Commit;
use t1_packet::{Op, Served};

fn way_or_zero(way: Option<u8>) -> u8
    ensures { result ≡ way_or_zero way }
{
    match way {
        Some(way) => way,
        None => 0,
    }
}

/// The plain form of an op: the way that was filled, and a compare as what it did.
fn plain_op(op: Op, old: u64, way: Option<u8>) -> Op
    ensures { result ≡ plain_op op old way }
{
    match op {
        Op::Fetch { addr, .. } => Op::Fetch {
            addr,
            way: way_or_zero(way),
        },
        Op::Load { addr, size, .. } => Op::Load {
            addr,
            size,
            way: way_or_zero(way),
        },
        Op::Cas {
            addr,
            size,
            expect,
            new,
        } => {
            if old == expect {
                return Op::Swap { addr, size, new };
            }
            Op::Cas {
                addr,
                size,
                expect: 0,
                new: 0,
            }
        }
        Op::Store { .. } | Op::Swap { .. } => op,
    }
}

fn kept_old(op: Op, old: u64) -> u64
    ensures { result ≡ kept_old op old }
{
    match op {
        Op::Store { .. } => 0,
        _ => old,
    }
}

/// The record of an access that a destination served, on cores of so many strands.
pub(crate) fn commit_of(strands: u8, dest: u8, served: &Served) -> Commit
    requires { strands ≤ 8 }
    ensures { result ≡ commit_of strands dest served.now }
{
    let request = served.request;
    Commit {
        dest,
        strand: request.core * strands + request.strand,
        item: request.item,
        op: plain_op(request.op, served.old, served.way),
        seen: request.seen,
        old: kept_old(request.op, served.old),
        way: served.way,
        evicted: served.evicted,
        kills: served.kills.copied(),
    }
}
