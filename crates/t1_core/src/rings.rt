//! Requests and the rings that they go to.
ghost use Rattle.std.specs.Prelude.{◌≡◌, ◌<◌, true};
ghost use Rattle.t1_packet.specs.Ops.{op_addr, op_size, op_dest, is_store};
ghost use Rattle.t1_core.specs.Steps.{has_room, request_of};

use crate::asker::Asker;
use t1_event::dest_of;
use t1_num::ChipKind;
use t1_packet::{Op, Request};

/// The address of an op.
pub fn op_addr(op: Op) -> u64
    ensures { result ≡ op_addr op }
{
    match op {
        Op::Fetch { addr, .. } => addr,
        Op::Load { addr, .. } => addr,
        Op::Store { addr, .. } => addr,
        Op::Swap { addr, .. } => addr,
        Op::Cas { addr, .. } => addr,
    }
}

/// The bytes of an op.
pub fn op_size(op: Op) -> u8
    ensures { result ≡ op_size op }
{
    match op {
        Op::Fetch { .. } => 4,
        Op::Load { size, .. } => size,
        Op::Store { size, .. } => size,
        Op::Swap { size, .. } => size,
        Op::Cas { size, .. } => size,
    }
}

pub fn is_store(op: Op) -> bool
    ensures { result ≡ is_store op }
{
    match op {
        Op::Store { .. } => true,
        _ => false,
    }
}

/// The destination of an op.
pub fn op_dest(chip: ChipKind, op: Op) -> u8
    ensures value { result ≡ op_dest chip op }
    ensures few { result < 9 }
{
    dest_of(chip, op_addr(op))
}

/// Whether the ring to a destination has room.
pub fn has_room(room: u16, dest: u8) -> bool
    requires { dest < 9 }
    ensures { result ≡ has_room room dest }
{
    (room >> dest) % 2 == 1
}

pub fn request_of(asker: Asker, item: u32, op: Op) -> Request
    requires core { asker.number < 8 }
    requires strand { asker.strand < 8 }
    ensures { result ≡ request_of asker item op }
{
    Request {
        core: asker.number,
        strand: asker.strand,
        item,
        seen: asker.time,
        op,
    }
}
