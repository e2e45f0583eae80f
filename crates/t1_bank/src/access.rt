//! What a request asks of a bank.
ghost use Rattle.std.specs.Prelude.{◌≡◌, ℕ, ◌+◌, ◌*◌, ◌/◌, ◌%◌, ◌<◌, ◌≤◌, Option, None, Some, IfSome, true};
ghost use Rattle.t1_num.specs.Memory.{IsSize};
ghost use Rattle.t1_shape.specs.Shapes.{Shape};
ghost use Rattle.t1_shape.specs.Numbers.{banks, l2_line};
ghost use Rattle.t1_packet.specs.Ops.{op_addr, op_size, asked_way};
ghost use Rattle.t1_dir.specs.Directory.{DirectoryState, HasCore, tags_at, filled_by};
ghost use Rattle.t1_l2.specs.Array.{ArrayState, IsPresent};
ghost use Rattle.t1_event.specs.Kills.{effect, fill_way};
ghost use Rattle.t1_event.specs.BankRule.{is_size, ways_for, is_own_access, fill_bytes};
ghost use Rattle.t1_bank.specs.Writes.{wrote};

use t1_dir::Directory;
use t1_l2::BankArray;
use t1_packet::{Cache, Op};

#[inline]
pub fn addr_of(op: Op) -> u64
    ensures { result ≡ op_addr op }
{
    match op {
        Op::Fetch { addr, .. } => addr,
        Op::Load { addr, .. } => addr,
        Op::Store { addr, .. } => addr,
        Op::Swap { addr, .. } => addr,
        Op::Cas { addr, .. } => addr,
    }
}

#[inline]
pub fn size_of(op: Op) -> u8
    ensures { result ≡ op_size op }
{
    match op {
        Op::Fetch { .. } => 4,
        Op::Load { size, .. } => size,
        Op::Store { size, .. } => size,
        Op::Swap { size, .. } => size,
        Op::Cas { size, .. } => size,
    }
}

#[inline]
pub fn way_of(op: Op) -> u8
    ensures { result ≡ asked_way op }
{
    match op {
        Op::Fetch { way, .. } => way,
        Op::Load { way, .. } => way,
        _ => 0,
    }
}

/// The ways of the cache that an access fills.
#[inline]
pub fn ways_of_fill(directory: &Directory, op: Op) -> u8
    ensures { result ≡ ways_for directory.now.shape op }
{
    match op {
        Op::Fetch { .. } => directory.ways(Cache::Icache),
        Op::Load { .. } => directory.ways(Cache::Dcache),
        _ => 1,
    }
}

#[inline]
fn is_a_size(size: u8) -> bool
    ensures { result ≡ is_size size }
{
    size == 1 || size == 2 || size == 4 || size == 8
}

/// Whether an access of this size at this address is an aligned one of this bank's RAM.
#[inline]
#[tactic(auto, unfolding(t1_event::specs::BankRule::is_own_access))]
pub fn is_bank_access(ram: u64, number: u64, bank: u8, addr: u64, size: u8) -> bool
    requires { 0 < number }
    ensures { (shape : Shape) → number ≡ banks shape → result ≡ is_own_access shape ram bank addr size }
{
    addr < ram && addr / 64 % number == bank as u64 && is_a_size(size) && addr % size as u64 == 0
}

/// What an access does once its old value is known: a compare that holds is a swap.
#[inline]
pub fn effect_of(op: Op, old: u64) -> Op
    ensures { result ≡ effect op old }
{
    match op {
        Op::Cas {
            addr,
            size,
            expect,
            new,
        } => {
            if old == expect {
                Op::Swap { addr, size, new }
            } else {
                Op::Cas {
                    addr,
                    size,
                    expect: 0,
                    new: 0,
                }
            }
        }
        _ => op,
    }
}

/// The way of a fill: the one where the directory shows the line, else the request's.
pub fn way_of_fill(directory: &Directory, core: u8, op: Op) -> Option<u8>
    requires { HasCore directory.now core }
    ensures { result ≡ fill_way directory.now.shape (tags_at directory.now) core op }
{
    match op {
        Op::Fetch { addr, way } => Some(directory.way_of(core, Cache::Icache, addr).unwrap_or(way)),
        Op::Load { addr, way, .. } => Some(
            directory.way_of(core, Cache::Dcache, addr).unwrap_or(way),
        ),
        _ => None,
    }
}

/// The directory shows the line of a fill at its way.
pub fn fill(directory: &mut Directory, core: u8, op: Op, way: Option<u8>)
    requires core { HasCore directory.old core }
    requires way { IfSome way (λ w. w < ways_for directory.old.shape op) }
    ensures { directory.new ≡ filled_by directory.old core op way }
{
    if let Some(way) = way {
        match op {
            Op::Fetch { addr, .. } => directory.set(core, Cache::Icache, addr, way),
            Op::Load { addr, .. } => directory.set(core, Cache::Dcache, addr, way),
            _ => {}
        }
    }
}

/// The bytes of a fill, with zeros after them.
pub fn line_of_fill(array: &BankArray, op: Op) -> [u8; 32]
    requires { IsPresent array.now.tags (l2_line (op_addr op)) }
    ensures { result ≡ fill_bytes array.now op }
{
    match op {
        Op::Fetch { addr, .. } => array.line(addr / 32 * 32, 32),
        Op::Load { addr, .. } => array.line(addr / 16 * 16, 16),
        _ => [0; 32],
    }
}

/// What an access leaves in memory.
pub fn write(array: &mut BankArray, op: Op)
    requires present { IsPresent array.old.tags (l2_line (op_addr op)) }
    requires size { IsSize (op_size op) }
    requires aligned { op_addr op % op_size op ≡ 0 }
    ensures { array.new ≡ wrote array.old op }
{
    match op {
        Op::Store { addr, size, value } => array.put(addr, size, value),
        Op::Swap { addr, size, new } => array.put(addr, size, new),
        _ => {}
    }
}
