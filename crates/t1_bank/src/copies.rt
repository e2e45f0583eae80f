//! The copies of lines that an access kills.
ghost use Rattle.std.specs.Prelude.{◌≡◌, ℕ, ◌+◌, ◌*◌, ◌/◌, ◌%◌, ◌<◌, ◌≤◌, ◌==◌, ◌++◌, ◌∷◌, [], List, Option, None, Some, length, IfSome, ◌^◌, false};
ghost use Rattle.t1_shape.specs.Slots.{slot_of};
ghost use Rattle.t1_packet.specs.Caches.{layout, line_of};
ghost use Rattle.t1_packet.specs.declared.cache.Cache.{Cache};
ghost use Rattle.t1_dir.specs.Directory.{DirectoryState, HasCore, tags_at, without_kills};
ghost use Rattle.t1_bank.specs.Copies.{copy_at, copies_of, doomed_data, doomed_insn, copies_below, HasCores, AreOfCaches};

use t1_dir::Directory;
use t1_packet::{Cache, Kill, Kills, Op};

/// The set of an address's line.
#[inline]
fn set_of(directory: &Directory, cache: Cache, addr: u64) -> u8
    ensures value { result ≡ line_of cache addr % (layout directory.now.shape cache).sets }
    ensures low { result < 128 }
{
    let sets = directory.sets(cache);
    match cache {
        Cache::Dcache => (addr / 16 % sets) as u8,
        Cache::Icache => (addr / 32 % sets) as u8,
    }
}

/// The kill of the copy of an address's line in one cache of one core, where the directory shows it.
fn add_copy(directory: &Directory, core: u8, cache: Cache, addr: u64, kills: &mut Kills<64>)
    requires core { HasCore directory.now core × (core < 8) }
    requires room { length kills.old < 64 }
    ensures value { kills.new ≡ kills.old ++ copy_at directory.now.shape core cache (slot_of (layout directory.now.shape cache) (tags_at directory.now core cache) (line_of cache addr)) }
    ensures len { length kills.new ≤ length kills.old + 1 }
{
    if let Some(way) = directory.way_of(core, cache, addr) {
        kills.push(Kill::new(core, cache, set_of(directory, cache, addr), way));
    }
}

/// The kills of the copies of some lines.
fn add_copies(directory: &Directory, core: u8, cache: Cache, addrs: &[u64], kills: &mut Kills<64>)
    requires core { HasCore directory.now core × (core < 8) }
    requires room { length kills.old + length addrs.now ≤ 64 }
    ensures value { kills.new ≡ kills.old ++ copies_of directory.now core cache addrs.now }
    ensures len { length kills.new ≤ length kills.old + length addrs.now }
{
    for addr in addrs {
        add_copy(directory, core, cache, *addr, kills);
    }
}

/// The kills of an access in one core.
fn add_core(
    directory: &Directory,
    core: u8,
    own: bool,
    evicted: Option<u64>,
    op: Op,
    kills: &mut Kills<64>,
)
    requires core { HasCore directory.now core × (core < 8) }
    requires room { length kills.old + 6 ≤ 64 }
    requires low { IfSome evicted (λ addr. addr < 2 ^ 60) }
    ensures value { kills.new ≡ kills.old ++ copies_of directory.now core Cache.Dcache (doomed_data own evicted op) ++ copies_of directory.now core Cache.Icache (doomed_insn evicted op) }
    ensures len { length kills.new ≤ length kills.old + 6 }
{
    if let Some(e) = evicted {
        add_copies(
            directory,
            core,
            Cache::Dcache,
            &[e, e + 16, e + 32, e + 48],
            kills,
        );
        add_copies(directory, core, Cache::Icache, &[e, e + 32], kills);
        return;
    }
    match op {
        Op::Store { addr: stored, .. } => {
            if !own {
                add_copy(directory, core, Cache::Dcache, stored, kills);
            }
            add_copy(directory, core, Cache::Icache, stored, kills);
        }
        Op::Swap { addr: swapped, .. } => {
            add_copy(directory, core, Cache::Dcache, swapped, kills);
            add_copy(directory, core, Cache::Icache, swapped, kills);
        }
        _ => {}
    }
}

/// Whether an access whose effect is known may have to kill a copy: it evicted a line, or another
/// core's copy may hold what it writes.
#[inline]
fn may_kill(directory: &Directory, own: u8, evicted: Option<u64>, op: Op) -> bool
    requires { own < 8 }
    ensures { (cores : ℕ) → result ≡ false → copies_below directory.now own evicted op cores ≡ [] }
{
    if evicted.is_some() {
        return true;
    }
    match op {
        Op::Store { addr, .. } => {
            if directory.others_may_show(own, Cache::Dcache, addr) {
                return true;
            }
            directory.may_show(Cache::Icache, addr)
        }
        Op::Swap { addr, .. } => {
            if directory.may_show(Cache::Dcache, addr) {
                return true;
            }
            directory.may_show(Cache::Icache, addr)
        }
        Op::Fetch { .. } => false,
        Op::Load { .. } => false,
        Op::Cas { .. } => false,
    }
}

/// Puts the kills of an access whose effect is known into an empty list: by core, data before
/// instruction, sets ascending.
pub fn find_copies(
    directory: &Directory,
    cores: u8,
    own: u8,
    evicted: Option<u64>,
    op: Op,
    kills: &mut Kills<64>,
)
    requires cores { HasCores directory.now cores × (cores ≤ 8) }
    requires low { IfSome evicted (λ addr. addr < 2 ^ 60) }
    requires own { own < 8 }
    requires empty { kills.old ≡ [] }
    ensures { kills.new ≡ copies_below directory.now own evicted op cores }
{
    if !may_kill(directory, own, evicted, op) {
        return;
    }
    for core in 0..cores {
        add_core(directory, core, own == core, evicted, op, kills);
    }
}

/// Takes these copies out of the directory.
#[tactic(auto, unfolding(t1_dir::specs::Directory::without_kills))]
pub fn drop_copies(directory: &mut Directory, cores: u8, kills: &Kills<64>)
    requires cores { HasCores directory.old cores }
    requires kills { AreOfCaches directory.old.shape cores kills.now }
    ensures { directory.new ≡ without_kills directory.old kills.now }
{
    for kill in kills.as_slice() {
        directory.clear(kill.core, kill.cache, kill.set, kill.way);
    }
}
