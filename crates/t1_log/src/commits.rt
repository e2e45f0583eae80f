//! The lines of commits.
ghost use Rattle.std.specs.Prelude.{◌≡◌, ◌+◌, ◌*◌, ◌≤◌, ◌<◌, ◌++◌, length};
ghost use Rattle.t1_log.specs.Log.{cache_letter, kill_field_of, kill_fields_of, way_field_of, evicted_field_of, commit_head_of, commit_line_of};

use crate::line::Line;
use t1_event::Commit;
use t1_packet::{Cache, Kill, Kills};

/// The room of a commit's line, in bytes: 67 for its fields at the most, and 15 for each of 64 kills.
pub(crate) const COMMIT_ROOM: usize = 1152;

/// Appends a kill: core, cache, set and way.
#[tactic(auto, unfolding(crate::specs::Log::kill_field_of))]
fn put_kill(line: &mut Line<COMMIT_ROOM>, kill: Kill)
    requires { length line.old + 15 ≤ COMMIT_ROOM }
    ensures value { line.new ≡ line.old ++ kill_field_of kill }
    ensures len { length line.new ≤ length line.old + 15 }
{
    line.byte(b' ');
    line.short(kill.core);
    match kill.cache {
        Cache::Dcache => line.text(".d."),
        Cache::Icache => line.text(".i."),
    }
    line.short(kill.set);
    line.byte(b'.');
    line.short(kill.way);
}

/// Appends kills, in order.
#[tactic(auto, unfolding(crate::specs::Log::kill_fields_of))]
fn put_kills(line: &mut Line<COMMIT_ROOM>, kills: &Kills<64>)
    requires { length line.old + 15 * length kills.now + 1 ≤ COMMIT_ROOM }
    ensures value { line.new ≡ line.old ++ kill_fields_of kills.now }
    ensures len { length line.new ≤ length line.old + 15 * length kills.now }
{
    for kill in kills.as_slice() {
        put_kill(line, *kill);
    }
}

/// Appends the way that was filled, or a dash.
fn put_way(line: &mut Line<COMMIT_ROOM>, way: Option<u8>)
    requires { length line.old + 3 ≤ COMMIT_ROOM }
    ensures value { line.new ≡ line.old ++ way_field_of way }
    ensures len { length line.new ≤ length line.old + 3 }
{
    match way {
        Some(way) => line.short(way),
        None => line.byte(b'-'),
    }
}

/// Appends the address of the line that was evicted, or a dash.
fn put_evicted(line: &mut Line<COMMIT_ROOM>, evicted: Option<u64>)
    requires { length line.old + 10 ≤ COMMIT_ROOM }
    ensures value { line.new ≡ line.old ++ evicted_field_of evicted }
    ensures len { length line.new ≤ length line.old + 10 }
{
    match evicted {
        Some(addr) => line.hex(10, addr),
        None => line.byte(b'-'),
    }
}

/// Appends what a commit is of, at its index: destination, strand and item.
#[tactic(auto, unfolding(crate::specs::Log::commit_head_of))]
fn put_head(line: &mut Line<COMMIT_ROOM>, index: usize, commit: &Commit)
    requires { length line.old + 52 ≤ COMMIT_ROOM }
    ensures value { line.new ≡ line.old ++ commit_head_of index commit.now }
    ensures len { length line.new ≤ length line.old + 52 }
{
    line.text("c ");
    line.decimal(index as u64);
    line.byte(b' ');
    line.short(commit.dest);
    line.byte(b' ');
    line.short(commit.strand);
    line.byte(b' ');
    line.decimal(u64::from(commit.item));
    line.byte(b' ');
}

/// The line of a commit, at its index.
#[tactic(auto, unfolding(crate::specs::Log::commit_line_of))]
pub(crate) fn commit_line(index: usize, commit: &Commit) -> Line<COMMIT_ROOM>
    requires { length commit.now.kills ≤ 64 }
    ensures { result ≡ commit_line_of index commit.now }
{
    let mut line = Line::new();
    put_head(&mut line, index, commit);
    put_way(&mut line, commit.way);
    line.byte(b' ');
    put_evicted(&mut line, commit.evicted);
    put_kills(&mut line, &commit.kills);
    line.byte(b'\n');
    line
}
