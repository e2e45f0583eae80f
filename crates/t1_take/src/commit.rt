//! The lines of commits.
ghost use Rattle.std.specs.Prelude.{ℕ, ◌≡◌, ◌^◌, ◌<◌, ◌≤◌, ◌+◌, ◌++◌, ◌∷◌, [], List, codes, length, drop, get_or, slice_get, false, IsTrue, All, IfSome, IfNone, Some, Option};
ghost use Rattle.t1_log.specs.Log.{cache_letter, kill_field_of, kill_fields_of, way_field_of, evicted_field_of, commit_line_of};
ghost use Rattle.t1_take.specs.Taken.{Reads, IsGood, Takes, EndsDigits, Leaves};
ghost use Rattle.t1_take.specs.declared.commit.Named.{Named as NamedData};
ghost use Rattle.t1_event.specs.declared.item.Item.{Item as ItemData};
ghost use Rattle.t1_event.specs.declared.commit.Commit.{Commit as CommitData};
ghost use Rattle.t1_packet.specs.Data.{KillData};
ghost use Rattle.t1_packet.specs.declared.cache.Cache.{Cache as CacheData};
ghost use Rattle.t1_take.specs.Commits.{kill_tail_of, head_of};
ghost use Rattle.t1_take.specs.declared.cursor.Cursor.{Cursor as CursorData};
ghost use Rattle.t1_event.specs.Items.{items_of};
ghost use Rattle.t1_event.specs.Records.{op_of, old_of};
ghost use Rattle.t1_event.specs.declared.item.How.TheVariants as how;
ghost use Rattle.t1_take.specs.WellFormed.{IsGoodKill, IsGoodWay, IsGoodEvicted, IsGoodCommit};

use crate::cursor::Cursor;
use t1_event::{Commit, How, Item, ItemKind, Trace};
use t1_packet::{Cache, Kill, Kills, Op};

/// Takes a way, or a dash where there is none.
fn take_way(cursor: &mut Cursor, text: &[u8]) -> Option<u8>
    ensures good { IsGoodWay result }
    ensures takes { Takes text.now cursor.old cursor.new (way_field_of result) }
    ensures finds { (way : Option ℕ) (rest : List ℕ) → IsGoodWay way → EndsDigits rest → drop cursor.old.at text.now ≡ way_field_of way ++ rest → (result ≡ way) × Leaves text.now cursor.old cursor.new rest }
{
    if cursor.takes(text, b"-") {
        return None;
    }
    let way = cursor.number(text);
    if way < 4 {
        Some(way as u8)
    } else {
        cursor.refuse();
        None
    }
}

/// Takes the address of a line, or a dash where there is none.
fn take_evicted(cursor: &mut Cursor, text: &[u8]) -> Option<u64>
    ensures good { IsGoodEvicted result }
    ensures takes { Takes text.now cursor.old cursor.new (evicted_field_of result) }
    ensures finds { (evicted : Option ℕ) (rest : List ℕ) → IsGoodEvicted evicted → drop cursor.old.at text.now ≡ evicted_field_of evicted ++ rest → (result ≡ evicted) × Leaves text.now cursor.old cursor.new rest }
{
    if cursor.takes(text, b"-") {
        None
    } else {
        Some(cursor.hex(text, 10))
    }
}

/// Takes the letter of a cache.
fn take_cache(cursor: &mut Cursor, text: &[u8]) -> Cache
    ensures takes { Takes text.now cursor.old cursor.new (cache_letter result) }
    ensures finds { (cache : CacheData) (rest : List ℕ) → drop cursor.old.at text.now ≡ cache_letter cache ++ rest → (result ≡ cache) × Leaves text.now cursor.old cursor.new rest }
{
    if cursor.takes(text, b"d") {
        return Cache::Dcache;
    }
    cursor.word(text, b"i");
    Cache::Icache
}

/// Takes a kill behind its space: a copy in a core that there is. Where it is none the line is not good.
#[tactic(auto, unfolding(crate::specs::Commits::kill_tail_of))]
fn take_kill(cursor: &mut Cursor, text: &[u8], cores: u8) -> Option<Kill>
    requires { cores ≤ 8 }
    ensures good { IfSome result (IsGoodKill cores) }
    ensures takes { IfSome result (λ kill. Takes text.now cursor.old cursor.new (kill_tail_of kill)) }
    ensures none { IfNone result (IsGood cursor.new → ⊥) }
    ensures finds { (kill : KillData) (rest : List ℕ) → IsGoodKill cores kill → EndsDigits rest → drop cursor.old.at text.now ≡ kill_tail_of kill ++ rest → (result ≡ Some kill) × Leaves text.now cursor.old cursor.new rest }
{
    let core = cursor.number(text);
    cursor.word(text, b".");
    let cache = take_cache(cursor, text);
    cursor.word(text, b".");
    let set = cursor.number(text);
    cursor.word(text, b".");
    let way = cursor.number(text);
    if core >= u32::from(cores) || set >= 128 || way >= 4 {
        cursor.refuse();
        return None;
    }
    Some(Kill::new(core as u8, cache, set as u8, way as u8))
}

/// Takes a kill with its space, if a space stands next, and appends it.
fn take_next_kill(cursor: &mut Cursor, text: &[u8], cores: u8, kills: &mut Kills<64>) -> bool
    requires cores { cores ≤ 8 }
    requires room { length kills.old < 64 }
    requires good { All (IsGoodKill cores) kills.old }
    ensures good { All (IsGoodKill cores) kills.new }
    ensures few { length kills.new ≤ length kills.old + 1 }
    ensures takes { (start : CursorData) → Takes text.now start cursor.old (kill_fields_of kills.old) → Takes text.now start cursor.new (kill_fields_of kills.new) }
    ensures finds { (kill : KillData) (rest : List ℕ) → IsGoodKill cores kill → EndsDigits rest → drop cursor.old.at text.now ≡ kill_field_of kill ++ rest → IsTrue result × (kills.new ≡ kills.old ++ kill ∷ []) × Leaves text.now cursor.old cursor.new rest }
    ensures stops { (rest : List ℕ) → drop cursor.old.at text.now ≡ codes "\n" ++ rest → (result ≡ false) × (kills.new ≡ kills.old) × (cursor.new ≡ cursor.old) }
{
    if !cursor.takes(text, b" ") {
        return false;
    }
    match take_kill(cursor, text, cores) {
        Some(kill) => {
            kills.push(kill);
            true
        }
        None => true,
    }
}

/// Takes the kills of a line, at most 64.
fn take_kills(cursor: &mut Cursor, text: &[u8], cores: u8) -> Kills<64>
    requires { cores ≤ 8 }
    ensures good { All (IsGoodKill cores) result }
    ensures few { length result ≤ 64 }
    ensures takes { Takes text.now cursor.old cursor.new (kill_fields_of result) }
    ensures finds { (kills : List KillData) (rest : List ℕ) → All (IsGoodKill cores) kills → length kills ≤ 64 → drop cursor.old.at text.now ≡ kill_fields_of kills ++ (codes "\n" ++ rest) → (result ≡ kills) × Leaves text.now cursor.old cursor.new (codes "\n" ++ rest) }
{
    let mut kills = Kills::new();
    for count in 0..64usize {
        if !take_next_kill(cursor, text, cores, &mut kills) {
            return kills;
        }
    }
    kills
}

/// The op of an item in its plain form, with the way that was filled.
fn op_of(item: &Item, way: Option<u8>) -> Op
    ensures { result ≡ op_of item.now way item.now.kind }
{
    let filled = match way {
        Some(way) => way,
        None => 0,
    };
    let addr = item.addr;
    let size = item.size;
    match item.kind {
        ItemKind::Fetch => Op::Fetch { addr, way: filled },
        ItemKind::Load => Op::Load {
            addr,
            size,
            way: filled,
        },
        ItemKind::Store => Op::Store {
            addr,
            size,
            value: item.put,
        },
        ItemKind::Atomic { wrote: true } => Op::Swap {
            addr,
            size,
            new: item.put,
        },
        ItemKind::Atomic { wrote: false } => Op::Cas {
            addr,
            size,
            expect: 0,
            new: 0,
        },
        ItemKind::Membar | ItemKind::Flush => Op::Cas {
            addr: 0,
            size: 0,
            expect: 0,
            new: 0,
        },
    }
}

/// The value before an access, 0 of a store.
fn old_of(item: &Item) -> u64
    ensures { result ≡ old_of item.now item.now.kind }
{
    match item.kind {
        ItemKind::Fetch | ItemKind::Load | ItemKind::Atomic { .. } => item.got,
        ItemKind::Store | ItemKind::Membar | ItemKind::Flush => 0,
    }
}

/// The access of a strand that was committed with this index, and its core's time when it was sent.
fn committed(traces: &[Trace], strand: u8, number: u32, index: usize) -> Option<(Item, u32)>
    ensures some { IfSome result (λ found. (slice_get (get_or (items_of traces.now) strand []) number ≡ Some found.0) × (found.0.how ≡ how.Commit index found.1)) }
    ensures finds { (item : ItemData) (seen : ℕ) → slice_get (get_or (items_of traces.now) strand []) number ≡ Some item → item.how ≡ how.Commit index seen → result ≡ Some (item, seen) }
{
    let item = item_at(traces, strand, number)?;
    let How::Commit { index: own, seen } = item.how else {
        return None;
    };
    if u64::from(own) == index as u64 {
        Some((item, seen))
    } else {
        None
    }
}

/// The items of a strand, none where there is no such strand.
fn items_at(traces: &[Trace], strand: usize) -> &[Item]
    ensures { result.now ≡ get_or (items_of traces.now) strand [] }
{
    if strand < traces.len() {
        traces[strand].items.as_slice()
    } else {
        &[]
    }
}

fn item_at(traces: &[Trace], strand: u8, number: u32) -> Option<Item>
    ensures { result ≡ slice_get (get_or (items_of traces.now) strand []) number }
{
    items_at(traces, strand as usize)
        .get(number as usize)
        .copied()
}

/// What the line of a commit names: its destination, its strand, the number of its item.
#[derive(Clone, Copy)]
struct Named {
    dest: u8,
    strand: u8,
    number: u32,
}

/// Takes the front of the line of the commit of this index.
#[tactic(auto, unfolding(crate::specs::Commits::head_of))]
fn take_named(cursor: &mut Cursor, text: &[u8], index: usize) -> Named
    ensures dest { result.dest ≤ 4 }
    ensures takes { Takes text.now cursor.old cursor.new (head_of index result) }
    ensures finds { (named : NamedData) (rest : List ℕ) → named.dest ≤ 4 → named.strand ≤ 255 → named.number < 2 ^ 32 → drop cursor.old.at text.now ≡ head_of index named ++ rest → (result ≡ named) × Leaves text.now cursor.old cursor.new rest }
{
    cursor.word(text, b"c ");
    cursor.exactly(text, index as u64);
    cursor.word(text, b" ");
    let dest = cursor.number(text);
    cursor.word(text, b" ");
    let strand = cursor.number(text);
    cursor.word(text, b" ");
    let number = cursor.number(text);
    cursor.word(text, b" ");
    if dest > 4 || strand > 255 {
        cursor.refuse();
        return Named {
            dest: 0,
            strand: 0,
            number: 0,
        };
    }
    Named {
        dest: dest as u8,
        strand: strand as u8,
        number,
    }
}

/// Takes the line of the commit of this index, with its line feed. It names an access of a strand of these
/// traces that is placed at this index, and kills copies in so many cores, at most 8. What the line does not
/// print is filled from the access: the op, the time at which it was sent, and the value before it. `None`
/// where no such line stands at the cursor, or a value is out of its range.
pub fn take_commit(
    cursor: &mut Cursor,
    text: &[u8],
    index: usize,
    cores: u8,
    traces: &[Trace],
) -> Option<Commit>
    requires { cores ≤ 8 }
    ensures good { IfSome result (IsGoodCommit cores (items_of traces.now) index) }
    ensures reads { IfSome result (λ commit. Reads text.now cursor.old.at cursor.new.at (commit_line_of index commit)) }
    ensures finds { (commit : CommitData) (rest : List ℕ) → IsGoodCommit cores (items_of traces.now) index commit → commit.strand ≤ 255 → commit.item < 2 ^ 32 → IsGood cursor.old → drop cursor.old.at text.now ≡ commit_line_of index commit ++ rest → (result ≡ Some commit) × Leaves text.now cursor.old cursor.new rest }
{
    let named = take_named(cursor, text, index);
    let way = take_way(cursor, text);
    cursor.word(text, b" ");
    let evicted = take_evicted(cursor, text);
    let kills = take_kills(cursor, text, cores);
    cursor.word(text, b"\n");
    if !cursor.is_good() {
        return None;
    }
    match committed(traces, named.strand, named.number, index) {
        Some((item, seen)) => Some(Commit {
            dest: named.dest,
            strand: named.strand,
            item: named.number,
            op: op_of(&item, way),
            seen,
            old: old_of(&item),
            way,
            evicted,
            kills,
        }),
        None => {
            cursor.refuse();
            None
        }
    }
}
