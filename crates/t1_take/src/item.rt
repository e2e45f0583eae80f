//! The lines of items.
ghost use Rattle.std.specs.Prelude.{ℕ, ◌≡◌, ◌*◌, ◌^◌, ◌<◌, ◌≤◌, ◌++◌, codes, decimal, drop, not, Bool, true, false, IsTrue, IfSome, List, MatchBool, Some, Option};
ghost use Rattle.t1_event.specs.Kinds.{is_access, is_read, is_changing};
ghost use Rattle.t1_event.specs.Items.{IsIo};
ghost use Rattle.t1_event.specs.Printable.{FitsDigits};
ghost use Rattle.t1_event.specs.declared.item.How.TheVariants.{Unplaced};
ghost use Rattle.t1_take.specs.Items.{IsSizeOf, IsReached, IsPlaceOf, IsGoodItem, IsGoodEnd};
ghost use Rattle.t1_log.specs.Hex.{hex_of};
ghost use Rattle.t1_log.specs.Lines.{ending_fields_of, ending_line_of};
ghost use Rattle.t1_log.specs.Log.{place_fields_of, item_line_of};
ghost use Rattle.t1_event.specs.declared.item.ItemKind.TheVariants.{Atomic, Membar, Flush};
ghost use Rattle.t1_take.specs.Items.{IsValueOf};
ghost use Rattle.t1_take.specs.Taken.{Reads, IsGood, Takes, EndsDigits, Leaves};
ghost use Rattle.t1_take.specs.declared.item.Fields.{Fields as FieldsData};
ghost use Rattle.t1_event.specs.declared.item.Item.{Item as ItemData};
ghost use Rattle.t1_event.specs.declared.item.How.{How as HowData};
ghost use Rattle.t1_event.specs.declared.item.How.TheVariants.{Commit as CommitHow};
ghost use Rattle.t1_event.specs.declared.trace.Ending.{Ending as EndingData};
ghost use Rattle.t1_take.specs.Fields.{AreFields, span_of, field_of, fields_of, item_from, access_line_of, kind_line_of};

use crate::cursor::Cursor;
use t1_event::{Ending, How, Item, ItemKind};

/// The fields of an access, before they are judged.
#[derive(Clone, Copy)]
struct Fields {
    addr: u64,
    size: u32,
    got: u64,
    put: u64,
    how: How,
}

/// Takes a value of so many bytes, at least one.
fn take_value(cursor: &mut Cursor, text: &[u8], size: u32) -> u64
    ensures fits { size ≤ 8 → FitsDigits (2 * size) result }
    ensures takes { size ≤ 8 → Takes text.now cursor.old cursor.new (hex_of (2 * size) result) }
    ensures finds { (value : ℕ) (rest : List ℕ) → 1 ≤ size → size ≤ 8 → FitsDigits (2 * size) value → drop cursor.old.at text.now ≡ hex_of (2 * size) value ++ rest → (result ≡ value) × Leaves text.now cursor.old cursor.new rest }
{
    if size == 0 {
        cursor.refuse();
        return 0;
    }
    cursor.hex(text, 2 * size as usize)
}

/// Takes where an access stands.
#[tactic(auto, unfolding(t1_log::specs::Log::place_fields_of))]
fn take_how(cursor: &mut Cursor, text: &[u8]) -> How
    ensures place { IsPlaceOf true result }
    ensures takes { Takes text.now cursor.old cursor.new (place_fields_of result) }
    ensures finds { (place : HowData) (rest : List ℕ) → IsPlaceOf true place → EndsDigits rest → drop cursor.old.at text.now ≡ place_fields_of place ++ rest → (result ≡ place) × Leaves text.now cursor.old cursor.new rest }
{
    if cursor.takes(text, b" F ") {
        return How::Forward {
            time: cursor.number(text),
        };
    }
    if cursor.takes(text, b" H ") {
        return How::Hit {
            time: cursor.number(text),
        };
    }
    take_commit_place(cursor, text)
}

/// Takes the index of a commit, and the time at which it was sent.
#[tactic(auto, unfolding(t1_log::specs::Log::place_fields_of))]
fn take_commit_place(cursor: &mut Cursor, text: &[u8]) -> How
    ensures place { IsPlaceOf true result }
    ensures takes { Takes text.now cursor.old cursor.new (place_fields_of result) }
    ensures finds { (index seen : ℕ) (rest : List ℕ) → index < 2 ^ 32 → seen < 2 ^ 32 → EndsDigits rest → drop cursor.old.at text.now ≡ place_fields_of (CommitHow index seen) ++ rest → (result ≡ CommitHow index seen) × Leaves text.now cursor.old cursor.new rest }
{
    cursor.word(text, b" M ");
    let index = cursor.number(text);
    cursor.word(text, b" ");
    let seen = cursor.number(text);
    How::Commit { index, seen }
}

/// Takes the address and the size of an access.
fn take_span(cursor: &mut Cursor, text: &[u8]) -> (u64, u32)
    ensures fits { FitsDigits 10 result.0 }
    ensures takes { Takes text.now cursor.old cursor.new (span_of result.0 result.1) }
    ensures finds { (addr size : ℕ) (rest : List ℕ) → FitsDigits 10 addr → size < 2 ^ 32 → drop cursor.old.at text.now ≡ span_of addr size ++ rest → (result.0 ≡ addr) × (result.1 ≡ size) × Leaves text.now cursor.old cursor.new rest }
{
    let addr = cursor.hex(text, 10);
    cursor.word(text, b" ");
    let size = cursor.number(text);
    cursor.word(text, b" ");
    (addr, size)
}

/// Takes a value where the kind has one, and else a dash.
fn take_field(cursor: &mut Cursor, text: &[u8], has: bool, size: u32) -> u64
    ensures value { size ≤ 8 → IsValueOf has size result }
    ensures takes { size ≤ 8 → Takes text.now cursor.old cursor.new (field_of has size result) }
    ensures finds { (value : ℕ) (rest : List ℕ) → 1 ≤ size → size ≤ 8 → IsValueOf has size value → drop cursor.old.at text.now ≡ field_of has size value ++ rest → (result ≡ value) × Leaves text.now cursor.old cursor.new rest }
{
    if has {
        take_value(cursor, text, size)
    } else {
        cursor.word(text, b"-");
        0
    }
}

/// Takes the fields of an access that reads, or not, and that writes, or not.
fn take_fields(cursor: &mut Cursor, text: &[u8], reads: bool, writes: bool) -> Fields
    ensures fields { AreFields reads writes result }
    ensures takes { result.size ≤ 8 → Takes text.now cursor.old cursor.new (fields_of reads writes result) }
    ensures finds { (fields : FieldsData) (rest : List ℕ) → AreFields reads writes fields → 1 ≤ fields.size → fields.size ≤ 8 → EndsDigits rest → drop cursor.old.at text.now ≡ fields_of reads writes fields ++ rest → (result ≡ fields) × Leaves text.now cursor.old cursor.new rest }
{
    let (addr, size) = take_span(cursor, text);
    let got = take_field(cursor, text, reads, size);
    cursor.word(text, b" ");
    let put = take_field(cursor, text, writes, size);
    let how = take_how(cursor, text);
    Fields {
        addr,
        size,
        got,
        put,
        how,
    }
}

/// Takes the fields of an atomic, and whether it wrote.
fn take_both(cursor: &mut Cursor, text: &[u8]) -> (bool, Fields)
    ensures fields { AreFields true result.0 result.1 }
    ensures takes { result.1.size ≤ 8 → Takes text.now cursor.old cursor.new (fields_of true result.0 result.1) }
    ensures finds { (wrote : Bool) (fields : FieldsData) (rest : List ℕ) → AreFields true wrote fields → 1 ≤ fields.size → fields.size ≤ 8 → EndsDigits rest → drop cursor.old.at text.now ≡ fields_of true wrote fields ++ rest → (result.0 ≡ wrote) × (result.1 ≡ fields) × Leaves text.now cursor.old cursor.new rest }
{
    let (addr, size) = take_span(cursor, text);
    let got = take_field(cursor, text, true, size);
    cursor.word(text, b" ");
    let wrote = cursor.peek(text) != b'-';
    let put = take_field(cursor, text, wrote, size);
    let how = take_how(cursor, text);
    (
        wrote,
        Fields {
            addr,
            size,
            got,
            put,
            how,
        },
    )
}

/// Whether an address is one of I/O.
fn is_io(addr: u64) -> bool
    ensures { MatchBool result (IsIo addr) (IsIo addr → ⊥) }
{
    1 << 39 <= addr && addr < 1 << 40
}

/// Whether an access of this kind can have this size.
fn is_size_of(kind: ItemKind, size: u32) -> bool
    requires { IsTrue (is_access kind) }
    ensures is { IsTrue result → IsSizeOf kind size }
    ensures finds { IsSizeOf kind size → IsTrue result }
{
    match kind {
        ItemKind::Fetch => size == 4,
        _ => size == 1 || size == 2 || size == 4 || size == 8,
    }
}

/// Whether an access of this kind can have this address.
fn is_reached(kind: ItemKind, addr: u64, ram: u64) -> bool
    requires { IsTrue (is_access kind) }
    ensures is { IsTrue result → IsReached ram kind addr }
    ensures finds { IsReached ram kind addr → IsTrue result }
{
    match kind {
        ItemKind::Load | ItemKind::Store => addr < ram || is_io(addr),
        _ => addr < ram,
    }
}

/// The access of these fields, where its size, its address and its place in memory are in their
/// ranges.
fn access_of(cursor: &mut Cursor, kind: ItemKind, fields: Fields, ram: u64) -> Option<Item>
    requires access { IsTrue (is_access kind) }
    requires fields { AreFields (is_read kind) (is_changing kind) fields }
    ensures good { IfSome result (IsGoodItem ram) }
    ensures value { IfSome result (λ item. (item ≡ item_from kind fields) × (item.size ≤ 8)) }
    ensures cursor { IfSome result (λ _. (cursor.new ≡ cursor.old) × IsGood cursor.new) }
    ensures finds { IsGoodItem ram (item_from kind fields) → IsGood cursor.old → (result ≡ Some (item_from kind fields)) × (cursor.new ≡ cursor.old) }
{
    if !is_size_of(kind, fields.size)
        || fields.size > 8
        || fields.addr % u64::from(fields.size.max(1)) != 0
    {
        cursor.refuse();
        return None;
    }
    if !is_reached(kind, fields.addr, ram) {
        cursor.refuse();
        return None;
    }
    if !cursor.is_good() {
        return None;
    }
    Some(Item {
        kind,
        addr: fields.addr,
        size: fields.size as u8,
        got: fields.got,
        put: fields.put,
        how: fields.how,
    })
}

/// Takes the fields of an access of this kind, up to its line feed.
fn take_access(
    cursor: &mut Cursor,
    text: &[u8],
    kind: ItemKind,
    reads: bool,
    ram: u64,
) -> Option<Item>
    requires access { IsTrue (is_access kind) }
    requires reads { reads ≡ is_read kind }
    requires writes { not reads ≡ is_changing kind }
    ensures good { IfSome result (IsGoodItem ram) }
    ensures reads { IfSome result (λ item. (item.kind ≡ kind) × IsGood cursor.new × Takes text.now cursor.old cursor.new (access_line_of item)) }
    ensures finds { (item : ItemData) (rest : List ℕ) → ram ≤ 2 ^ 40 → IsGoodItem ram item → item.kind ≡ kind → IsGood cursor.old → drop cursor.old.at text.now ≡ access_line_of item ++ rest → (result ≡ Some item) × Leaves text.now cursor.old cursor.new rest }
{
    let fields = take_fields(cursor, text, reads, !reads);
    cursor.word(text, b"\n");
    access_of(cursor, kind, fields, ram)
}

/// Takes the fields of an atomic, up to its line feed.
fn take_atomic(cursor: &mut Cursor, text: &[u8], ram: u64) -> Option<Item>
    ensures good { IfSome result (IsGoodItem ram) }
    ensures reads { IfSome result (λ item. (item.kind ≡ Atomic (is_changing item.kind)) × IsGood cursor.new × Takes text.now cursor.old cursor.new (access_line_of item)) }
    ensures finds { (item : ItemData) (wrote : Bool) (rest : List ℕ) → ram ≤ 2 ^ 40 → IsGoodItem ram item → item.kind ≡ Atomic wrote → IsGood cursor.old → drop cursor.old.at text.now ≡ access_line_of item ++ rest → (result ≡ Some item) × Leaves text.now cursor.old cursor.new rest }
{
    let (wrote, fields) = take_both(cursor, text);
    cursor.word(text, b"\n");
    access_of(cursor, ItemKind::Atomic { wrote }, fields, ram)
}

/// An item that is no access.
fn barrier(kind: ItemKind, mask: u8) -> Item
    ensures { result ≡ record { kind = kind; addr = 0; size = mask; got = 0; put = 0; how = Unplaced } }
{
    Item {
        kind,
        addr: 0,
        size: mask,
        got: 0,
        put: 0,
        how: How::Unplaced,
    }
}

/// Takes the mask of a membar, up to its line feed.
#[tactic(auto, unfolding(t1_log::specs::Lines::fields_of_kind))]
fn take_membar(cursor: &mut Cursor, text: &[u8]) -> Option<Item>
    ensures good { (ram : ℕ) → IfSome result (IsGoodItem ram) }
    ensures reads { IfSome result (λ item. ((item.kind ≡ Membar) × (item.how ≡ Unplaced)) × IsGood cursor.new × Takes text.now cursor.old cursor.new (hex_of 2 item.size ++ codes "\n")) }
    ensures finds { (ram : ℕ) (item : ItemData) (rest : List ℕ) → IsGoodItem ram item → item.kind ≡ Membar → IsGood cursor.old → drop cursor.old.at text.now ≡ (hex_of 2 item.size ++ codes "\n") ++ rest → (result ≡ Some item) × Leaves text.now cursor.old cursor.new rest }
{
    let mask = cursor.hex(text, 2);
    cursor.word(text, b"\n");
    if mask > 0x7f {
        cursor.refuse();
        return None;
    }
    if cursor.is_good() {
        Some(barrier(ItemKind::Membar, mask as u8))
    } else {
        None
    }
}

/// Takes a flush, up to its line feed.
fn take_flush(cursor: &mut Cursor, text: &[u8]) -> Option<Item>
    ensures good { (ram : ℕ) → IfSome result (IsGoodItem ram) }
    ensures reads { IfSome result (λ item. ((item.kind ≡ Flush) × (item.how ≡ Unplaced)) × IsGood cursor.new × Takes text.now cursor.old cursor.new (codes "flush\n")) }
    ensures finds { (ram : ℕ) (item : ItemData) (rest : List ℕ) → IsGoodItem ram item → item.kind ≡ Flush → IsGood cursor.old → drop cursor.old.at text.now ≡ codes "flush\n" ++ rest → (result ≡ Some item) × Leaves text.now cursor.old cursor.new rest }
{
    cursor.word(text, b"flush\n");
    if cursor.is_good() {
        Some(barrier(ItemKind::Flush, 0))
    } else {
        None
    }
}

/// Takes the kind of an item and the fields of that kind, up to its line feed.
fn take_kind(cursor: &mut Cursor, text: &[u8], ram: u64) -> Option<Item>
    ensures good { IfSome result (IsGoodItem ram) }
    ensures reads { IfSome result (λ item. IsGood cursor.new × Takes text.now cursor.old cursor.new (kind_line_of item)) }
    ensures finds { (item : ItemData) (rest : List ℕ) → ram ≤ 2 ^ 40 → IsGoodItem ram item → IsGood cursor.old → drop cursor.old.at text.now ≡ kind_line_of item ++ rest → (result ≡ Some item) × Leaves text.now cursor.old cursor.new rest }
{
    if cursor.takes(text, b"fetch ") {
        return take_access(cursor, text, ItemKind::Fetch, true, ram);
    }
    if cursor.takes(text, b"load ") {
        return take_access(cursor, text, ItemKind::Load, true, ram);
    }
    if cursor.takes(text, b"store ") {
        return take_access(cursor, text, ItemKind::Store, false, ram);
    }
    if cursor.takes(text, b"atomic ") {
        return take_atomic(cursor, text, ram);
    }
    if cursor.takes(text, b"membar ") {
        return take_membar(cursor, text);
    }
    take_flush(cursor, text)
}

/// Takes the line of the item of this number of this strand, with its line feed: of an access its address and
/// its size in bytes, the values that it got and put, and where it stands, in a machine of so many bytes of
/// RAM; of a membar its mask. `None` where no such line stands at the cursor, or a value is out of its range.
pub fn take_item(
    cursor: &mut Cursor,
    text: &[u8],
    strand: u64,
    number: u64,
    ram: u64,
) -> Option<Item>
    ensures good { IfSome result (IsGoodItem ram) }
    ensures reads { IfSome result (λ item. Reads text.now cursor.old.at cursor.new.at (item_line_of strand number item)) }
    ensures finds { (item : ItemData) (rest : List ℕ) → ram ≤ 2 ^ 40 → IsGoodItem ram item → IsGood cursor.old → drop cursor.old.at text.now ≡ item_line_of strand number item ++ rest → (result ≡ Some item) × Leaves text.now cursor.old cursor.new rest }
{
    cursor.word(text, b"i ");
    cursor.exactly(text, strand);
    cursor.word(text, b" ");
    cursor.exactly(text, number);
    cursor.word(text, b" ");
    take_kind(cursor, text, ram)
}

/// How a strand ended: its ending, the units that it ran, and its PC.
#[derive(Clone, Copy, Debug, PartialEq, Eq)]
pub struct End {
    pub ending: Ending,
    pub units: u32,
    pub pc: u64,
}

/// Takes the units and the PC of a strand that ended.
fn take_units(cursor: &mut Cursor, text: &[u8]) -> (u32, u64)
    ensures takes { Takes text.now cursor.old cursor.new (decimal result.0 ++ (codes " " ++ hex_of 16 result.1)) }
    ensures finds { (units pc : ℕ) (rest : List ℕ) → units < 2 ^ 32 → pc < 2 ^ 64 → drop cursor.old.at text.now ≡ (decimal units ++ (codes " " ++ hex_of 16 pc)) ++ rest → (result.0 ≡ units) × (result.1 ≡ pc) × Leaves text.now cursor.old cursor.new rest }
{
    let units = cursor.number(text);
    cursor.word(text, b" ");
    let pc = cursor.hex(text, 16);
    (units, pc)
}

/// Takes how a strand ended, up to its line feed.
#[tactic(auto, unfolding(t1_log::specs::Lines::ending_fields_of))]
fn take_ending(cursor: &mut Cursor, text: &[u8]) -> Option<End>
    ensures good { IfSome result (λ end. IsGoodEnd (Some end.ending)) }
    ensures takes { IfSome result (λ end. Takes text.now cursor.old cursor.new (ending_fields_of end.ending end.units end.pc)) }
    ensures finds { (ending : EndingData) (units pc : ℕ) (rest : List ℕ) → IsGoodEnd (Some ending) → units < 2 ^ 32 → pc < 2 ^ 64 → drop cursor.old.at text.now ≡ ending_fields_of ending units pc ++ rest → (result ≡ Some (record { ending = ending; units = units; pc = pc })) × Leaves text.now cursor.old cursor.new rest }
{
    if cursor.takes(text, b"halted ") {
        let (units, pc) = take_units(cursor, text);
        return Some(End {
            ending: Ending::Halted,
            units,
            pc,
        });
    }
    if cursor.takes(text, b"spent ") {
        let (units, pc) = take_units(cursor, text);
        return Some(End {
            ending: Ending::Spent,
            units,
            pc,
        });
    }
    cursor.word(text, b"fault ");
    let (units, pc) = take_units(cursor, text);
    cursor.word(text, b" ");
    let number = cursor.hex(text, 3);
    if number > 0x1ff {
        cursor.refuse();
        return None;
    }
    Some(End {
        ending: Ending::Fault(number as u16),
        units,
        pc,
    })
}

/// Takes the line of the end of this strand, with its line feed: halted, spent, or a fault and the type of
/// its trap, up to 1ff. `None` where no such line stands at the cursor, or the type is above.
pub fn take_end(cursor: &mut Cursor, text: &[u8], strand: u64) -> Option<End>
    ensures good { IfSome result (λ end. IsGoodEnd (Some end.ending)) }
    ensures reads { IfSome result (λ end. Reads text.now cursor.old.at cursor.new.at (ending_line_of strand end.ending end.units end.pc)) }
    ensures finds { (ending : EndingData) (units pc : ℕ) (rest : List ℕ) → IsGoodEnd (Some ending) → units < 2 ^ 32 → pc < 2 ^ 64 → IsGood cursor.old → drop cursor.old.at text.now ≡ ending_line_of strand ending units pc ++ rest → (result ≡ Some (record { ending = ending; units = units; pc = pc })) × Leaves text.now cursor.old cursor.new rest }
{
    cursor.word(text, b"e ");
    cursor.exactly(text, strand);
    cursor.word(text, b" ");
    let end = take_ending(cursor, text);
    cursor.word(text, b"\n");
    if cursor.is_good() { end } else { None }
}
