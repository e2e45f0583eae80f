//! The lines of the memory order and of the console.
ghost use Rattle.std.specs.Prelude.{ℕ, ◌≡◌, ◌<◌, ◌≤◌, ◌++◌, ◌⊎◌, List, codes, length, drop, get_or, false, IsTrue, IfSome, OnOk, Some};
ghost use Rattle.t1_num.specs.MemoryLaws.{AreBytes};
ghost use Rattle.t1_event.specs.declared.report.Place.{Place as PlaceData};
ghost use Rattle.t1_log.specs.Hex.{hex_of_bytes};
ghost use Rattle.t1_log.specs.Log.{console_line_of};
ghost use Rattle.t1_log.specs.Lines.{place_line_of};
ghost use Rattle.t1_take.specs.Taken.{Reads, IsGood, Takes, Leaves};
ghost use Rattle.t1_take.specs.WellFormed.{IsGoodPlace};

use crate::cursor::Cursor;
use arrayvec::ArrayVec;
use std::alloc::AllocError;
use t1_elf::Listed;
use t1_event::Place;

/// Takes the line of a place of the memory order, with its line feed: a strand, of so many strands, at most
/// 256, and the number of its item. `None` where no such line stands at the cursor, or the strand is none of
/// them.
#[tactic(auto, unfolding(t1_log::specs::Lines::place_line_of))]
pub fn take_place(cursor: &mut Cursor, text: &[u8], strands: usize) -> Option<Place>
    requires { strands ≤ 256 }
    ensures good { IfSome result (IsGoodPlace strands) }
    ensures reads { IfSome result (λ place. Reads text.now cursor.old.at cursor.new.at (place_line_of place)) }
    ensures finds { (place : PlaceData) (rest : List ℕ) → IsGoodPlace strands place → IsGood cursor.old → drop cursor.old.at text.now ≡ place_line_of place ++ rest → (result ≡ Some place) × Leaves text.now cursor.old cursor.new rest }
{
    cursor.word(text, b"o ");
    let strand = cursor.number(text);
    cursor.word(text, b" ");
    let item = cursor.number(text);
    cursor.word(text, b"\n");
    if strand as usize >= strands {
        cursor.refuse();
        return None;
    }
    if cursor.is_good() {
        Some(Place {
            strand: strand as u8,
            item,
        })
    } else {
        None
    }
}

/// Whether a run of so many bytes ends here: it has one, and a line feed stands next.
fn is_over(cursor: &Cursor, text: &[u8], count: usize) -> bool
    ensures over { IsTrue result → (0 < count) × (get_or text.now cursor.now.at 0 ≡ 10) }
    ensures goes { result ≡ false → (count ≡ 0) ⊎ (get_or text.now cursor.now.at 0 ≡ 10 → ⊥) }
{
    count != 0 && cursor.peek(text) == b'\n'
}

/// Takes some bytes, each in two digits, up to 32 or to a line feed.
fn take_run(cursor: &mut Cursor, text: &[u8]) -> ArrayVec<u8, 32>
    ensures some { 1 ≤ length result.items }
    ensures few { length result.items ≤ 32 }
    ensures takes { Takes text.now cursor.old cursor.new (hex_of_bytes result.items) }
    ensures finds { (bytes rest : List ℕ) → 1 ≤ length bytes → length bytes ≤ 32 → AreBytes bytes → drop cursor.old.at text.now ≡ hex_of_bytes bytes ++ (codes "\n" ++ rest) → (result.items ≡ bytes) × Leaves text.now cursor.old cursor.new (codes "\n" ++ rest) }
{
    let mut bytes = ArrayVec::new();
    for count in 0..32usize {
        if is_over(cursor, text, count) {
            return bytes;
        }
        bytes.push(cursor.hex(text, 2) as u8);
    }
    bytes
}

/// Takes the line of some of the console's bytes, 1 to 32, with its line feed. Where no such line stands, the
/// cursor is not good, and the bytes mean nothing.
#[tactic(auto, unfolding(t1_log::specs::Log::console_line_of))]
pub fn take_console(cursor: &mut Cursor, text: &[u8]) -> ArrayVec<u8, 32>
    ensures some { 1 ≤ length result.items }
    ensures few { length result.items ≤ 32 }
    ensures takes { Takes text.now cursor.old cursor.new (console_line_of 0 result.items) }
    ensures finds { (bytes rest : List ℕ) → 1 ≤ length bytes → length bytes ≤ 32 → AreBytes bytes → drop cursor.old.at text.now ≡ console_line_of 0 bytes ++ rest → (result.items ≡ bytes) × Leaves text.now cursor.old cursor.new rest }
{
    cursor.word(text, b"k ");
    let bytes = take_run(cursor, text);
    cursor.word(text, b"\n");
    bytes
}

/// Appends the bytes of a line to those of the console.
///
/// # Errors
///
/// Want of memory.
pub fn append(console: &mut Listed<u8>, bytes: &[u8]) -> Result<(), AllocError>
    ensures { OnOk result (console.new ≡ console.old ++ bytes.now) }
{
    for at in 0..bytes.len() {
        console.push(bytes[at])?;
    }
    Ok(())
}
