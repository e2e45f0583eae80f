//! The lines of the words of a program.
ghost use Rattle.std.specs.Prelude.{◌≡◌, ◌<◌, ◌≤◌, ◌+◌, ◌*◌, ◌^◌, All, length, drop, OnOk, OnErr};
ghost use Rattle.t1_num.specs.Memory.{number_at};
ghost use Rattle.t1_io.specs.Causes.{HasCause};
ghost use Rattle.t1_io.specs.Held.{Grew, GrewPart};
ghost use Rattle.t1_elf.specs.Parsed.{IsBelow};
ghost use Rattle.t1_text.specs.Words.{word_line_of, lead_of, word_lines_of, chunk_lines_of, object_lines_of};

use t1_dis::disassemble;
use t1_elf::{Chunk, Object};
use t1_io::{Failed, Sink, write_all};
use t1_log::Line;
use t1_num::get_be;

/// The room of a line, in bytes: two numbers, a text of at most 96, three spaces and the line's end.
const LINE: usize = 128;

/// The line of a word that stands at an address.
#[tactic(auto, unfolding(crate::specs::Words::word_line_of))]
fn word_line(addr: u64, word: u32) -> Line<LINE>
    ensures { result ≡ word_line_of addr word }
{
    let text = disassemble(addr, word);
    let mut line = Line::new();
    line.hex(10, addr);
    line.text(" ");
    line.hex(8, u64::from(word));
    line.text(" ");
    line.text(text.as_str());
    line.text("\n");
    line
}

/// The word of this number among bytes.
fn word_at(bytes: &[u8], number: usize) -> u32
    requires { 4 * number + 4 ≤ length bytes.now }
    ensures { result ≡ number_at bytes.now (4 * number) 4 }
{
    get_be(bytes, 4 * number, 4) as u32
}

/// Prints the whole words of bytes that stand from an address on.
fn print_lines<K: Sink>(addr: u64, bytes: &[u8], sink: &mut K) -> Result<(), Failed>
    requires { addr + length bytes.now ≤ 2 ^ 40 }
    ensures cause { HasCause (K.faults sink.old) (K.faults sink.new) result }
    ensures all { OnOk result (Grew (K.held sink.old) (K.held sink.new) (word_lines_of addr bytes.now)) }
    ensures part { OnErr result (GrewPart (K.held sink.old) (K.held sink.new) (word_lines_of addr bytes.now)) }
{
    for number in 0..bytes.len() / 4 {
        let line = word_line(addr + 4 * number as u64, word_at(bytes, number));
        write_all(sink, line.as_slice())?;
    }
    Ok(())
}

/// How many bytes stand before the first multiple of 4 from an address on.
fn lead(addr: u64) -> usize
    ensures value { result ≡ lead_of addr }
    ensures few { result < 4 }
{
    ((4 - addr % 4) % 4) as usize
}

/// The bytes after the first ones; none where there are fewer.
fn behind(bytes: &[u8], first: usize) -> &[u8]
    ensures value { result.now ≡ drop first bytes.now }
    ensures most { length result.now ≤ length bytes.now }
{
    bytes.split_at(first.min(bytes.len())).1
}

/// Prints the whole words of a chunk's bytes that stand at multiples of 4.
#[tactic(auto, unfolding(crate::specs::Words::chunk_lines_of))]
fn print_chunk<K: Sink>(chunk: &Chunk, sink: &mut K) -> Result<(), Failed>
    requires { IsBelow (2 ^ 39) chunk.now }
    ensures cause { HasCause (K.faults sink.old) (K.faults sink.new) result }
    ensures all { OnOk result (Grew (K.held sink.old) (K.held sink.new) (chunk_lines_of chunk.now)) }
    ensures part { OnErr result (GrewPart (K.held sink.old) (K.held sink.new) (chunk_lines_of chunk.now)) }
{
    let lead = lead(chunk.addr);
    print_lines(
        chunk.addr + lead as u64,
        behind(chunk.bytes.as_slice(), lead),
        sink,
    )
}

/// Prints the words of a program whose chunks end at 2^39 or below: of each chunk in order, the whole
/// words of its bytes that stand at multiples of 4, a line each. It takes no memory.
///
/// A line is the address in 10 hexadecimal digits, the word in 8, and the statement that
/// [`disassemble`] gives.
///
/// # Errors
///
/// [`Failed`] only where the sink's count of faults rose. A front of the text was appended then.
pub fn print_words<K: Sink>(object: &Object, sink: &mut K) -> Result<(), Failed>
    requires { All (IsBelow (2 ^ 39)) object.now.chunks }
    ensures cause { HasCause (K.faults sink.old) (K.faults sink.new) result }
    ensures all { OnOk result (Grew (K.held sink.old) (K.held sink.new) (object_lines_of object.now)) }
    ensures part { OnErr result (GrewPart (K.held sink.old) (K.held sink.new) (object_lines_of object.now)) }
{
    for chunk in object.chunks.as_slice() {
        print_chunk(chunk, sink)?;
    }
    Ok(())
}
