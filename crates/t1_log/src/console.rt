//! The lines of the console's bytes.
ghost use Rattle.std.specs.Prelude.{◌≡◌, ◌+◌, ◌-◌, ◌*◌, ◌≤◌, ◌<◌, ◌/◌, length, take, drop, min, OnOk, OnErr};
ghost use Rattle.t1_io.specs.Causes.{HasCause};
ghost use Rattle.t1_io.specs.Held.{Grew, GrewPart};
ghost use Rattle.t1_log.specs.Log.{console_line_of, console_lines_of};

use crate::line::Line;
use crate::lines::ROOM;
use crate::texts::write_line;
use t1_io::{Failed, Sink};

/// The line of some bytes that reached the console.
#[tactic(auto, unfolding(crate::specs::Log::console_line_of))]
fn console_line(number: usize, bytes: &[u8]) -> Line<ROOM>
    requires { length bytes.now ≤ 32 }
    ensures { result ≡ console_line_of number bytes.now }
{
    let _ = number;
    let mut line = Line::new();
    line.text("k ");
    line.hex_bytes(bytes);
    line.byte(b'\n');
    line
}

/// The bytes of a line, by its number: 32, or what is left of them.
fn bytes_at(bytes: &[u8], number: usize) -> &[u8]
    requires { 32 * number < length bytes.now }
    ensures value { result.now ≡ take 32 (drop (32 * number) bytes.now) }
    ensures few { length result.now ≤ 32 }
{
    let rest = bytes.split_at(32 * number).1;
    if rest.len() < 32 {
        rest
    } else {
        rest.split_at(32).0
    }
}

/// Prints the bytes that reached the console, 32 in each line but the last.
pub(crate) fn print_console<K: Sink>(bytes: &[u8], sink: &mut K) -> Result<(), Failed>
    ensures cause { HasCause (K.faults sink.old) (K.faults sink.new) result }
    ensures all { OnOk result (Grew (K.held sink.old) (K.held sink.new) (console_lines_of bytes.now)) }
    ensures part { OnErr result (GrewPart (K.held sink.old) (K.held sink.new) (console_lines_of bytes.now)) }
{
    for number in 0..(bytes.len() + 31) / 32 {
        write_line(sink, console_line(number, bytes_at(bytes, number)))?;
    }
    Ok(())
}
