//! Texts of several lines, written to a sink line by line.
ghost use Rattle.std.specs.Prelude.{◌≡◌, ◌+◌, ◌*◌, ◌≤◌, ◌<◌, ◌/◌, length, take, drop, OnOk, OnErr};
ghost use Rattle.t1_io.specs.Causes.{HasCause};
ghost use Rattle.t1_io.specs.Held.{Grew, GrewPart};
ghost use Rattle.t1_log.specs.Lines.{last_line_of};
ghost use Rattle.t1_log.specs.Texts.{is_blank, block_lines_of, image_lines_of, head_lines_of, order_lines_of};

use crate::line::Line;
use crate::lines::{ROOM, block_line, config_line, ending_line, entry_line, place_line};
use t1_elf::Image;
use t1_event::{Config, Place, Trace};
use t1_io::{Failed, Sink, write_all};

/// Writes a line, by one call of `write_all`.
pub(crate) fn write_line<K: Sink, const CAP: usize>(
    sink: &mut K,
    line: Line<CAP>,
) -> Result<(), Failed>
    ensures cause { HasCause (K.faults sink.old) (K.faults sink.new) result }
    ensures all { OnOk result (Grew (K.held sink.old) (K.held sink.new) line.entry) }
    ensures part { OnErr result (GrewPart (K.held sink.old) (K.held sink.new) line.entry) }
{
    write_all(sink, line.as_slice())
}

/// A block of 32 bytes, by its number.
fn block_at(ram: &[u8], number: usize) -> &[u8]
    requires { 32 * number + 32 ≤ length ram.now }
    ensures value { result.now ≡ take 32 (drop (32 * number) ram.now) }
    ensures bytes { length result.now ≡ 32 }
{
    ram.split_at(32 * number).1.split_at(32).0
}

fn is_blank(block: &[u8]) -> bool
    ensures { result ≡ is_blank block.now }
{
    block.iter().all(|byte| *byte == 0)
}

/// Prints the line of a block, where the block is not all zeros.
#[tactic(auto, unfolding(crate::specs::Texts::block_lines_of))]
fn print_block<K: Sink>(number: usize, block: &[u8], sink: &mut K) -> Result<(), Failed>
    requires bytes { length block.now ≤ 32 }
    requires place { 32 * number < usize.MAX }
    ensures cause { HasCause (K.faults sink.old) (K.faults sink.new) result }
    ensures all { OnOk result (Grew (K.held sink.old) (K.held sink.new) (block_lines_of number block.now)) }
    ensures part { OnErr result (GrewPart (K.held sink.old) (K.held sink.new) (block_lines_of number block.now)) }
{
    if is_blank(block) {
        return Ok(());
    }
    write_line(sink, block_line(32 * number as u64, block))
}

/// Prints the blocks of the memory that are not all zeros.
pub(crate) fn print_image<K: Sink>(ram: &[u8], sink: &mut K) -> Result<(), Failed>
    ensures cause { HasCause (K.faults sink.old) (K.faults sink.new) result }
    ensures all { OnOk result (Grew (K.held sink.old) (K.held sink.new) (image_lines_of ram.now)) }
    ensures part { OnErr result (GrewPart (K.held sink.old) (K.held sink.new) (image_lines_of ram.now)) }
{
    for number in 0..ram.len() / 32 {
        print_block(number, block_at(ram, number), sink)?;
    }
    Ok(())
}

/// Prints what a log begins with: a version line, the machine, and the image.
#[tactic(auto, unfolding(crate::specs::Texts::head_lines_of))]
pub(crate) fn print_head<K: Sink>(
    version: Line<ROOM>,
    config: &Config,
    image: &Image,
    sink: &mut K,
) -> Result<(), Failed>
    ensures cause { HasCause (K.faults sink.old) (K.faults sink.new) result }
    ensures all { OnOk result (Grew (K.held sink.old) (K.held sink.new) (head_lines_of version config.now image.now)) }
    ensures part { OnErr result (GrewPart (K.held sink.old) (K.held sink.new) (head_lines_of version config.now image.now)) }
{
    write_line(sink, version)?;
    write_line(sink, config_line(config))?;
    write_line(sink, entry_line(image.entry))?;
    print_image(image.ram.as_slice(), sink)
}

/// Prints the memory order.
pub(crate) fn print_order<K: Sink>(order: &[Place], sink: &mut K) -> Result<(), Failed>
    ensures cause { HasCause (K.faults sink.old) (K.faults sink.new) result }
    ensures all { OnOk result (Grew (K.held sink.old) (K.held sink.new) (order_lines_of order.now)) }
    ensures part { OnErr result (GrewPart (K.held sink.old) (K.held sink.new) (order_lines_of order.now)) }
{
    for place in order {
        write_line(sink, place_line(*place))?;
    }
    Ok(())
}

/// Prints the line of a strand's end, where it has ended.
pub(crate) fn print_ending<K: Sink>(
    strand: usize,
    trace: &Trace,
    sink: &mut K,
) -> Result<(), Failed>
    ensures cause { HasCause (K.faults sink.old) (K.faults sink.new) result }
    ensures all { OnOk result (Grew (K.held sink.old) (K.held sink.new) (last_line_of strand trace.now)) }
    ensures part { OnErr result (GrewPart (K.held sink.old) (K.held sink.new) (last_line_of strand trace.now)) }
{
    match trace.ending {
        Some(ending) => write_line(sink, ending_line(strand, ending, trace.units, trace.pc)),
        None => Ok(()),
    }
}
