//! The log of a report.
//!
//! ```text
//! t1log 1
//! config cores 1 strands 1 ram 65536 sets 1024 budget 10
//! entry 0000000100
//! m 0000000100 8210...                          each block of 32 bytes that is not all zeros
//! i 0 0 fetch 0000000100 4 82102005 - M 0 0     strand, number, kind, address, size, got, put, place
//! i 0 1 membar 0f                               its mask
//! i 0 2 flush
//! e 0 halted 4 0000000000000110                 strand, ending, units, PC; for a fault its trap type
//! c 0 0 0 0 0 - 1.d.32.3                        index, destination, strand, item, way, evicted, kills
//! o 0 0                                         the memory order: strand, number
//! k 48656c6c6f                                  the bytes that reached the console, 32 in a line
//! end
//! ```
//!
//! The place of an access is `F` and the time of a load that its store buffer answered, `H` and the
//! time of a hit, or `M`, the index of its commit and the time at which it was sent.
ghost use Rattle.std.specs.Prelude.{◌≡◌, ◌+◌, ◌≤◌, ◌++◌, length, All, OnOk, OnErr};
ghost use Rattle.t1_io.specs.Causes.{HasCause};
ghost use Rattle.t1_io.specs.Held.{Grew, GrewPart};
ghost use Rattle.t1_event.specs.Printable.{HasText, IsPrintableTrace, IsPrintableCommit};
ghost use Rattle.t1_log.specs.Log.{HasLog, place_fields_of, item_line_of, trace_lines_of, commit_line_of, text_of};
ghost use Rattle.t1_log.specs.Texts.{lines_from};

use crate::commits::commit_line;
use crate::console::print_console;
use crate::line::Line;
use crate::lines::{ROOM, fixed_line, put_item};
use crate::texts::{print_ending, print_head, print_order, write_line};
use t1_event::{Commit, How, Item, Report, Trace};
use t1_io::{Failed, Sink};

/// Appends where an access stands.
#[tactic(auto, unfolding(crate::specs::Log::place_fields_of))]
fn put_place(line: &mut Line<ROOM>, how: How)
    requires { length line.old + 44 ≤ ROOM }
    ensures value { line.new ≡ line.old ++ place_fields_of how }
    ensures len { length line.new ≤ length line.old + 44 }
{
    match how {
        How::Unplaced => {}
        How::Forward { time } => {
            line.text(" F ");
            line.decimal(u64::from(time));
        }
        How::Hit { time } => {
            line.text(" H ");
            line.decimal(u64::from(time));
        }
        How::Commit { index, seen } => {
            line.text(" M ");
            line.decimal(u64::from(index));
            line.byte(b' ');
            line.decimal(u64::from(seen));
        }
    }
}

/// The line of an item of a strand, at its number.
#[tactic(auto, unfolding(crate::specs::Log::item_line_of))]
fn item_line(strand: usize, number: usize, item: &Item) -> Line<ROOM>
    requires { HasText item.now }
    ensures { result ≡ item_line_of strand number item.now }
{
    let mut line = Line::new();
    line.text("i ");
    line.decimal(strand as u64);
    line.byte(b' ');
    line.decimal(number as u64);
    line.byte(b' ');
    put_item(&mut line, item);
    put_place(&mut line, item.how);
    line.byte(b'\n');
    line
}

/// Prints the lines of a strand's items.
fn print_items<K: Sink>(strand: usize, items: &[Item], sink: &mut K) -> Result<(), Failed>
    requires { All HasText items.now }
    ensures cause { HasCause (K.faults sink.old) (K.faults sink.new) result }
    ensures all { OnOk result (Grew (K.held sink.old) (K.held sink.new) (lines_from (item_line_of strand) 0 items.now)) }
    ensures part { OnErr result (GrewPart (K.held sink.old) (K.held sink.new) (lines_from (item_line_of strand) 0 items.now)) }
{
    for (number, item) in items.iter().enumerate() {
        write_line(sink, item_line(strand, number, item))?;
    }
    Ok(())
}

/// Prints the lines of a strand.
#[tactic(auto, unfolding(crate::specs::Log::trace_lines_of))]
fn print_trace<K: Sink>(strand: usize, trace: &Trace, sink: &mut K) -> Result<(), Failed>
    requires { IsPrintableTrace trace.now }
    ensures cause { HasCause (K.faults sink.old) (K.faults sink.new) result }
    ensures all { OnOk result (Grew (K.held sink.old) (K.held sink.new) (trace_lines_of strand trace.now)) }
    ensures part { OnErr result (GrewPart (K.held sink.old) (K.held sink.new) (trace_lines_of strand trace.now)) }
{
    print_items(strand, trace.items.as_slice(), sink)?;
    print_ending(strand, trace, sink)
}

/// Prints the lines of the strands, in order.
fn print_traces<K: Sink>(traces: &[Trace], sink: &mut K) -> Result<(), Failed>
    requires { All IsPrintableTrace traces.now }
    ensures cause { HasCause (K.faults sink.old) (K.faults sink.new) result }
    ensures all { OnOk result (Grew (K.held sink.old) (K.held sink.new) (lines_from trace_lines_of 0 traces.now)) }
    ensures part { OnErr result (GrewPart (K.held sink.old) (K.held sink.new) (lines_from trace_lines_of 0 traces.now)) }
{
    for (strand, trace) in traces.iter().enumerate() {
        print_trace(strand, trace, sink)?;
    }
    Ok(())
}

/// Prints the lines of the commits, in order.
fn print_commits<K: Sink>(log: &[Commit], sink: &mut K) -> Result<(), Failed>
    requires { All IsPrintableCommit log.now }
    ensures cause { HasCause (K.faults sink.old) (K.faults sink.new) result }
    ensures all { OnOk result (Grew (K.held sink.old) (K.held sink.new) (lines_from commit_line_of 0 log.now)) }
    ensures part { OnErr result (GrewPart (K.held sink.old) (K.held sink.new) (lines_from commit_line_of 0 log.now)) }
{
    for (index, commit) in log.iter().enumerate() {
        write_line(sink, commit_line(index, commit))?;
    }
    Ok(())
}

/// Prints the log of a report of a machine that version 1 can name, each line by one call of `write_all`. It
/// takes no memory.
///
/// # Errors
///
/// [`Failed`] only where the sink's count of faults rose. A front of the text was appended then.
#[tactic(auto, unfolding(crate::specs::Log::text_of))]
pub fn print<K: Sink>(report: &Report, sink: &mut K) -> Result<(), Failed>
    requires { HasLog report.now }
    ensures cause { HasCause (K.faults sink.old) (K.faults sink.new) result }
    ensures all { OnOk result (Grew (K.held sink.old) (K.held sink.new) (text_of report.now)) }
    ensures part { OnErr result (GrewPart (K.held sink.old) (K.held sink.new) (text_of report.now)) }
{
    print_head(fixed_line("t1log 1\n"), &report.config, &report.image, sink)?;
    print_traces(report.traces.as_slice(), sink)?;
    print_commits(report.log.as_slice(), sink)?;
    print_order(report.order.as_slice(), sink)?;
    print_console(report.console.as_slice(), sink)?;
    write_line(sink, fixed_line("end\n"))
}
