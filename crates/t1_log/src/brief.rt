//! The summary of a report.
//!
//! ```text
//! t1brief 1
//! config cores 1 strands 1 ram 65536 sets 1024 budget 10
//! e 0 halted 4 0000000000001010
//! n units 4 items 6 commits 2 kills 0 evicted 0
//! k 48656c6c6f
//! end
//! ```
ghost use Rattle.std.specs.Prelude.{◌≡◌, ◌+◌, ◌*◌, ◌^◌, ◌≤◌, ◌<◌, ◌++◌, length, drop, All, OnOk, OnErr};
ghost use Rattle.t1_io.specs.Causes.{HasCause};
ghost use Rattle.t1_io.specs.Held.{Grew, GrewPart};
ghost use Rattle.t1_event.specs.Printable.{IsPrintableTrace, IsPrintableCommit, IsPrintableReport};
ghost use Rattle.t1_log.specs.Brief.{units_of, items_in, kills_in, evicted_in, totals_line_of, totals_of, brief_of};
ghost use Rattle.t1_log.specs.Lines.{last_line_of};
ghost use Rattle.t1_log.specs.Log.{HasLog};
ghost use Rattle.t1_log.specs.Texts.{lines_from};

use crate::console::print_console;
use crate::line::Line;
use crate::lines::{ROOM, config_line, fixed_line};
use crate::texts::{print_ending, write_line};
use t1_event::{Commit, Report, Trace};
use t1_io::{Failed, Sink};

/// The units of all strands.
#[tactic(auto, unfolding(crate::specs::Brief::units_of))]
fn units_of(traces: &[Trace]) -> u64
    requires { length traces.now ≤ 256 }
    ensures { result ≡ units_of traces.now }
{
    let mut units = 0;
    for trace in traces {
        units += u64::from(trace.units);
    }
    units
}

/// The items of all strands.
#[tactic(auto, unfolding(crate::specs::Brief::items_in))]
fn items_in(traces: &[Trace]) -> u64
    requires few { length traces.now ≤ 256 }
    requires short { All IsPrintableTrace traces.now }
    ensures { result ≡ items_in traces.now }
{
    let mut items = 0;
    for trace in traces {
        items += trace.items.as_slice().len() as u64;
    }
    items
}

/// The kills of all commits.
#[tactic(auto, unfolding(crate::specs::Brief::kills_in))]
fn kills_in(log: &[Commit]) -> u64
    requires { length log.now ≤ 2 ^ 32 }
    ensures { result ≡ kills_in log.now }
{
    let mut kills = 0;
    for commit in log {
        kills += commit.kills.len() as u64;
    }
    kills
}

/// The lines that all commits evicted.
#[tactic(auto, unfolding(crate::specs::Brief::evicted_in))]
fn evicted_in(log: &[Commit]) -> u64
    ensures { result ≡ evicted_in log.now }
{
    let mut evicted = 0;
    for commit in log {
        if commit.evicted.is_some() {
            evicted += 1;
        }
    }
    evicted
}

/// The line of the totals.
#[tactic(auto, unfolding(crate::specs::Brief::totals_line_of))]
fn totals_line(units: u64, items: u64, commits: u64, kills: u64, evicted: u64) -> Line<ROOM>
    ensures { result ≡ totals_line_of units items commits kills evicted }
{
    let mut line = Line::new();
    line.text("n units ");
    line.decimal(units);
    line.text(" items ");
    line.decimal(items);
    line.text(" commits ");
    line.decimal(commits);
    line.text(" kills ");
    line.decimal(kills);
    line.text(" evicted ");
    line.decimal(evicted);
    line.byte(b'\n');
    line
}

/// The line of a report's totals.
fn totals_of(report: &Report) -> Line<ROOM>
    requires { IsPrintableReport report.now }
    ensures { result ≡ totals_of report.now }
{
    let traces = report.traces.as_slice();
    let log = report.log.as_slice();
    totals_line(
        units_of(traces),
        items_in(traces),
        log.len() as u64,
        kills_in(log),
        evicted_in(log),
    )
}

/// Prints how each strand ended, in order.
fn print_endings<K: Sink>(traces: &[Trace], sink: &mut K) -> Result<(), Failed>
    ensures cause { HasCause (K.faults sink.old) (K.faults sink.new) result }
    ensures all { OnOk result (Grew (K.held sink.old) (K.held sink.new) (lines_from last_line_of 0 traces.now)) }
    ensures part { OnErr result (GrewPart (K.held sink.old) (K.held sink.new) (lines_from last_line_of 0 traces.now)) }
{
    for (strand, trace) in traces.iter().enumerate() {
        print_ending(strand, trace, sink)?;
    }
    Ok(())
}

/// Prints the summary of a report of a machine that version 1 can name: the machine, how each strand ended,
/// totals, and the console. Each line is written by one call of `write_all`. It takes no memory.
///
/// # Errors
///
/// [`Failed`] only where the sink's count of faults rose. A front of the text was appended then.
#[tactic(auto, unfolding(crate::specs::Brief::brief_of))]
pub fn print_brief<K: Sink>(report: &Report, sink: &mut K) -> Result<(), Failed>
    requires { HasLog report.now }
    ensures cause { HasCause (K.faults sink.old) (K.faults sink.new) result }
    ensures all { OnOk result (Grew (K.held sink.old) (K.held sink.new) (brief_of report.now)) }
    ensures part { OnErr result (GrewPart (K.held sink.old) (K.held sink.new) (brief_of report.now)) }
{
    write_line(sink, fixed_line("t1brief 1\n"))?;
    write_line(sink, config_line(&report.config))?;
    print_endings(report.traces.as_slice(), sink)?;
    write_line(sink, totals_of(report))?;
    print_console(report.console.as_slice(), sink)?;
    write_line(sink, fixed_line("end\n"))
}
