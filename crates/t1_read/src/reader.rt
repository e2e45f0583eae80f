//! Whole logs.

ghost use Rattle.std.specs.Prelude.{◌≡◌, ◌≤◌, length, IfOk, IfErr};
ghost use Rattle.t1_event.specs.declared.report.Report.{Report as ReportData};
ghost use Rattle.t1_log.specs.Log.{text_of};
ghost use Rattle.t1_take.specs.WellFormed.{IsWellFormed};
ghost use Rattle.t1_read.specs.Exact.{IsRead, HasBytes};
ghost use Rattle.t1_read.specs.Faults.{NamesFault};

use crate::error::LogError;
use crate::head::{Head, read_head};
use crate::lines::Lines;
use crate::strands::read_strands;
use crate::tail::{Tail, read_tail};
use std::alloc::Global;
use t1_event::Report;

/// Reads a log, in one pass over the text. The report is well formed, and the text is its log: what the
/// log does not print of a commit, its op, its time and its old value, is filled from the item that it
/// names. The log of a well-formed report reads as that report.
///
/// # Errors
///
/// [`LogError`]: the first line at fault, and what is at fault with it (`specs/Faults.antt`), or want of
/// memory. The text is no log of a well-formed report, unless memory was wanting.
pub fn read_log(alloc: Global, text: &[u8]) -> Result<Report, LogError>
    requires { length text.now ≤ 67108864 }
    ensures formed { IfOk result IsWellFormed }
    ensures text { IfOk result (λ report. text.now ≡ text_of report) }
    ensures exact { (report : ReportData) → IsWellFormed report → HasBytes report → text.now ≡ text_of report → IsRead result (λ r. r ≡ report) }
    ensures fault { IfErr result (NamesFault text.now) }
{
    let mut lines = Lines { at: 0 };
    let Head { config, image } = read_head(alloc, &mut lines, text)?;
    let strands = u64::from(config.cores) * u64::from(config.strands);
    let traces = read_strands(alloc, &mut lines, text, strands, config.ram)?;
    let Tail {
        log,
        order,
        console,
    } = read_tail(alloc, &mut lines, text, &config, traces.as_slice())?;
    Ok(Report {
        config,
        image,
        traces,
        log,
        order,
        console,
    })
}
