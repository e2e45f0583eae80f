//! The report of the run of an image, and its text.
ghost use Rattle.std.specs.Prelude.{◌≡◌, ◌≢◌, ◌<◌, ◌^◌, IfOk, IsTrue, OnOk, OnErr};
ghost use Rattle.t1_num.specs.MemoryLaws.{AreBytes};
ghost use Rattle.t1_io.specs.Causes.{HasCause, Rose};
ghost use Rattle.t1_io.specs.Held.{Grew, GrewPart};
ghost use Rattle.t1_log.specs.Log.{HasLog};
ghost use Rattle.t1_machine.specs.Start.{IsRunnable, setup_of};
ghost use Rattle.t1_cli.specs.Runs.{IsReportOf, by_schedule, printed_of};
ghost use Rattle.t1_cli.specs.Serial.{HasNoText};
ghost use Rattle.t1_cli.specs.Statuses.{status_of_verdict};
ghost use Rattle.t1_cli.specs.Verdict.{Judged};
ghost use Rattle.t1_take.specs.Limits.{is_in_limits};

use crate::command::Run;
use crate::ended::ended;
use crate::verdict::Verdict;
use std::alloc::{AllocError, Global};
use t1_chip::Chip;
use t1_elf::Image;
use t1_event::{Config, Report};
use t1_io::{Failed, Sink};
use t1_log::{print, print_brief};
use t1_machine::Schedule;

/// What is stored in bytes is below 256.
pub(crate) fn are_bytes(image: &[u8])
    ensures { AreBytes image.now }
{
    let _ = image;
}

/// The report of the run of an image by a schedule. All its memory is taken before its first step.
fn run_image(
    alloc: Global,
    config: Config,
    schedule: Schedule,
    image: Image,
) -> Result<Report, AllocError>
    requires limits { IsTrue (is_in_limits config) }
    requires runnable { IsRunnable (setup_of config image) }
    requires entry { image.entry < 2 ^ 40 }
    ensures report { IfOk result (IsReportOf (setup_of config image) schedule) }
    ensures text { IfOk result HasLog }
{
    are_bytes(image.ram.as_slice());
    let mut chip = Chip::build(alloc, &config, image)?;
    chip.run(schedule);
    Ok(chip.into_report())
}

/// Writes the log of a report, or its summary.
fn print_report<K: Sink>(report: &Report, brief: bool, out: &mut K) -> Result<(), Failed>
    requires { HasLog report.now }
    ensures cause { HasCause (K.faults out.old) (K.faults out.new) result }
    ensures all { OnOk result (Grew (K.held out.old) (K.held out.new) (printed_of brief report.now)) }
    ensures part { OnErr result (GrewPart (K.held out.old) (K.held out.new) (printed_of brief report.now)) }
{
    if brief {
        print_brief(report, out)
    } else {
        print(report, out)
    }
}

/// Writes the log of a report, or its summary, and says how its strands ended, or that the write failed.
pub fn write_report<K: Sink>(report: &Report, brief: bool, out: &mut K) -> Verdict
    requires { HasLog report.now }
    ensures judged { Judged (λ why. ⊥) (λ r. r ≡ report.now) (printed_of brief) (K.held out.old) (K.held out.new) result }
    ensures unchanged { HasNoText (status_of_verdict result) → out.new ≡ out.old }
    ensures fault { result ≡ Verdict.WriteFault → Rose (K.faults out.old) (K.faults out.new) }
    ensures never { result ≢ Verdict.ReadFault }
{
    if print_report(report, brief, out).is_err() {
        return Verdict::WriteFault;
    }
    ended(report.traces.as_slice())
}

/// Writes what comes of the run of an image. No memory is taken after the first step of the run.
pub(crate) fn write_run<K: Sink>(alloc: Global, run: &Run, image: Image, out: &mut K) -> Verdict
    requires limits { IsTrue (is_in_limits run.now.config) }
    requires runnable { IsRunnable (setup_of run.now.config image) }
    requires entry { image.entry < 2 ^ 40 }
    ensures judged { Judged (λ why. ⊥) (by_schedule run.now (setup_of run.now.config image)) (printed_of run.now.brief) (K.held out.old) (K.held out.new) result }
    ensures unchanged { HasNoText (status_of_verdict result) → out.new ≡ out.old }
    ensures fault { result ≡ Verdict.WriteFault → Rose (K.faults out.old) (K.faults out.new) }
    ensures never { result ≢ Verdict.ReadFault }
{
    match run_image(alloc, run.config, run.schedule, image) {
        Ok(report) => write_report(&report, run.brief, out),
        Err(_) => Verdict::OutOfMemory,
    }
}
