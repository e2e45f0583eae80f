//! The command of the threaded run.
ghost use Rattle.std.specs.Prelude.{◌≡◌, ◌≢◌, ◌<◌, ◌^◌, IfOk, IsTrue};
ghost use Rattle.std.specs.Io.KnownBytes.{IsAtEnd};
ghost use Rattle.t1_io.specs.Causes.{Rose};
ghost use Rattle.t1_machine.specs.Start.{IsRunnable, setup_of};
ghost use Rattle.t1_log.specs.Log.{HasLog, text_of};
ghost use Rattle.t1_cli.specs.Serial.{HasText, HasNoText};
ghost use Rattle.t1_cli.specs.Statuses.{status_of_verdict};
ghost use Rattle.t1_cli.specs.Verdict.{OfInput, Judged, JudgedInput};
ghost use Rattle.t1_take.specs.Limits.{is_in_limits};
ghost use Rattle.t1_top.specs.Live.{IsLiveReportOf};

use std::alloc::{AllocError, Global};
use std::sync::Wait;
use std::thread::Threads;
use t1_cli::input::load_input;
use t1_cli::report::write_report;
use t1_cli::verdict::Verdict;
use t1_elf::Image;
use t1_event::{Config, Report};
use t1_io::{Sink, Source};
use t1_live::{Agents, Gate, run_live};

/// The report of a threaded run of an image.
fn run_agents<R: Threads + Wait + Sync, G: Gate + Sync>(
    rt: &R,
    alloc: Global,
    config: &Config,
    image: Image,
    gate: &G,
) -> Result<Report, AllocError>
    requires limits { IsTrue (is_in_limits config.now) }
    requires runnable { IsRunnable (setup_of config.now image) }
    requires entry { image.entry < 2 ^ 40 }
    ensures report { IfOk result (IsLiveReportOf (setup_of config.now image)) }
    ensures text { IfOk result HasLog }
{
    let agents = Agents::build(alloc, config, image)?;
    let ended = run_live(rt, alloc, agents, gate)?;
    Ok(ended.into_report())
}

/// Writes what comes of the threaded run of an image.
fn write_live<R: Threads + Wait + Sync, K: Sink, G: Gate + Sync>(
    rt: &R,
    alloc: Global,
    config: &Config,
    image: Image,
    out: &mut K,
    gate: &G,
) -> Verdict
    requires limits { IsTrue (is_in_limits config.now) }
    requires runnable { IsRunnable (setup_of config.now image) }
    requires entry { image.entry < 2 ^ 40 }
    ensures judged { Judged (λ why. ⊥) (IsLiveReportOf (setup_of config.now image)) text_of (K.held out.old) (K.held out.new) result }
    ensures unchanged { HasNoText (status_of_verdict result) → out.new ≡ out.old }
    ensures fault { result ≡ Verdict.WriteFault → Rose (K.faults out.old) (K.faults out.new) }
    ensures never { result ≢ Verdict.ReadFault }
{
    match run_agents(rt, alloc, config, image, gate) {
        Ok(report) => write_report(&report, false, out),
        Err(_) => Verdict::OutOfMemory,
    }
}

/// Reads an ELF file, runs it in threads and writes its log.
pub(crate) fn serve_live<R: Threads + Wait + Sync, S: Source, K: Sink, G: Gate + Sync>(
    rt: &R,
    alloc: Global,
    config: &Config,
    input: &mut S,
    out: &mut K,
    gate: &G,
) -> Verdict
    requires { IsTrue (is_in_limits config.now) }
    ensures serves { OfInput (S.left input.old) (λ bytes. JudgedInput config.now IsLiveReportOf text_of bytes (K.held out.old) (K.held out.new) result) }
    ensures usage { result ≢ Verdict.Usage }
    ensures unchanged { HasNoText (status_of_verdict result) → out.new ≡ out.old }
    ensures read_fault { result ≡ Verdict.ReadFault → Rose (S.faults input.old) (S.faults input.new) }
    ensures write_fault { result ≡ Verdict.WriteFault → Rose (K.faults out.old) (K.faults out.new) }
    ensures end { HasText (status_of_verdict result) → IsAtEnd (S.left input.new) }
{
    match load_input(alloc, config, input) {
        Ok(image) => write_live(rt, alloc, config, image, out, gate),
        Err(verdict) => verdict,
    }
}
