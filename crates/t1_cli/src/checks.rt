//! The command that judges the order of a log.
ghost use Rattle.std.specs.Prelude.{◌≡◌, ◌≢◌, ◌+◌, ◌≤◌, ◌++◌, length};
ghost use Rattle.t1_io.specs.Causes.{Rose};
ghost use Rattle.t1_read.specs.Exact.{HasBytes};
ghost use Rattle.t1_cli.specs.Checks.{axiom_name_of, spot_of, spot_or_dash, broken_line, checked_line};
ghost use Rattle.t1_cli.specs.Serial.{HasNoText};
ghost use Rattle.t1_cli.specs.Statuses.{status_of_verdict};
ghost use Rattle.t1_cli.specs.Verdict.{told_of, Checked};

use crate::refusal::Refusal;
use crate::report::are_bytes;
use crate::verdict::Verdict;
use std::alloc::Global;
use t1_check::{Axiom, Verdict as Judgement, check};
use t1_event::{Place, Report};
use t1_io::{Sink, write_all};
use t1_log::Line;
use t1_read::{LogKind, read_log};

/// The most bytes of a verdict's line, and room to make it.
const LINE: usize = 96;

/// The name of an axiom.
fn axiom_name_of(law: Axiom) -> &'static str
    ensures value { result.now ≡ axiom_name_of law }
    ensures short { length result.now ≤ 10 }
{
    match law {
        Axiom::Listing => "Listing",
        Axiom::LoadOp => "LoadOp",
        Axiom::StoreStore => "StoreStore",
        Axiom::Value => "Value",
        Axiom::Barrier => "Barrier",
    }
}

/// Appends a strand and the number of an item.
#[tactic(auto, unfolding(crate::specs::Checks::spot_of))]
fn put_spot(line: &mut Line<LINE>, place: Place)
    requires { length line.old + 24 ≤ LINE }
    ensures value { line.new ≡ line.old ++ spot_of place }
    ensures len { length line.new ≤ length line.old + 24 }
{
    line.short(place.strand);
    line.text(".");
    line.decimal(u64::from(place.item));
}

/// Appends a second place, or a dash.
fn put_spot_or_dash(line: &mut Line<LINE>, place: Option<Place>)
    requires { length line.old + 24 ≤ LINE }
    ensures value { line.new ≡ line.old ++ spot_or_dash place }
    ensures len { length line.new ≤ length line.old + 24 }
{
    match place {
        Some(place) => put_spot(line, place),
        None => line.text("-"),
    }
}

/// The line of an order that is broken.
#[tactic(auto, unfolding(crate::specs::Checks::broken_line))]
fn broken_line(law: Axiom, first: Place, second: Option<Place>) -> Line<LINE>
    ensures { result ≡ broken_line law first second }
{
    let mut line = Line::new();
    line.text("broken ");
    line.text(axiom_name_of(law));
    line.text(" ");
    put_spot(&mut line, first);
    line.text(" ");
    put_spot_or_dash(&mut line, second);
    line.text("\n");
    line
}

/// The line of a verdict.
fn checked_line(judgement: Judgement) -> Line<LINE>
    ensures { result ≡ checked_line judgement }
{
    match judgement {
        Judgement::Holds => {
            let mut line = Line::new();
            line.text("holds\n");
            line
        }
        Judgement::Broken {
            axiom,
            first,
            second,
        } => broken_line(axiom, first, second),
    }
}

/// The verdict on a judgement whose line was written.
fn told(judgement: Judgement) -> Verdict
    ensures { result ≡ told_of judgement }
{
    match judgement {
        Judgement::Holds => Verdict::Good,
        Judgement::Broken { .. } => Verdict::NotInOrder,
    }
}

/// The memory and the console of a report are stored in bytes.
fn has_bytes(report: &Report)
    ensures { HasBytes report.now }
{
    are_bytes(report.image.ram.as_slice());
    are_bytes(report.console.as_slice());
}

/// Reads a log and writes the verdict on its order.
pub(crate) fn write_verdict<K: Sink>(alloc: Global, text: Vec<u8>, out: &mut K) -> Verdict
    requires { length text.items ≤ 67108864 }
    ensures checked { Checked text.items (K.held out.old) (K.held out.new) result }
    ensures unchanged { HasNoText (status_of_verdict result) → out.new ≡ out.old }
    ensures fault { result ≡ Verdict.WriteFault → Rose (K.faults out.old) (K.faults out.new) }
    ensures never { result ≢ Verdict.ReadFault }
{
    match read_log(alloc, text.as_slice()) {
        Ok(report) => {
            has_bytes(&report);
            match check(alloc, &report) {
                Ok(judgement) => {
                    if write_all(out, checked_line(judgement).as_slice()).is_err() {
                        return Verdict::WriteFault;
                    }
                    told(judgement)
                }
                Err(_) => Verdict::OutOfMemory,
            }
        }
        Err(error) => match error.kind {
            LogKind::OutOfMemory => Verdict::OutOfMemory,
            kind => Verdict::Refused(Refusal::NoLog {
                line: error.line,
                kind,
            }),
        },
    }
}
