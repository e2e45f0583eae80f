//! How the strands of a run ended.
ghost use Rattle.std.specs.Prelude.{◌≡◌};
ghost use Rattle.t1_cli.specs.Runs.{fault_of, spent_of, fault_from, spent_from, ended_of};

use crate::verdict::Verdict;
use t1_event::{Ending, Trace};

/// The verdict on a strand that ended by a fault.
fn fault_of(strand: usize, trace: &Trace) -> Option<Verdict>
    ensures { result ≡ fault_of strand trace.now.pc trace.now.ending }
{
    match trace.ending {
        Some(Ending::Fault(number)) => Some(Verdict::Fault {
            strand,
            number,
            pc: trace.pc,
        }),
        _ => None,
    }
}

/// The verdict on a strand that is spent.
fn spent_of(strand: usize, trace: &Trace) -> Option<Verdict>
    ensures { result ≡ spent_of strand trace.now.ending }
{
    match trace.ending {
        Some(Ending::Spent) => Some(Verdict::Spent { strand }),
        _ => None,
    }
}

/// The first strand that ended by a fault.
#[tactic(auto, unfolding(crate::specs::Runs::fault_from))]
fn first_fault(traces: &[Trace]) -> Option<Verdict>
    ensures { result ≡ fault_from 0 traces.now }
{
    for (strand, trace) in traces.iter().enumerate() {
        match fault_of(strand, trace) {
            Some(verdict) => return Some(verdict),
            None => {}
        }
    }
    None
}

/// The first strand that is spent.
#[tactic(auto, unfolding(crate::specs::Runs::spent_from))]
fn first_spent(traces: &[Trace]) -> Option<Verdict>
    ensures { result ≡ spent_from 0 traces.now }
{
    for (strand, trace) in traces.iter().enumerate() {
        match spent_of(strand, trace) {
            Some(verdict) => return Some(verdict),
            None => {}
        }
    }
    None
}

/// The verdict on how strands ended: a fault comes before a strand that is spent.
#[tactic(auto, unfolding(crate::specs::Runs::ended_of))]
pub(crate) fn ended(traces: &[Trace]) -> Verdict
    ensures { result ≡ ended_of traces.now }
{
    first_fault(traces).unwrap_or(first_spent(traces).unwrap_or(Verdict::Good))
}
