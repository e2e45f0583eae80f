//! What a finished chip reports, in room that was made for it.
ghost use Rattle.std.specs.Prelude.{◌≡◌, ◌≤◌, ◌+◌, ◌*◌, ◌++◌, length, All, vec_len, vec_capacity, IfOk};
ghost use Rattle.t1_iob.specs.Console.{console_of};
ghost use Rattle.t1_machine_rule.specs.Parts.{traces_in};
ghost use Rattle.t1_machine_rule.specs.Words.{AreWords};
ghost use Rattle.t1_chip.specs.Rooms.{IsRoomFor};

use std::alloc::{AllocError, Global};
use t1_core::Core;
use t1_event::{Commit, Config, Place, Trace};
use t1_iob::console_byte;

/// The room of a report: empty lists with the memory that they will take.
#[derive(Drop)]
pub(crate) struct Room {
    pub(crate) traces: Vec<Trace>,
    pub(crate) order: Vec<Place>,
    pub(crate) console: Vec<u8>,
}

/// The most traces of which there is a memory order.
const MOST_TRACES: usize = 64;

/// Room for a trace of each strand, for the place of each access, and for a byte of each commit: a unit
/// has at most two of each.
pub(crate) fn room_for(alloc: Global, config: &Config) -> Result<Room, AllocError>
    requires { config.now.budget * (config.now.cores * config.now.strands) ≤ 1000000 }
    ensures { IfOk result (λ room. IsRoomFor config.now room.traces.items room.order.items room.console.items (vec_capacity room.traces) (vec_capacity room.order) (vec_capacity room.console)) }
{
    let strands = config.cores as usize * config.strands as usize;
    let most = 2 * (config.budget as usize * strands);
    Ok(Room {
        traces: Vec::with_capacity(alloc, MOST_TRACES)?,
        order: Vec::with_capacity(alloc, most)?,
        console: Vec::with_capacity(alloc, most)?,
    })
}

/// Appends the traces of a core. Takes no memory.
fn put_core(traces: Vec<Trace>, out: &mut Vec<Trace>)
    requires { vec_len out.old + length traces.items ≤ vec_capacity out.old }
    ensures items { out.new.items ≡ out.old.items ++ traces.items }
    ensures room { vec_capacity out.old ≤ vec_capacity out.new }
{
    for trace in traces {
        out.push_reserved(trace);
    }
}

/// Appends the traces of all cores, core by core. Takes no memory.
pub(crate) fn put_traces(cores: Vec<Core>, out: &mut Vec<Trace>)
    requires { vec_len out.old + length (traces_in cores.items) ≤ vec_capacity out.old }
    ensures { out.new.items ≡ out.old.items ++ traces_in cores.items }
{
    for core in cores {
        put_core(core.into_traces(), out);
    }
}

/// The units and the PC of a trace are words of 32 and of 64 bits.
fn is_of_words(trace: &Trace)
    ensures { AreWords trace.now }
{
    let _units = trace.units;
    let _pc = trace.pc;
}

/// So are those of all traces.
pub(crate) fn are_words(traces: &[Trace])
    ensures { All AreWords traces.now }
{
    for trace in traces {
        is_of_words(trace);
    }
}

/// Appends the bytes that the commits of a log put on the console, in order. Takes no memory.
pub(crate) fn put_console(log: &[Commit], out: &mut Vec<u8>)
    requires { vec_len out.old + length log.now ≤ vec_capacity out.old }
    ensures { out.new.items ≡ out.old.items ++ console_of log.now }
{
    for commit in log {
        if let Some(byte) = console_byte(commit) {
            out.push_reserved(byte);
        }
    }
}
