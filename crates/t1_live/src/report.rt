//! What a run that is over reports, in room that was made for it.
ghost use Rattle.std.specs.Prelude.{◌≡◌, ◌≤◌, ◌+◌, ◌*◌, ◌++◌, length, All, vec_len, vec_capacity, IfOk};
ghost use Rattle.t1_iob.specs.Console.{console_of};
ghost use Rattle.t1_machine_rule.specs.Parts.{traces_in};
ghost use Rattle.t1_machine_rule.specs.Words.{AreWords};
ghost use Rattle.t1_crew.specs.Slots.{AreOver};
ghost use Rattle.t1_live.specs.Rooms.{IsRoomFor};
ghost use Rattle.t1_live.specs.Sides.{is_core_over};
ghost use Rattle.t1_live.specs.Whole.{AreFitting, cores_of};
ghost use Rattle.t1_live.specs.Reports.{LiveEnds, Reported, LiveReports};

use crate::agents::Agents;
use crate::core_agent::CoreAgent;
use std::alloc::{AllocError, Global};
use t1_elf::Listed;
use t1_event::{Commit, Config, Place, Report, Trace};
use t1_iob::console_byte;
use t1_order::order_of;

/// The room of a report: empty lists with the memory that they will take.
#[derive(Drop)]
pub(crate) struct Room {
    pub(crate) traces: Vec<Trace>,
    pub(crate) order: Vec<Place>,
    pub(crate) console: Vec<u8>,
}

/// The most traces of which there is a memory order.
const MOST_TRACES: usize = 64;

/// Room for a trace of each strand, and for the place of each access, of which a unit has two at most.
/// The room of the console waits for the log.
pub(crate) fn room_for(alloc: Global, config: &Config) -> Result<Room, AllocError>
    requires { config.now.budget * (config.now.cores * config.now.strands) ≤ 1000000 }
    ensures { IfOk result (λ room. IsRoomFor config.now room.traces.items room.order.items room.console.items (vec_capacity room.traces) (vec_capacity room.order)) }
{
    let strands = config.cores as usize * config.strands as usize;
    let most = 2 * (config.budget as usize * strands);
    Ok(Room {
        traces: Vec::with_capacity(alloc, MOST_TRACES)?,
        order: Vec::with_capacity(alloc, most)?,
        console: Vec::new(alloc),
    })
}

/// Appends the traces of a core. Takes no memory.
fn put_core(traces: Vec<Trace>, out: &mut Vec<Trace>)
    requires { vec_len out.old + length traces.items ≤ vec_capacity out.old }
    ensures items { out.new.items ≡ out.old.items ++ traces.items }
    ensures room { vec_capacity out.old ≤ vec_capacity out.new }
{
    for trace in traces {
        out.push_reserved(trace);
    }
}

/// Appends the traces of all cores, core by core. Takes no memory.
fn put_traces(cores: Vec<CoreAgent>, out: &mut Vec<Trace>)
    requires { vec_len out.old + length (traces_in (cores_of cores.items)) ≤ vec_capacity out.old }
    ensures { out.new.items ≡ out.old.items ++ traces_in (cores_of cores.items) }
{
    for core in cores {
        put_core(core.into_core().into_traces(), out);
    }
}

/// The units and the PC of a trace are words of 32 and of 64 bits.
fn is_of_words(trace: &Trace)
    ensures { AreWords trace.now }
{
    let _units = trace.units;
    let _pc = trace.pc;
}

/// So are those of all traces.
fn are_words(traces: &[Trace])
    ensures { All AreWords traces.now }
{
    for trace in traces {
        is_of_words(trace);
    }
}

/// Appends the bytes that the commits of a log put on the console, in order. Takes no memory.
fn put_console(log: &[Commit], out: &mut Vec<u8>)
    requires { vec_len out.old + length log.now ≤ vec_capacity out.old }
    ensures { out.new.items ≡ out.old.items ++ console_of log.now }
{
    for commit in log {
        if let Some(byte) = console_byte(commit) {
            out.push_reserved(byte);
        }
    }
}

impl Agents {
    /// What holds of agents that fit and are over: their traces and log are a joint history, which can
    /// be listed by keys, in the room that there is.
    fn ends(&self)
        requires over { AreOver is_core_over self.now.cores }
        requires fits { AreFitting self.now.setup self.now.cores self.now.dests self.now.crossbar }
        ensures { LiveEnds self.now.setup (traces_in (cores_of self.now.cores)) self.now.crossbar.xbar.log }
    {
        let _room = &self.room;
    }

    /// The report of agents that fit and are over, with room for the console: the traces of all
    /// strands, core by core, and the log, which are a joint history, the memory order, which obeys
    /// total store order, and the bytes that reached the console. Its units and PCs are words of 32 and
    /// of 64 bits. Takes no memory.
    pub fn into_report(self) -> Report
        requires over { AreOver is_core_over self.cores }
        requires fits { AreFitting self.setup self.cores self.dests self.crossbar }
        requires room { length self.crossbar.xbar.log ≤ self.console }
        ensures report { Reported self result }
        ensures history { LiveEnds self.setup (traces_in (cores_of self.cores)) self.crossbar.xbar.log }
        ensures obeys { LiveReports self result.order }
        ensures words { All AreWords result.traces }
    {
        self.ends();
        let Agents {
            config,
            image,
            cores,
            crossbar,
            room,
            ..
        } = self;
        let Room {
            mut traces,
            mut order,
            mut console,
        } = room;
        let log = crossbar.into_log();
        put_traces(cores, &mut traces);
        are_words(traces.as_slice());
        order_of(&traces, &log, &mut order);
        put_console(&log, &mut console);
        Report {
            config,
            image,
            traces: Listed::from_vec(traces),
            log: Listed::from_vec(log),
            order: Listed::from_vec(order),
            console: Listed::from_vec(console),
        }
    }
}
