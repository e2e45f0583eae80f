//! All agents of a run.
ghost use Rattle.std.specs.Prelude.{◌≡◌, ◌≤◌, length, IfOk};
ghost use Rattle.t1_num.specs.MemoryLaws.{AreBytes};
ghost use Rattle.t1_machine.specs.Start.{IsRunnable, setup_of};
ghost use Rattle.t1_crew.specs.Slots.{ids, AreOver};
ghost use Rattle.t1_live.specs.Sides.{core_id, destination_id, crossbar_id, is_core_over};
ghost use Rattle.t1_live.specs.Starts.{AreAtStart};
ghost use Rattle.t1_live.specs.Whole.{AreFitting};

use crate::build::{cores, destinations};
use crate::core_agent::CoreAgent;
use crate::crossbar_agent::CrossbarAgent;
use crate::destination_agent::DestinationAgent;
use crate::report::{Room, room_for};
use crate::ties::tie_all;
use std::alloc::{AllocError, Global};
use std::marker::Model;
use std::sync::Wait;
use std::thread::Threads;
use t1_crew::{Crew, Flags, Gate, run_crew};
use t1_elf::Image;
use t1_event::Config;
use t1_ring::row::ports;

/// The served accesses of a destination that the crossbar may not have taken yet.
const MOST_SERVED: usize = 2;

/// The packets that a core may not have taken yet.
const MOST_PACKETS: usize = 16;

/// All agents of a run, whose ends and seats meet, with the room of its report.
///
/// They are seen as their configuration and image, the agents, and the bytes of the console that there
/// is room for.
#[derive(Drop)]
pub struct Agents {
    pub(crate) config: Config,
    pub(crate) image: Image,
    pub(crate) cores: Vec<CoreAgent>,
    pub(crate) dests: Vec<DestinationAgent>,
    pub(crate) crossbar: CrossbarAgent,
    pub(crate) room: Room,
}

impl Model for Agents {
    ghost use Rattle.std.specs.Prelude.{vec_capacity};
    ghost use Rattle.t1_machine.specs.Start.{setup_of};
    ghost use Rattle.t1_live.specs.Whole.{AgentsState, AreAgents};
    ghost use Rattle.t1_live.specs.Rooms.{IsRoomFor};

    ghost Value = { AgentsState };

    ghost view = { λ a. record {
      setup = setup_of a.config a.image;
      cores = a.cores.items;
      dests = a.dests.items;
      crossbar = a.crossbar;
      console = vec_capacity a.room.console;
    } };

    ghost invariant = { λ a. AreAgents (setup_of a.config a.image) a.cores.items a.dests.items a.crossbar
        × IsRoomFor a.config a.room.traces.items a.room.order.items a.room.console.items (vec_capacity a.room.traces) (vec_capacity a.room.order) };
}

/// What is stored in bytes is below 256.
fn are_bytes(image: &[u8])
    ensures { AreBytes image.now }
{
    let _ = image;
}

impl Agents {
    /// The agents at their start, with all the memory of their run. Nothing is sent yet.
    pub fn build(alloc: Global, config: &Config, image: Image) -> Result<Agents, AllocError>
        requires { IsRunnable (setup_of config.now image) }
        ensures setup { IfOk result (λ a. a.setup ≡ setup_of config.now image) }
        ensures starts { IfOk result (λ a. AreAtStart a) }
    {
        are_bytes(image.ram.as_slice());
        let count = t1_shape::destinations(config.chip);
        let (senders, receivers) = ports(alloc, count as usize, MOST_SERVED)?;
        let (posters, takers) = ports(alloc, config.cores as usize, MOST_PACKETS)?;
        let crossbar = CrossbarAgent::new(alloc, config, &image, receivers, posters)?;
        let (dests, hubs) = destinations(alloc, config, &image, senders)?;
        let cores = cores(alloc, config, &image, takers, hubs, &dests, &crossbar)?;
        let room = room_for(alloc, config)?;
        Ok(Agents {
            config: *config,
            image,
            cores,
            dests,
            crossbar,
            room,
        })
    }
}

/// Turns each agent in a thread of its own until each has ended. They come back with their own numbers
/// and ends, with every strand ended and every buffer empty; their parts fit, and there is room for
/// their report. Want of memory drops them.
pub fn run_live<R: Threads + Wait + Sync, G: Gate + Sync>(
    rt: &R,
    alloc: Global,
    agents: Agents,
    gate: &G,
) -> Result<Agents, AllocError>
    ensures setup { IfOk result (λ a. a.setup ≡ agents.setup) }
    ensures same { IfOk result (λ a. (ids core_id a.cores ≡ ids core_id agents.cores) × (ids destination_id a.dests ≡ ids destination_id agents.dests) × (crossbar_id a.crossbar ≡ crossbar_id agents.crossbar)) }
    ensures over { IfOk result (λ a. AreOver is_core_over a.cores) }
    ensures fits { IfOk result (λ a. AreFitting a.setup a.cores a.dests a.crossbar) }
    ensures room { IfOk result (λ a. length a.crossbar.xbar.log ≤ a.console) }
{
    let Agents {
        config,
        image,
        cores,
        dests,
        crossbar,
        room,
    } = agents;
    let flags = Flags::new();
    let crew = Crew {
        first: cores,
        second: dests,
        last: crossbar,
    };
    let Crew {
        first: mut cores,
        second: mut dests,
        last: mut crossbar,
    } = run_crew(rt, alloc, crew, gate, &flags)?;
    tie_all(&mut cores, &mut dests, &mut crossbar);
    let console = Vec::with_capacity(alloc, crossbar.commits())?;
    let Room { traces, order, .. } = room;
    Ok(Agents {
        config,
        image,
        cores,
        dests,
        crossbar,
        room: Room {
            traces,
            order,
            console,
        },
    })
}
