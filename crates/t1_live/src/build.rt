//! The agents at their start.
ghost use Rattle.std.specs.Prelude.{◌≡◌, [], length, IfOk};
ghost use Rattle.t1_shape.specs.Numbers.{destinations};
ghost use Rattle.t1_machine.specs.Start.{IsRunnable, setup_of};
ghost use Rattle.t1_ring.specs.Row.{sent_by, received_by, tx_marks, rx_marks, AreUnused};
ghost use Rattle.t1_crew.specs.Slots.{ids};
ghost use Rattle.t1_live.specs.Sides.{core_id, destination_id, crossbar_id};
ghost use Rattle.t1_live.specs.Lanes.{hubs_at, queues_of};
ghost use Rattle.t1_live.specs.Wires.{AreWired, AreServing};
ghost use Rattle.t1_live.specs.Starts.{AllStart, ServedNothing};

use crate::core_agent::CoreAgent;
use crate::crossbar_agent::CrossbarAgent;
use crate::destination_agent::DestinationAgent;
use crate::hubs::{Hub, lanes, queue_for};
use std::alloc::{AllocError, Global};
use t1_elf::Image;
use t1_event::Config;
use t1_packet::{Packet, Served};
use t1_ring::{Rx, Tx};

/// The destinations, with the sending ends of what they serve, and the hubs of their queues.
pub(crate) fn destinations(
    alloc: Global,
    config: &Config,
    image: &Image,
    ends: Vec<Tx<Served>>,
) -> Result<(Vec<DestinationAgent>, Vec<Hub>), AllocError>
    requires runs { IsRunnable (setup_of config.now image.now) }
    requires all { length ends.items ≡ destinations config.now.chip }
    requires unused { AreUnused (sent_by ends.items) }
    ensures served { IfOk result (λ r. ServedNothing r.0.items) }
    ensures len { IfOk result (λ r. (length r.0.items ≡ destinations config.now.chip) × (length r.1.items ≡ destinations config.now.chip)) }
    ensures hubs { IfOk result (λ r. r.1.items ≡ hubs_at 0 0 config.now.cores (queues_of r.1.items)) }
    ensures serving { IfOk result (λ r. AreServing (setup_of config.now image.now) (ids destination_id r.0.items) (queues_of r.1.items) (tx_marks ends.items)) }
{
    let count = t1_shape::destinations(config.chip);
    let mut dests = Vec::with_capacity(alloc, count as usize)?;
    let mut hubs = Vec::with_capacity(alloc, count as usize)?;
    let mut dest = 0u8;
    for end in ends {
        let (next, queue, seat) = queue_for(alloc, config.cores)?;
        dests.push_reserved(DestinationAgent::new(alloc, config, image, dest, queue, seat, end)?);
        hubs.push_reserved(next);
        dest += 1;
    }
    Ok((dests, hubs))
}

/// The cores, with the receiving ends of their packets, and with a seat at each of these queues.
pub(crate) fn cores(
    alloc: Global,
    config: &Config,
    image: &Image,
    ends: Vec<Rx<Packet>>,
    hubs: Vec<Hub>,
    dests: &Vec<DestinationAgent>,
    crossbar: &CrossbarAgent,
) -> Result<Vec<CoreAgent>, AllocError>
    requires runs { IsRunnable (setup_of config.now image.now) }
    requires count { length ends.items ≡ config.now.cores }
    requires unused { AreUnused (received_by ends.items) }
    requires marks { crossbar.now.to ≡ rx_marks ends.items }
    requires all { length hubs.items ≡ destinations config.now.chip }
    requires hubs { hubs.items ≡ hubs_at 0 0 config.now.cores (queues_of hubs.items) }
    requires serving { AreServing (setup_of config.now image.now) (ids destination_id dests.now.items) (queues_of hubs.items) crossbar.now.from }
    requires wired { AreWired (setup_of config.now image.now) [] (ids destination_id dests.now.items) (crossbar_id crossbar.now) }
    ensures starts { IfOk result (λ cores. AllStart cores.items) }
    ensures full { IfOk result (λ cores. length cores.items ≡ config.now.cores) }
    ensures wired { IfOk result (λ cores. AreWired (setup_of config.now image.now) (ids core_id cores.items) (ids destination_id dests.now.items) (crossbar_id crossbar.now)) }
{
    let _ = dests;
    let _ = crossbar;
    let mut hubs = hubs;
    let mut cores = Vec::with_capacity(alloc, config.cores as usize)?;
    let mut number = 0u8;
    for end in ends {
        let lanes = lanes(alloc, &mut hubs, number, config.cores)?;
        cores.push_reserved(CoreAgent::new(alloc, config, image, number, lanes, end)?);
        number += 1;
    }
    Ok(cores)
}
