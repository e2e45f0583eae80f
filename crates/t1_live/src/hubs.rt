//! The request queues, as the agents are built.
ghost use Rattle.std.specs.Prelude.{◌≡◌, ◌+◌, ◌<◌, ◌≤◌, [], IfOk, length};
ghost use Rattle.std.specs.Arc.{arc_value};
ghost use Rattle.t1_ring.specs.Ends.{Seat};
ghost use Rattle.t1_ring.specs.Row.{sent_by, tx_marks, AreUnused};
ghost use Rattle.t1_live.specs.Lanes.{HubState, hub_at, hubs_at, queues_of, seats_at, AreOf};

use crate::lane::Lane;
use std::alloc::{AllocError, Global};
use std::marker::Model;
use std::sync::Arc;
use std::vec::IntoIter;
use t1_ring::{CoreSeat, DestSeat, RequestQueue, request_queue};

/// The queue of one destination, with the seats of the cores that have no agent yet.
#[derive(Drop)]
pub(crate) struct Hub {
    queue: Arc<RequestQueue, Global>,
    seats: IntoIter<CoreSeat, Global>,
}

impl Model for Hub {
    ghost use Rattle.std.specs.Arc.{arc_value};
    ghost use Rattle.std.specs.Vec.Iter.{into_iter_items};
    ghost use Rattle.t1_live.specs.Lanes.{HubState};

    ghost Value = { HubState };

    ghost view = { λ h. record { queue = (arc_value h.queue).name; seats = into_iter_items h.seats } };
}

/// A queue for so many cores, with its destination's seat.
pub(crate) fn queue_for(
    alloc: Global,
    cores: u8,
) -> Result<(Hub, Arc<RequestQueue, Global>, DestSeat), AllocError>
    requires some { 0 < cores }
    requires few { cores ≤ 8 }
    ensures hub { IfOk result (λ r. r.0 ≡ hub_at 0 cores (arc_value r.1).name) }
    ensures seat { IfOk result (λ r. r.2 ≡ record { queue = (arc_value r.1).name; cores = cores; taken = []; back = [] }) }
{
    let (queue, seats, seat) = request_queue(alloc, cores)?;
    let queue = Arc::new(alloc, queue)?;
    let shared = Arc::try_clone(&queue)?;
    let hub = Hub {
        queue: shared,
        seats: seats.into_iter(),
    };
    Ok((hub, queue, seat))
}

impl Hub {
    /// The lane of the next core.
    fn lane(&mut self, core: u8, cores: u8) -> Result<Lane, AllocError>
        requires next { self.old ≡ hub_at core cores self.old.queue }
        requires within { core < cores }
        ensures hub { self.new ≡ hub_at (core + 1) cores self.old.queue }
        ensures lane { IfOk result (λ lane. (lane.mark ≡ Seat self.old.queue core) × (lane.sent ≡ [])) }
    {
        let Some(seat) = self.seats.next() else {
            unreachable!()
        };
        let _ = (core, cores);
        let queue = Arc::try_clone(&self.queue)?;
        Ok(Lane::new(queue, seat))
    }
}

/// The lanes of the next core, one to each destination.
pub(crate) fn lanes(
    alloc: Global,
    hubs: &mut Vec<Hub>,
    core: u8,
    cores: u8,
) -> Result<Vec<Lane>, AllocError>
    requires next { hubs.old.items ≡ hubs_at 0 core cores (queues_of hubs.old.items) }
    requires within { core < cores }
    ensures queues { IfOk result (λ lanes. hubs.new.items ≡ hubs_at 0 (core + 1) cores (queues_of hubs.old.items)) }
    ensures marks { IfOk result (λ lanes. tx_marks lanes.items ≡ seats_at core (queues_of hubs.old.items)) }
    ensures unused { IfOk result (λ lanes. AreUnused (sent_by lanes.items)) }
{
    let mut lanes = Vec::with_capacity(alloc, hubs.len())?;
    for d in 0..hubs.len() {
        let lane = hubs[d].lane(core, cores)?;
        lanes.push_reserved(lane);
    }
    Ok(lanes)
}
