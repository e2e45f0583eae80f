//! The ties of all ports and seats, once the threads are joined.
ghost use Rattle.std.specs.Prelude.{◌≡◌, ◌<◌, [], length, get_or, slice_get, vec_len};
ghost use mathlib.Core.List.{IsPrefix};
ghost use Rattle.t1_crew.specs.Slots.{ids};
ghost use Rattle.t1_live.specs.Sides.{core_id, destination_id, crossbar_id, CoreKeeps, CrossbarKeeps};
ghost use Rattle.t1_live.specs.Wires.{AreWired};
ghost use Rattle.t1_live.specs.Whole.{AreFitting};
ghost use Rattle.t1_live.specs.Tying.{RowMeets, RowsMeet, ServedEndsMeet, PacketEndsMeet, RowTied, RowsTied, ServedTied, PacketsTied, DestinationStands};

use crate::core_agent::CoreAgent;
use crate::crossbar_agent::CrossbarAgent;
use crate::destination_agent::DestinationAgent;
use crate::lane::tie_at;
use t1_ring::row::{tie_rx, tie_tx};

/// Ties a core's lane to a destination.
fn tie_request(core: &mut CoreAgent, dest: &mut DestinationAgent, at: usize, place: usize)
    requires here { at < length core.old.to }
    requires there { place < length dest.old.from }
    requires port { slice_get core.old.to at ≡ slice_get dest.old.from place }
    ensures same { (core.new ≡ core.old) × (dest.new ≡ dest.old) }
    ensures tied { IsPrefix (get_or dest.new.received place []) (get_or core.new.sent at []) }
{
    tie_at(&mut core.lanes, at, place, &mut dest.seat);
}

/// Ties the port from a destination to the crossbar.
fn tie_served(dest: &mut DestinationAgent, crossbar: &mut CrossbarAgent, place: usize)
    requires there { place < length crossbar.old.from }
    requires port { slice_get dest.old.to 0 ≡ slice_get crossbar.old.from place }
    ensures same { (dest.new ≡ dest.old) × (crossbar.new ≡ crossbar.old) }
    ensures tied { IsPrefix (get_or crossbar.new.received place []) dest.new.served }
    ensures stands { DestinationStands dest.new }
{
    tie_tx(&mut dest.served, &mut crossbar.served, place);
}

/// Ties the port from the crossbar to a core.
fn tie_packets(crossbar: &mut CrossbarAgent, core: &mut CoreAgent, at: usize)
    requires here { at < length crossbar.old.to }
    requires port { slice_get crossbar.old.to at ≡ slice_get core.old.from 0 }
    ensures same { (crossbar.new ≡ crossbar.old) × (core.new ≡ core.old) }
    ensures tied { IsPrefix core.new.received (get_or crossbar.new.posted at []) }
    ensures stands { CoreKeeps core.new }
{
    tie_rx(&mut crossbar.packets, at, &mut core.packets);
}

/// What the crossbar keeps.
fn stands(crossbar: &CrossbarAgent)
    ensures { CrossbarKeeps crossbar.now }
{
    let _ = &crossbar.served;
}

/// Ties the lanes of one core to all destinations.
#[tactic(auto, using(crate::proofs::Tied::set_back))]
fn tie_row(core: &mut CoreAgent, dests: &mut Vec<DestinationAgent>, place: usize)
    requires { RowMeets core.old dests.old.items place }
    ensures same { (core.new ≡ core.old) × (dests.new.items ≡ dests.old.items) }
    ensures len { vec_len dests.new ≡ vec_len dests.old }
    ensures tied { RowTied core.old dests.old.items place (length dests.old.items) }
{
    for d in 0..dests.len() {
        tie_request(core, &mut dests[d], d, place);
    }
}

/// Ties the lanes of all cores to all destinations.
#[tactic(auto, using(crate::proofs::Tied::set_back))]
fn tie_rows(cores: &mut Vec<CoreAgent>, dests: &mut Vec<DestinationAgent>)
    requires { RowsMeet cores.old.items dests.old.items }
    ensures same { (cores.new.items ≡ cores.old.items) × (dests.new.items ≡ dests.old.items) }
    ensures len { (vec_len cores.new ≡ vec_len cores.old) × (vec_len dests.new ≡ vec_len dests.old) }
    ensures tied { RowsTied cores.old.items dests.old.items (length cores.old.items) }
{
    for c in 0..cores.len() {
        tie_row(&mut cores[c], dests, c);
    }
}

/// Ties the ports from all destinations to the crossbar.
#[tactic(auto, using(crate::proofs::Tied::set_back))]
fn tie_all_served(dests: &mut Vec<DestinationAgent>, crossbar: &mut CrossbarAgent)
    requires { ServedEndsMeet dests.old.items crossbar.old }
    ensures same { (dests.new.items ≡ dests.old.items) × (crossbar.new ≡ crossbar.old) }
    ensures len { vec_len dests.new ≡ vec_len dests.old }
    ensures tied { ServedTied dests.old.items crossbar.old (length dests.old.items) }
{
    for d in 0..dests.len() {
        tie_served(&mut dests[d], crossbar, d);
    }
}

/// Ties the ports from the crossbar to all cores.
#[tactic(auto, using(crate::proofs::Tied::set_back))]
fn tie_all_packets(crossbar: &mut CrossbarAgent, cores: &mut Vec<CoreAgent>)
    requires { PacketEndsMeet cores.old.items crossbar.old }
    ensures same { (crossbar.new ≡ crossbar.old) × (cores.new.items ≡ cores.old.items) }
    ensures len { vec_len cores.new ≡ vec_len cores.old }
    ensures tied { PacketsTied cores.old.items crossbar.old (length cores.old.items) }
{
    for c in 0..cores.len() {
        tie_packets(crossbar, &mut cores[c], c);
    }
}

/// Ties all ports and seats, so that the parts of the agents fit.
pub(crate) fn tie_all(
    cores: &mut Vec<CoreAgent>,
    dests: &mut Vec<DestinationAgent>,
    crossbar: &mut CrossbarAgent,
)
    requires wired { AreWired crossbar.old.setup (ids core_id cores.old.items) (ids destination_id dests.old.items) (crossbar_id crossbar.old) }
    requires full { length cores.old.items ≡ crossbar.old.setup.config.cores }
    ensures same { (cores.new.items ≡ cores.old.items) × (dests.new.items ≡ dests.old.items) × (crossbar.new ≡ crossbar.old) }
    ensures fits { AreFitting crossbar.old.setup cores.old.items dests.old.items crossbar.old }
{
    tie_rows(cores, dests);
    tie_all_served(dests, crossbar);
    tie_all_packets(crossbar, cores);
    stands(crossbar);
}
