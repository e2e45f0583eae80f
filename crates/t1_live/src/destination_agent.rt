//! The agent of a destination.
ghost use Rattle.std.specs.Prelude.{◌≡◌, ◌+◌, ◌<◌, ◌∷◌, [], true, IfOk};
ghost use Rattle.std.specs.Arc.{arc_value};
ghost use Rattle.t1_shape.specs.Numbers.{destinations};
ghost use Rattle.t1_machine.specs.Start.{IsRunnable, setup_of};
ghost use Rattle.t1_live.specs.Lanes.{seats_of};
ghost use Rattle.t1_live.specs.Rules.{served_with, bank_after_one, IsBank};
ghost use Rattle.t1_live.specs.Sides.{destination_id, is_over};

use crate::numbers::{FIRST_DESTINATION, cores_of};
use std::alloc::{AllocError, Global};
use std::marker::Model;
use std::snapshot::Snapshot;
use std::sync::{Arc, Wait};
use t1_bank::Bank;
use t1_crew::{Agent, Flags, Turned};
use t1_elf::Image;
use t1_event::Config;
use t1_iob::serve_io;
use t1_packet::{Request, Served};
use t1_ring::{DestSeat, RequestQueue, Tx};

/// A destination, a bank or the I/O bridge, with its seat at the queue of its requests, and the sending
/// end of what it serves.
#[derive(Drop)]
pub struct DestinationAgent {
    config: Config,
    image: Snapshot<Image>,
    dest: u8,
    bank: Option<Bank>,
    queue: Arc<RequestQueue, Global>,
    pub(crate) seat: DestSeat,
    pub(crate) served: Tx<Served>,
}

impl Model for DestinationAgent {
    ghost use Rattle.std.specs.Prelude.{◌≡◌, [], ◌∷◌};
    ghost use Rattle.std.specs.Arc.{arc_value};
    ghost use Rattle.t1_machine.specs.Start.{setup_of};
    ghost use Rattle.t1_live.specs.Lanes.{seats_of, by_core};
    ghost use Rattle.t1_live.specs.Rules.{IsDestinationSide};
    ghost use Rattle.t1_live.specs.Sides.{DestinationSide};

    ghost Value = { DestinationSide };

    ghost view = { λ a. record {
      setup = setup_of a.config a.image.value;
      dest = a.dest;
      bank = a.bank;
      received = by_core a.seat.taken 0 a.seat.cores;
      served = a.served.sent;
      to = a.served.mark ∷ [];
      from = seats_of a.seat.queue 0 a.seat.cores;
    } };

    ghost invariant = { λ a. IsDestinationSide (setup_of a.config a.image.value) a.dest a.bank (by_core a.seat.taken 0 a.seat.cores) a.served.sent × (a.seat.queue ≡ (arc_value a.queue).name) };
}

/// What came of trying to serve.
enum Service {
    Served,
    NoRequest,
    NoRoom,
}

/// A bank serves a request, or the I/O bridge does.
fn serve_at(bank: &mut Option<Bank>, request: Request) -> Served
    ensures served { result ≡ served_with bank.old request }
    ensures after { bank.new ≡ bank_after_one bank.old request }
{
    match bank {
        Some(bank) => bank.serve(request),
        None => serve_io(request),
    }
}

/// The bank of a destination, or none for the I/O bridge, which is the last.
fn bank_of(
    alloc: Global,
    config: &Config,
    image: &Image,
    dest: u8,
) -> Result<Option<Bank>, AllocError>
    requires runs { IsRunnable (setup_of config.now image.now) }
    requires dest { dest < destinations config.now.chip }
    ensures { IfOk result (λ bank. IsBank (setup_of config.now image.now) dest [] bank) }
{
    if dest == t1_shape::banks(config.chip) {
        return Ok(None);
    }
    let bank = Bank::new(alloc, dest, config, image.ram.as_slice())?;
    Ok(Some(bank))
}

impl DestinationAgent {
    /// A destination at its start, with a queue from which it took nothing.
    pub(crate) fn new(
        alloc: Global,
        config: &Config,
        image: &Image,
        dest: u8,
        queue: Arc<RequestQueue, Global>,
        seat: DestSeat,
        served: Tx<Served>,
    ) -> Result<DestinationAgent, AllocError>
        requires runs { IsRunnable (setup_of config.now image.now) }
        requires dest { dest < destinations config.now.chip }
        requires queue { seat.queue ≡ (arc_value queue).name }
        requires unused { seat.taken ≡ [] }
        requires none { served.sent ≡ [] }
        ensures none { IfOk result (λ a. a.served ≡ []) }
        ensures id { IfOk result (λ a. destination_id a ≡ record { setup = setup_of config.now image.now; number = 8 + dest; to = served.mark ∷ []; from = seats_of seat.queue 0 seat.cores }) }
    {
        let bank = bank_of(alloc, config, image, dest)?;
        Ok(DestinationAgent {
            config: *config,
            image: Snapshot::of(image),
            dest,
            bank,
            queue,
            seat,
            served,
        })
    }

    /// Serves the request that is there longest, if there is one and room for what is served.
    fn serve<R: Wait>(&mut self, rt: &R) -> Service
        ensures { destination_id self.new ≡ destination_id self.old }
    {
        if self.served.room() == 0 {
            return Service::NoRoom;
        }
        let Some(request) = self.queue.pop(rt, &mut self.seat) else {
            return Service::NoRequest;
        };
        let served = serve_at(&mut self.bank, request);
        match self.served.push(served) {
            Ok(()) => {}
            Err(_) => unreachable!(),
        }
        Service::Served
    }
}

impl Agent for DestinationAgent {
    ghost use Rattle.t1_live.specs.Sides.{destination_id, is_over};

    ghost id = { destination_id };

    ghost over = { is_over };

    fn number(&self) -> u8 {
        FIRST_DESTINATION + self.dest
    }

    /// Serves a request. A destination ends where all cores were done before its queue was empty.
    fn turn<R: Wait>(&mut self, rt: &R, flags: &Flags) -> Turned
        ensures same { destination_id self.new ≡ destination_id self.old }
        ensures over { result ≡ Turned.Ended → is_over self.new ≡ true }
    {
        let done = flags.are_done(cores_of(self.config.cores));
        match self.serve(rt) {
            Service::Served => Turned::Worked,
            Service::NoRequest if done => {
                flags.say_ended(FIRST_DESTINATION + self.dest);
                Turned::Ended
            }
            Service::NoRequest => Turned::Idle,
            Service::NoRoom => Turned::Idle,
        }
    }
}
