//! The rule of a request queue, and the calls that keep it.

use crossbeam_queue::RuledArrayQueue;
use crossbeam_queue::protocol::{Join, Lesson, Outcome, Protocol, Split};
use std::collections::LinkedList;
use t1_packet::Request;

/// What a seat had pushed that was given back. No value of it is made.
pub struct Returned {
    pub core: u8,
    pub pushed: LinkedList<Request>,
}

/// What a pass may do, and what it has done. No value of it is made.
pub struct Account {
    pub pushes: bool,
    pub takes: bool,
    pub core: u8,
    pub pushed: LinkedList<Request>,
    pub taken: LinkedList<Request>,
    pub cores: u8,
    pub back: LinkedList<Returned>,
}

/// What a core pushed is what was taken of it, and then what the queue holds of it.
pub struct InOrder;

impl Protocol<Request, Account> for InOrder {
    ghost use Rattle.std.specs.Prelude.{[]};
    ghost use Rattle.t1_ring.specs.QueueRule.{IsInOrder, taking};

    ghost holds = { IsInOrder };

    ghost first = { taking [] 0 [] };
}

/// A pass is made for the next core, and is given back with the list that it pushed.
pub struct Seats;

impl Split<Account> for Seats {
    ghost use Rattle.std.specs.Prelude.{[], ◌+◌};
    ghost use Rattle.t1_ring.specs.QueueRule.{taking, pushing};

    ghost left = { λ v. taking v.taken (v.cores + 1) v.back };

    ghost right = { λ v. pushing v.cores [] };
}

impl Join<Account> for Seats {
    ghost use Rattle.std.specs.Prelude.{◌∷◌};
    ghost use Rattle.t1_ring.specs.QueueRule.{taking, spent, returned};

    ghost both = { λ v w. taking v.taken v.cores (returned w.core w.pushed ∷ v.back) };

    ghost spent = { spent };
}

/// A pass that may do nothing.
pub struct Spare;

impl Split<Account> for Spare {
    ghost use Rattle.t1_ring.specs.QueueRule.{spent};

    ghost left = { λ v. v };

    ghost right = { λ v. spent };
}

/// The seat that came back last is handed out again.
pub struct Again;

impl Split<Account> for Again {
    ghost use Rattle.t1_ring.specs.QueueRule.{taking, last_back, before_last};

    ghost left = { λ v. taking v.taken v.cores (before_last v.back) };

    ghost right = { λ v. last_back v.back };
}

/// A request was pushed.
pub struct Pushed;

impl Outcome<Request, Account> for Pushed {
    ghost use Rattle.t1_ring.specs.QueueRule.{PushesOne};

    ghost then = { PushesOne };
}

impl Lesson<Request, Account> for Pushed {
    ghost use Rattle.std.specs.Prelude.{⊤};

    ghost fact = { λ v items. ⊤ };
}

/// A request was taken.
pub struct Taken;

impl Outcome<Request, Account> for Taken {
    ghost use Rattle.t1_ring.specs.QueueRule.{TakesOne};

    ghost then = { TakesOne };
}

impl Lesson<Request, Account> for Taken {
    ghost use Rattle.std.specs.Prelude.{⊤};

    ghost fact = { λ v items. ⊤ };
}

/// What was taken of the cores whose seats are back is the first of what they pushed.
pub struct First;

impl Lesson<Request, Account> for First {
    ghost use Rattle.t1_ring.specs.Queue.{AreFirst};

    ghost fact = { λ v items. AreFirst v.taken v.back };
}

pub type Line = RuledArrayQueue<Request, Account, InOrder>;
