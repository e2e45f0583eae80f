ghost use Rattle.std.specs.Prelude.{◌≡◌};

use std::test::Fail;
use t1_packet::{Op, Request};
use t1_ring::row::{pop_any, pop_at, ports, rooms, send_at, tie_at, tie_rx, tie_tx};
use t1_ring::{port, request_queue, tie};

#[test]
fn what_is_sent_comes_in_order(rt: HostRuntime) -> Result<(), Fail> {
    let (mut tx, mut rx) = port(rt.alloc(), 2)?;
    assert_eq!(rt; tx.room(), 2);
    assert_eq!(rt; rx.pop().is_none(), true);
    assert_eq!(rt; tx.push(7u32).is_ok(), true);
    assert_eq!(rt; tx.push(8).is_ok(), true);
    assert_eq!(rt; tx.push(9).err(), Some(9));
    assert_eq!(rt; rx.pop(), Some(7));
    assert_eq!(rt; tx.push(10).is_ok(), true);
    tie(&mut tx, &mut rx);
    assert_eq!(rt; rx.pop(), Some(8));
    assert_eq!(rt; rx.pop(), Some(10));
    assert_eq!(rt; rx.pop(), None);
    Ok(())
}

#[test]
fn ends_in_a_row_are_tried_in_a_circle(rt: HostRuntime) -> Result<(), Fail> {
    let (mut senders, mut receivers) = ports(rt.alloc(), 3, 1)?;
    assert_eq!(rt; rooms(&mut senders), 0b111);
    for place in [0usize, 2] {
        let word = rooms(&mut senders);
        if place < senders.len() && (word >> place) % 2 == 1 {
            send_at(&mut senders, place, 10 + place);
        }
    }
    assert_eq!(rt; rooms(&mut senders), 0b010);
    assert_eq!(rt; pop_any(&mut receivers, 1), Some((2, 12)));
    assert_eq!(rt; pop_any(&mut receivers, 7), Some((0, 10)));
    assert_eq!(rt; pop_any(&mut receivers, 1), None);
    assert_eq!(rt; rooms(&mut senders), 0b111);
    Ok(())
}

/// A request of core 0 for one of its items.
fn request(item: u32) -> Request
    ensures { result.core ≡ 0 }
{
    Request {
        core: 0,
        strand: 0,
        item,
        seen: 0,
        op: Op::Load {
            addr: 0,
            size: 8,
            way: 0,
        },
    }
}

#[test]
fn a_queue_of_one_core_holds_two(rt: HostRuntime) -> Result<(), Fail> {
    let (queue, seats, mut dest) = request_queue(rt.alloc(), 1)?;
    let mut seats = seats.into_iter();
    let mut seat = seats.next().expect(&rt, "a seat");
    assert_eq!(rt; queue.push(&rt, &mut seat, request(1)), Ok(()));
    assert_eq!(rt; queue.push(&rt, &mut seat, request(2)), Ok(()));
    assert_eq!(rt; queue.push(&rt, &mut seat, request(3)), Err(request(3)));
    queue.tie(&mut seat, &mut dest);
    assert_eq!(rt; queue.pop(&rt, &mut dest), Some(request(1)));
    assert_eq!(rt; queue.pop(&rt, &mut dest), Some(request(2)));
    assert_eq!(rt; queue.pop(&rt, &mut dest), None);
    queue.give_back(seat, &mut dest);
    Ok(())
}
