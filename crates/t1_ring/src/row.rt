//! Ends of ports in a row.
ghost use Rattle.std.specs.Prelude.{ℕ, ◌≡◌, ◌≢◌, ◌<◌, ◌≤◌, ◌∷◌, [], true, IfOk, OnOk, IsOk, IfErr, IfSome, IfNone, length, get_or, slice_get, vec_len};
ghost use mathlib.Core.List.{IsPrefix};
ghost use Rattle.t1_ring.specs.Row.{sent_by, rooms_of, tx_marks, received_by, rx_marks, has_bit, AreUnused, with_more};

use crate::ends::{Rx, Tx, port, tie};
use std::alloc::{AllocError, Global};

/// So many ports of so many slots, as their sending and their receiving ends.
pub fn ports<T: Drop>(
    alloc: Global,
    count: usize,
    capacity: usize,
) -> Result<(Vec<Tx<T>>, Vec<Rx<T>>), AllocError>
    ensures marks { IfOk result (λ ends. tx_marks ends.0.items ≡ rx_marks ends.1.items) }
    ensures unused { IfOk result (λ ends. AreUnused (sent_by ends.0.items) × AreUnused (received_by ends.1.items)) }
    ensures count { IfOk result (λ ends. (length ends.0.items ≡ count) × (length ends.1.items ≡ count)) }
{
    let mut senders = Vec::with_capacity(alloc, count)?;
    let mut receivers = Vec::with_capacity(alloc, count)?;
    for _ in 0..count {
        let (tx, rx) = port(alloc, capacity)?;
        senders.push_reserved(tx);
        receivers.push_reserved(rx);
    }
    Ok((senders, receivers))
}

/// Sends by one of the ends. Where it knows of no free slot, the value comes back, and nothing was sent.
#[tactic(auto, using(crate::proofs::Sets::sent_more, crate::proofs::Sets::sent_same, crate::proofs::Sets::tx_mark_same, crate::proofs::Sets::room_here))]
fn push_at<T: Drop>(ends: &mut Vec<Tx<T>>, at: usize, value: T) -> Result<(), T>
    requires { at < vec_len ends.old }
    ensures marks { tx_marks ends.new.items ≡ tx_marks ends.old.items }
    ensures len { vec_len ends.new ≡ vec_len ends.old }
    ensures ok { OnOk result (sent_by ends.new.items ≡ with_more (sent_by ends.old.items) at value) }
    ensures full { IfErr result (λ back. (back ≡ value) × (sent_by ends.new.items ≡ sent_by ends.old.items)) }
    ensures succeeds { 0 < get_or (rooms_of ends.old.items) at 0 → IsOk result }
    ensures others { (j : ℕ) → j ≢ at → get_or (rooms_of ends.new.items) j 0 ≡ get_or (rooms_of ends.old.items) j 0 }
{
    ends[at].push(value)
}

/// Sends by one of the ends, which knows of a free slot. Takes no memory.
pub fn send_at<T: Drop>(ends: &mut Vec<Tx<T>>, at: usize, value: T)
    requires within { at < vec_len ends.old }
    requires room { 0 < get_or (rooms_of ends.old.items) at 0 }
    ensures marks { tx_marks ends.new.items ≡ tx_marks ends.old.items }
    ensures len { vec_len ends.new ≡ vec_len ends.old }
    ensures sent { sent_by ends.new.items ≡ with_more (sent_by ends.old.items) at value }
    ensures others { (j : ℕ) → j ≢ at → get_or (rooms_of ends.new.items) j 0 ≡ get_or (rooms_of ends.old.items) j 0 }
{
    match push_at(ends, at, value) {
        Ok(()) => {}
        Err(_) => unreachable!(),
    }
}

/// 1 only where the end knows of a free slot, else 0.
#[tactic(auto, using(crate::proofs::Sets::sent_same, crate::proofs::Sets::tx_mark_same))]
fn room_at<T: Drop>(ends: &mut Vec<Tx<T>>, at: usize) -> u8
    requires { at < vec_len ends.old }
    ensures bit { result < 2 }
    ensures marks { tx_marks ends.new.items ≡ tx_marks ends.old.items }
    ensures len { vec_len ends.new ≡ vec_len ends.old }
    ensures sent { sent_by ends.new.items ≡ sent_by ends.old.items }
    ensures here { result ≡ 1 → 0 < get_or (rooms_of ends.new.items) at 0 }
    ensures others { (j : ℕ) → j ≢ at → get_or (rooms_of ends.new.items) j 0 ≡ get_or (rooms_of ends.old.items) j 0 }
{
    ends[at].room().min(1) as u8
}

/// A bit for each end, set only where it knows of a free slot. Takes no memory.
pub fn rooms<T: Drop>(ends: &mut Vec<Tx<T>>) -> u8
    requires { vec_len ends.old ≤ 8 }
    ensures marks { tx_marks ends.new.items ≡ tx_marks ends.old.items }
    ensures len { vec_len ends.new ≡ vec_len ends.old }
    ensures sent { sent_by ends.new.items ≡ sent_by ends.old.items }
    ensures room { (j : ℕ) → has_bit result j ≡ true → 0 < get_or (rooms_of ends.new.items) j 0 }
{
    let count = ends.len();
    let mut bits = 0u8;
    for k in 0..count {
        bits = 2 * bits + room_at(ends, count - 1 - k);
    }
    bits
}

/// Takes the next item of one of the ends. Takes no memory.
#[tactic(auto, using(crate::proofs::Sets::got_more, crate::proofs::Sets::got_same, crate::proofs::Sets::rx_mark_same))]
pub fn pop_at<T: Drop>(ends: &mut Vec<Rx<T>>, at: usize) -> Option<T>
    requires { at < vec_len ends.old }
    ensures marks { rx_marks ends.new.items ≡ rx_marks ends.old.items }
    ensures len { vec_len ends.new ≡ vec_len ends.old }
    ensures some { IfSome result (λ item. received_by ends.new.items ≡ with_more (received_by ends.old.items) at item) }
    ensures none { IfNone result (received_by ends.new.items ≡ received_by ends.old.items) }
{
    ends[at].pop()
}

/// Takes the next item of the first end, cyclically from one on, that knows of any: the place of the
/// end, and the item. Takes no memory.
pub fn pop_any<T: Drop>(ends: &mut Vec<Rx<T>>, from: usize) -> Option<(usize, T)>
    ensures marks { rx_marks ends.new.items ≡ rx_marks ends.old.items }
    ensures len { vec_len ends.new ≡ vec_len ends.old }
    ensures some { IfSome result (λ next. (next.0 < vec_len ends.old) × (received_by ends.new.items ≡ with_more (received_by ends.old.items) next.0 next.1)) }
    ensures none { IfNone result (received_by ends.new.items ≡ received_by ends.old.items) }
{
    let count = ends.len();
    let mut at = if from < count { from } else { 0 };
    for _ in 0..count {
        if let Some(item) = pop_at(ends, at) {
            return Some((at, item));
        }
        at += 1;
        if at == count {
            at = 0;
        }
    }
    None
}

/// Ties one of the sending ends to one of the receiving ends. Takes no memory.
#[tactic(auto, using(crate::proofs::Sets::sent_same, crate::proofs::Sets::tx_mark_same, crate::proofs::Sets::got_same, crate::proofs::Sets::rx_mark_same))]
pub fn tie_at<T: Drop>(ends: &mut Vec<Tx<T>>, at: usize, others: &mut Vec<Rx<T>>, place: usize)
    requires here { at < vec_len ends.old }
    requires there { place < vec_len others.old }
    requires port { slice_get (tx_marks ends.old.items) at ≡ slice_get (rx_marks others.old.items) place }
    ensures tx { (tx_marks ends.new.items ≡ tx_marks ends.old.items) × (sent_by ends.new.items ≡ sent_by ends.old.items) × (vec_len ends.new ≡ vec_len ends.old) }
    ensures rx { (rx_marks others.new.items ≡ rx_marks others.old.items) × (received_by others.new.items ≡ received_by others.old.items) × (vec_len others.new ≡ vec_len others.old) }
    ensures tied { IsPrefix (get_or (received_by others.new.items) place []) (get_or (sent_by ends.new.items) at []) }
{
    let tx = &mut ends[at];
    let rx = &mut others[place];
    tie(tx, rx);
}

/// Ties a sending end to one of the receiving ends. Takes no memory.
#[tactic(auto, using(crate::proofs::Sets::got_same, crate::proofs::Sets::rx_mark_same))]
pub fn tie_tx<T: Drop>(tx: &mut Tx<T>, others: &mut Vec<Rx<T>>, place: usize)
    requires there { place < vec_len others.old }
    requires port { slice_get (tx.old.mark ∷ []) 0 ≡ slice_get (rx_marks others.old.items) place }
    ensures tx { (tx.new.mark ≡ tx.old.mark) × (tx.new.sent ≡ tx.old.sent) }
    ensures rx { (rx_marks others.new.items ≡ rx_marks others.old.items) × (received_by others.new.items ≡ received_by others.old.items) × (vec_len others.new ≡ vec_len others.old) }
    ensures tied { IsPrefix (get_or (received_by others.new.items) place []) tx.new.sent }
{
    tie(tx, &mut others[place]);
}

/// Ties one of the sending ends to a receiving end. Takes no memory.
#[tactic(auto, using(crate::proofs::Sets::sent_same, crate::proofs::Sets::tx_mark_same))]
pub fn tie_rx<T: Drop>(ends: &mut Vec<Tx<T>>, at: usize, rx: &mut Rx<T>)
    requires here { at < vec_len ends.old }
    requires port { slice_get (tx_marks ends.old.items) at ≡ slice_get (rx.old.mark ∷ []) 0 }
    ensures tx { (tx_marks ends.new.items ≡ tx_marks ends.old.items) × (sent_by ends.new.items ≡ sent_by ends.old.items) × (vec_len ends.new ≡ vec_len ends.old) }
    ensures rx { (rx.new.mark ≡ rx.old.mark) × (rx.new.received ≡ rx.old.received) }
    ensures tied { IsPrefix rx.new.received (get_or (sent_by ends.new.items) at []) }
{
    tie(&mut ends[at], rx);
}
