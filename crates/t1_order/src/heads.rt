//! Which strand comes next.
ghost use Rattle.std.specs.Prelude.{ℕ, ◌≡◌, ◌-◌, ◌<◌, ◌≤◌, replicate, drop, slice_set, None};
ghost use Rattle.t1_order.specs.Heads.{is_before, lesser, head_at, IsFirst, IsTree};

use std::marker::Model;

/// A strand, and the time of its next access to list.
#[derive(Clone, Copy)]
pub(crate) struct Head {
    pub time: u32,
    pub strand: u8,
}

/// The head of the earlier time comes first, and at one time that of the lower strand.
fn is_before(first: Option<Head>, second: Option<Head>) -> bool
    ensures { result ≡ is_before first second }
{
    let Some(first) = first else {
        return false;
    };
    let Some(second) = second else {
        return true;
    };
    first.time < second.time || (first.time == second.time && first.strand < second.strand)
}

fn lesser(first: Option<Head>, second: Option<Head>) -> Option<Head>
    ensures { result ≡ lesser first second }
{
    if is_before(second, first) {
        second
    } else {
        first
    }
}

fn head_at(strand: u8, time: Option<u32>) -> Option<Head>
    ensures { result ≡ head_at strand time }
{
    match time {
        Some(time) => Some(Head { time, strand }),
        None => None,
    }
}

/// Writes a leaf of a winner tree, and each node below it again.
fn write_leaf(nodes: &mut [Option<Head>; 128], leaf: usize, head: Option<Head>)
    requires leaf { (64 ≤ leaf) × (leaf < 128) }
    requires tree { IsTree nodes.old }
    ensures tree { IsTree nodes.new }
    ensures leaves { drop 64 nodes.new ≡ slice_set (drop 64 nodes.old) (leaf - 64) head }
{
    nodes[leaf] = head;
    let mut node = leaf / 2;
    while node > 0 {
        nodes[node] = lesser(nodes[2 * node], nodes[2 * node + 1]);
        node /= 2;
    }
}

/// The time of the next access of each of 64 strands, seen as a list.
///
/// It is a winner tree: node 64 + s is the head of strand s, and each node below 64 has the lesser of
/// the heads of nodes 2 n and 2 n + 1, so node 1 has the least of all.
#[derive(Drop)]
pub(crate) struct Heads {
    nodes: [Option<Head>; 128],
}

impl Model for Heads {
    ghost use Rattle.std.specs.Prelude.{ℕ, List, Option};
    ghost use Rattle.t1_order.specs.Heads.{IsTree, AreLeaves, times_of};

    ghost Value = { List (Option ℕ) };

    ghost view = { λ h. times_of h.nodes };

    ghost invariant = { λ h. IsTree h.nodes × AreLeaves h.nodes };
}

impl Heads {
    /// No strand has a next access.
    pub fn new() -> Heads
        ensures { result ≡ replicate 64 None }
    {
        Heads { nodes: [None; 128] }
    }

    /// Sets the time of a strand.
    pub fn put(&mut self, strand: u8, time: Option<u32>)
        requires { strand < 64 }
        ensures { self.new ≡ slice_set self.old strand time }
    {
        write_leaf(&mut self.nodes, 64 + strand as usize, head_at(strand, time));
    }

    /// The head that comes first.
    pub fn first(&self) -> Option<Head>
        ensures { IsFirst self.now result }
    {
        self.nodes[1]
    }
}
