//! Laws of replay.
ghost use Rattle.t1_joint.specs.Shaped.{ItemsAreShaped};

/// Each access of a trace that follows the instruction table has a size of 1, 2, 4 or 8 bytes and an
/// address that is a multiple of it; fetches and atomics lie in RAM, loads and stores in RAM or I/O
/// space.
pub fn items_are_shaped()
    ensures { ItemsAreShaped }
{}
