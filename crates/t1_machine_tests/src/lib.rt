//! Tests of cores and of the machine: a core's steps and the packets that it takes, the machine, the
//! chip by each schedule, and the memory order of traces and a log.
#![tactic(auto)]

#[cfg(test)]
mod checked;
#[cfg(test)]
mod chip;
#[cfg(test)]
mod core_takes;
#[cfg(test)]
mod machine;
#[cfg(test)]
mod order;
#[cfg(test)]
mod schedule;
#[cfg(test)]
mod shapes;
#[cfg(test)]
mod sparc_core;
