//! Tests of every command over devices in memory.
#![tactic(auto)]

#[cfg(test)]
mod commands;
#[cfg(test)]
mod hostile;
#[cfg(test)]
mod serve;
#[cfg(test)]
mod threads;
