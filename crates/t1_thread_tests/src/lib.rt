//! Tests of what runs in threads: the rings between two of them, and the threaded run.
#![tactic(auto)]

#[cfg(test)]
mod live;
#[cfg(test)]
mod ring;
