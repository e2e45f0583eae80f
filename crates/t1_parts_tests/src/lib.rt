//! Tests of the chip's parts and of what they stand on: packets, the arrays and tables of the caches,
//! the store buffer, the choice of a strand, the banks, the I/O bridge, the crossbar; sources and sinks
//! of bytes, and programs in files.
#![tactic(auto)]

#[cfg(test)]
mod bank;
#[cfg(test)]
mod bank_rows;
#[cfg(test)]
mod elf;
#[cfg(test)]
mod io;
#[cfg(test)]
mod iob;
#[cfg(test)]
mod l1;
#[cfg(test)]
mod l2;
#[cfg(test)]
mod packet;
#[cfg(test)]
mod sbuf;
#[cfg(test)]
mod select;
#[cfg(test)]
mod xbar;
