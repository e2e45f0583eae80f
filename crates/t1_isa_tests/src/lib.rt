//! Tests of the instructions: numbers, arithmetic, windows, the state of a strand, address spaces, the
//! word table both ways, and the meaning of each instruction.
#![tactic(auto)]

#[cfg(test)]
mod alu;
#[cfg(test)]
mod decode;
#[cfg(test)]
mod encode;
#[cfg(test)]
mod exec;
#[cfg(test)]
mod num;
#[cfg(test)]
mod space;
#[cfg(test)]
mod state;
#[cfg(test)]
mod win;
