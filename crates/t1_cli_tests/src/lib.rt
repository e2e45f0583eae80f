//! Tests of the serial command over devices in memory.
#![tactic(auto)]

#[cfg(test)]
mod checks;
#[cfg(test)]
mod devices;
#[cfg(test)]
mod guests;
#[cfg(test)]
mod machines;
#[cfg(test)]
mod serve;
#[cfg(test)]
mod texts;
#[cfg(test)]
mod values;
#[cfg(test)]
mod words;
