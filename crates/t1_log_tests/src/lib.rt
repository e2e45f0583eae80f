//! Tests of logs: the checker of orders, printed reports, the forms of lines, lines that are taken, and
//! logs that are read.
#![tactic(auto)]

#[cfg(test)]
mod check;
#[cfg(test)]
mod checked;
#[cfg(test)]
mod line_forms;
#[cfg(test)]
mod log;
#[cfg(test)]
mod read;
#[cfg(test)]
mod take;
