//! Sources and sinks of bytes, through which the simulator reads its input and writes its output.
//!
//! [`Source`] and [`Sink`] say which bytes are left or held, where an object tells it, and count
//! faults: a call answers [`Failed`] only where its object's count rose in that call. `memory` has
//! sources and sinks over lists whose calls fail by a plan, `calm` those that never fail, and
//! `streams` the adapters over std's readers and writers. [`read_all`] and [`write_all`] move a
//! whole input and a whole piece:
//!
//! ```text
//! let bytes = read_all(alloc, &mut source, 67_108_864)?;
//! write_all(&mut sink, bytes.as_slice())?;
//! ```
#![tactic(auto)]

pub mod calm;
pub mod faults;
pub mod memory;
mod plan;
pub mod sinks;
pub mod sources;
mod store;
pub mod streams;
mod unread;
pub mod whole;

pub use calm::{CalmSink, CalmSource};
pub use faults::{Failed, OutOfMemory};
pub use memory::{MemSink, MemSource};
pub use sinks::Sink;
pub use sources::Source;
pub use streams::{StdSink, StdSource};
pub use whole::{ReadError, read_all, write_all};
