//! A text has at most one first fault, and a log has none. Laws about definitions alone.
//!
//! `t1_read::read_log` answers an error that names the first fault of a text, or a report whose log the
//! text is. `specs/Laws.antt` has the two laws: two errors that name the first fault of one text are one,
//! and none names a fault of the log of a well-formed report.
//!
//! Good lines are read in one way: of two that were read so far from one text, both are one, or a good
//! line stands behind the shorter. `proofs/Lines.antt` has how a good line ends, `proofs/Lists.antt`,
//! `proofs/Images.antt` and `proofs/Consoles.antt` where two lists of lines part, `proofs/Strands.antt`
//! and `proofs/Tails.antt` what then stands next, `proofs/Parts.antt` goes through the parts in order,
//! and `proofs/Faults.antt` has the faults.
#![tactic(auto)]

pub mod laws;
