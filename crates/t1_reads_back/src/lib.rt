//! A printed log reads back as its report: the reports of joint histories, and of machines that have
//! ended, are well formed. Definitions and laws alone.
//!
//! `t1_read::read_log` answers the report of a text where that is well formed (`IsWellFormed` of
//! `t1_take`). `specs/Laws.antt` has the laws: what the log does not print of such a report is what it
//! says of itself, and each value is in the range that a log can have.
//!
//! `proofs/Masks.antt` says that a word decodes to a membar of a mask of 7 bits, `proofs/Blanks.antt`
//! that the fields of an item that mean nothing for its kind are 0, `proofs/Kills.antt` that the kills
//! of a commit are of caches that there are; `proofs/Histories.antt` puts them together.
#![tactic(auto)]

pub mod laws;
